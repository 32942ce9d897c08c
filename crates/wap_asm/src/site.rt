//! What a form's size depends on.
ghost use Rattle.std.specs.Prelude.{◌≡◌, IfOk, length, map};
ghost use Rattle.wap_asm.specs.Placed.{ArePlaceable};
ghost use Rattle.wap_asm.specs.inside.Passes.{kind_of, site_of};
ghost use Rattle.wap_asm.specs.inside.Indexes.{AreIndexes, site_by};

use crate::Form;
use crate::table::operation_of;
use std::alloc::{AllocError, Global};
use std::collections::BTreeMap;
use wap_unit::OpName;

/// How a form's size depends on a distance.
#[derive(Clone, Copy)]
pub(crate) enum Kind {
    /// It doesn't.
    Fixed,
    /// A jump that has a spelling of one byte.
    Short,
    /// A jump that has none.
    Near,
}

/// A form's kind, and the index of the label that it leads to.
#[derive(Clone, Copy)]
pub(crate) struct Site {
    pub(crate) kind: Kind,
    pub(crate) target: usize,
}

fn kind_of(operation: OpName) -> Kind
    ensures { result ≡ kind_of operation }
{
    match operation {
        OpName::JumpFw => Kind::Short,
        OpName::JumpBw => Kind::Short,
        OpName::TjumpFw => Kind::Short,
        OpName::TjumpBw => Kind::Near,
        _ => Kind::Fixed,
    }
}

/// The index of each label.
fn indexes(alloc: Global, forms: &[Form]) -> Result<BTreeMap<u32, usize>, AllocError>
    ensures { IfOk result (λ labels. AreIndexes forms.now (length forms.now) labels) }
{
    let mut labels = BTreeMap::new(alloc);
    for (i, form) in forms.iter().enumerate() {
        if let Form::Label(label) = form {
            labels.insert(*label, i)?;
        }
    }
    Ok(labels)
}

/// A form's site, by the indexes of labels.
fn site_by(labels: &BTreeMap<u32, usize>, form: Form) -> Site
    ensures { result ≡ site_by labels.now form }
{
    match form {
        Form::Op(_) => Site {
            kind: Kind::Fixed,
            target: 0,
        },
        Form::Jump(name, label) => Site {
            kind: kind_of(operation_of(name)),
            target: labels.get(&label).copied().unwrap_or(0),
        },
        Form::Label(_) => Site {
            kind: Kind::Fixed,
            target: 0,
        },
    }
}

/// The forms' sites.
pub(crate) fn sites_of(alloc: Global, forms: &[Form]) -> Result<Vec<Site>, AllocError>
    requires { ArePlaceable forms.now }
    ensures { IfOk result (λ sites. sites.items ≡ map (site_of forms.now) forms.now) }
{
    let labels = indexes(alloc, forms)?;
    let mut sites = Vec::new(alloc);
    for form in forms {
        sites.push(site_by(&labels, *form))?;
    }
    Ok(sites)
}
