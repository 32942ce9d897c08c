//! Where forms stand, by their sizes.
ghost use Rattle.std.specs.Prelude.{◌≡◌, ℕ, ◌+◌, ◌-◌, ◌<◌, ◌≤◌, ◌^◌, length, sum, slice_get};
ghost use Rattle.std.specs.Prelude.{slice_index, IfOk, map, Some};
ghost use Rattle.wap_asm.specs.Spellings.{operation_of};
ghost use Rattle.wap_asm.specs.Placing.{settled, wide};
ghost use Rattle.wap_asm.specs.Placed.{ArePlaceable};
ghost use Rattle.wap_asm.specs.declared.site.Site.{Site};
ghost use Rattle.wap_asm.specs.inside.Passes.{site_of, leap_size, apart, AreStarts, first_size};

use crate::Form;
use crate::lengthening::settle;
use crate::site::{Kind, Site, sites_of};
use crate::table::{operation_of, row_size, spelling_of};
use std::alloc::{AllocError, Global};

/// The size of a jump or another form that had this one, at this distance.
pub(crate) fn leap_size(kind: Kind, had: usize, distance: usize) -> usize
    ensures { result ≡ leap_size kind had distance }
{
    match kind {
        Kind::Fixed => had,
        Kind::Short => {
            if distance < 32 {
                1
            } else if distance < 256 {
                2
            } else {
                3
            }
        }
        Kind::Near => { if distance < 256 { 2 } else { 3 } }
    }
}

/// How many bytes stand between the forms at two indexes, by where forms begin.
pub(crate) fn apart(starts: &[usize], i: usize, target: usize) -> usize
    requires from { i + 1 < length starts.now }
    requires to { target < length starts.now }
    requires few { slice_index starts.now target + slice_index starts.now i < 2 ^ 32 }
    ensures { result ≡ apart starts.now i target }
{
    starts[target].saturating_sub(starts[i + 1]) + starts[i].saturating_sub(starts[target])
}

/// Where forms of these sizes begin, and the last ends.
pub(crate) fn fill_starts(sizes: &[usize], starts: &mut [usize])
    requires count { length starts.old ≡ length sizes.now + 1 }
    requires few { sum sizes.now < 2 ^ 32 }
    ensures { AreStarts sizes.now starts.new }
{
    let mut at = 0;
    for i in 0..sizes.len() {
        starts[i] = at;
        at += sizes[i];
    }
    starts[sizes.len()] = at;
}

/// The size of a form where none has bytes yet.
#[tactic(auto, unfolding(crate::specs::inside::Passes::first_size))]
fn first_size(form: Form) -> usize
    ensures { result ≡ first_size form }
{
    match form {
        Form::Op(instr) => {
            let operation = operation_of(instr.name);
            row_size(spelling_of(operation, instr.a, instr.b, instr.c))
        }
        Form::Jump(name, _) => row_size(spelling_of(operation_of(name), 0, 0, 0)),
        Form::Label(_) => 0,
    }
}

/// Where forms stand.
#[derive(Drop)]
pub(crate) struct Layout {
    /// The forms' sites.
    pub(crate) sites: Vec<Site>,
    /// Where each begins, and the last ends.
    pub(crate) starts: Vec<usize>,
}

fn first_sizes(alloc: Global, forms: &[Form]) -> Result<Vec<usize>, AllocError>
    ensures { IfOk result (λ sizes. sizes.items ≡ map first_size forms.now) }
{
    let mut sizes = Vec::new(alloc);
    for form in forms {
        sizes.push(first_size(*form))?;
    }
    Ok(sizes)
}

/// For each label the last jump before it that leads to it, and for each such jump the last before
/// it that leads there too; where there is none, an index past all.
fn chain(sites: &[Site], before: &mut [usize])
    requires count { length before.old ≡ length sites.now + 1 }
    requires targets { (k : ℕ) (site : Site) → slice_get sites.now k ≡ Some site
        → site.target < length before.old }
    ensures { length before.new ≡ length before.old }
{
    for i in 0..sites.len() {
        let target = sites[i].target;
        if i < target {
            before[i] = before[target];
            before[target] = i;
        }
    }
}

/// Where forms stand in their shortest spellings.
pub(crate) fn laid_out(alloc: Global, forms: &[Form], passes: usize) -> Result<Layout, AllocError>
    requires placeable { ArePlaceable forms.now }
    requires passes { passes ≡ wide forms.now }
    requires few { passes ≤ 65535 }
    ensures sites { IfOk result (λ layout. layout.sites.items ≡ map (site_of forms.now) forms.now) }
    ensures starts { IfOk result (λ layout. AreStarts (settled forms.now) layout.starts.items) }
{
    let sites = sites_of(alloc, forms)?;
    let mut sizes = first_sizes(alloc, forms)?;
    let mut before = vec![in alloc; forms.len(); forms.len() + 1]?;
    chain(sites.as_slice(), before.as_mut_slice());
    let mut starts = vec![in alloc; 0usize; forms.len() + 1]?;
    settle(
        forms,
        sites.as_slice(),
        before.as_slice(),
        passes,
        starts.as_mut_slice(),
        sizes.as_mut_slice(),
    );
    fill_starts(sizes.as_slice(), starts.as_mut_slice());
    Ok(Layout { sites, starts })
}
