//! The pragmas of units.
ghost use Rattle.std.specs.Prelude.{◌≡◌, ◌++◌, IfOk, OnOk};
ghost use Rattle.std.specs.List.{flat_map};
ghost use Rattle.wap_unit.specs.declared.unit.Pragma.TheVariants.{Domain, Path};
ghost use Rattle.wap_meaning.specs.compiled.Units.{pragma_if, property, pragmas_of, text_place};

use crate::pool::Numbering;
use std::alloc::Global;
use wap_base::{NoMemory, Rows, Text};
use wap_grammar::program::Use;
use wap_unit::Pragma;

/// The index of a constant, which has 32 bits: more aren't in any memory.
fn index_of(alloc: Global, numbering: &Numbering, text: &Text) -> Result<u32, NoMemory>
    ensures { IfOk result (λ index. index ≡ text_place numbering.now.pool text.now) }
{
    match u32::try_from(numbering.text(alloc, text)?) {
        Ok(index) => Ok(index),
        Err(_) => Err(NoMemory),
    }
}

/// Adds the domain of those who may call the unit, if there is one.
fn add_domain(
    alloc: Global,
    numbering: &Numbering,
    pragmas: &mut Rows<Pragma>,
    domain: &Option<Text>,
) -> Result<(), NoMemory>
    ensures { OnOk result (pragmas.new ≡ pragmas.old
        ++ pragma_if (λ text. Domain (text_place numbering.now.pool text)) domain.now) }
{
    match domain {
        None => Ok(()),
        Some(domain) => pragmas.add(Pragma::Domain(index_of(alloc, numbering, domain)?)),
    }
}

/// Adds their path, if there is one.
fn add_path(
    alloc: Global,
    numbering: &Numbering,
    pragmas: &mut Rows<Pragma>,
    path: &Option<Text>,
) -> Result<(), NoMemory>
    ensures { OnOk result (pragmas.new ≡ pragmas.old
        ++ pragma_if (λ text. Path (text_place numbering.now.pool text)) path.now) }
{
    match path {
        None => Ok(()),
        Some(path) => pragmas.add(Pragma::Path(index_of(alloc, numbering, path)?)),
    }
}

/// A property for the browser.
fn property_of(
    alloc: Global,
    numbering: &Numbering,
    name: &Text,
    content: &Text,
    scheme: &Option<Text>,
) -> Result<Pragma, NoMemory>
    ensures { IfOk result (λ given.
        given ≡ property (text_place numbering.now.pool) name.now content.now scheme.now) }
{
    let name = index_of(alloc, numbering, name)?;
    let content = index_of(alloc, numbering, content)?;
    match scheme {
        None => Ok(Pragma::Property(name, content)),
        Some(scheme) => {
            let scheme = index_of(alloc, numbering, scheme)?;
            Ok(Pragma::Scheme(name, content, scheme))
        }
    }
}

/// Adds what a pragma of the source says, if the unit keeps it.
fn add_use(
    alloc: Global,
    numbering: &Numbering,
    pragmas: &mut Rows<Pragma>,
    pragma: &Use,
) -> Result<(), NoMemory>
    ensures { OnOk result (pragmas.new ≡ pragmas.old
        ++ pragmas_of (text_place numbering.now.pool) pragma.now) }
{
    match pragma {
        Use::Url(_, _) => Ok(()),
        Use::Access(domain, path, _) => {
            add_domain(alloc, numbering, pragmas, domain)?;
            add_path(alloc, numbering, pragmas, path)
        }
        Use::Agent(name, content, scheme) => {
            pragmas.add(property_of(alloc, numbering, name, content, scheme)?)
        }
        Use::Note => Ok(()),
    }
}

/// The pragmas that the unit keeps.
pub(crate) fn pragmas_of(
    alloc: Global,
    numbering: &Numbering,
    uses: &[Use],
) -> Result<Rows<Pragma>, NoMemory>
    ensures { IfOk result (λ pragmas. pragmas
        ≡ flat_map (pragmas_of (text_place numbering.now.pool)) uses.now) }
{
    let mut pragmas = Rows::new(alloc);
    for pragma in uses {
        add_use(alloc, numbering, &mut pragmas, pragma)?;
    }
    Ok(pragmas)
}
