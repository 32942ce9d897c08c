//! What a browser asks of a unit: who may call it, and its external functions (WAP-193, section 9).
ghost use Rattle.std.specs.Prelude.{◌≡◌, Some, IfOk, option_and_then};
ghost use Rattle.wap_unit.specs.Strings.{string_at};
ghost use Rattle.wap_world.specs.scripting.Units.{domain_in, path_in, entrance_in};
ghost use Rattle.wap_world.specs.scripting.Units.{external_in};

use std::alloc::Global;
use std::marker::Model;
use wap_base::{NoMemory, Text};
use wap_state::requests::Entrance;
use wap_unit::Pragma;
use wap_verify::Verified;

/// An external function of a unit.
#[derive(Drop)]
pub struct External {
    /// Its index.
    pub index: u8,
    /// How many arguments it takes.
    pub arguments: u8,
}

impl Model for External {
    ghost use Rattle.wap_world.specs.Sites.{External as Shown};

    ghost Value = { Shown };

    ghost view = { λ one. record { index = one.index; arguments = one.arguments } };
}

/// The constant of the first access domain.
fn domain_in(pragmas: &[Pragma]) -> Option<u32>
    ensures { result ≡ domain_in pragmas.now }
{
    for pragma in pragmas {
        match pragma {
            Pragma::Domain(index) => return Some(*index),
            Pragma::Path(_) | Pragma::Property(_, _) | Pragma::Scheme(_, _, _) => {}
        }
    }
    None
}

/// The constant of the first access path.
fn path_in(pragmas: &[Pragma]) -> Option<u32>
    ensures { result ≡ path_in pragmas.now }
{
    for pragma in pragmas {
        match pragma {
            Pragma::Path(index) => return Some(*index),
            Pragma::Domain(_) | Pragma::Property(_, _) | Pragma::Scheme(_, _, _) => {}
        }
    }
    None
}

/// A copy of the text of a constant, if it is named and is a string.
fn text_at(alloc: Global, unit: &Verified, index: Option<u32>) -> Result<Option<Text>, NoMemory>
    ensures { IfOk result (λ text. text ≡ option_and_then (string_at unit.now) index) }
{
    let Some(index) = index else {
        return Ok(None);
    };
    match unit.string(index) {
        Some(text) => Ok(Some(Text::of(alloc, text)?)),
        None => Ok(None),
    }
}

/// Who may call a unit; without access pragmas anybody may.
pub fn entrance_in(alloc: Global, unit: &Verified) -> Result<Option<Entrance>, NoMemory>
    ensures { IfOk result (λ entrance. entrance ≡ entrance_in unit.now) }
{
    let pragmas = unit.unit().pragmas.as_slice();
    let domain = text_at(alloc, unit, domain_in(pragmas))?;
    let path = text_at(alloc, unit, path_in(pragmas))?;
    if domain.is_none() && path.is_none() {
        return Ok(None);
    }
    Ok(Some(Entrance { domain, path }))
}

/// The external function of a name, where the unit has a function of its index.
pub fn external_in(unit: &Verified, name: &Text) -> Option<External>
    ensures is { result ≡ external_in unit.now name.now }
{
    let Some(index) = unit.function_named(name) else {
        return None;
    };
    match unit.unit().functions.get(usize::from(index)) {
        Some(function) => Some(External {
            index,
            arguments: function.args,
        }),
        None => None,
    }
}
