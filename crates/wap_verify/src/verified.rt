//! Units that were verified.
ghost use Rattle.std.specs.Prelude.{◌≡◌, ◌≢◌, ◌<◌, Some, None, length, slice_get, IfOk, IfErr};
ghost use Rattle.std.specs.Str.{chars};
ghost use Rattle.std.specs.Option.{option_map, option_copied};
ghost use Rattle.wap_unit.specs.declared.unit.Code.{Code};
ghost use Rattle.wap_unit.specs.Strings.{string_at};
ghost use Rattle.wap_unit.specs.Spelling.{HasSpelling};
ghost use Rattle.wap_verify.specs.declared.fault.VerifyFault.TheVariants.{NoMemory};
ghost use Rattle.wap_verify.specs.Sound.{IsVerified, IsRoom};
ghost use Rattle.wap_verify.specs.Faults.{IsFault};
ghost use Rattle.wap_verify.specs.Kept.{IsKept, function_named, names_first};

use crate::VerifyFault;
use crate::function::rooms;
use crate::pragmas::stray_pragma;
use crate::strings::texts;
use std::alloc::Global;
use std::marker::Model;
use wap_base::{Charset, Rows, Text};
use wap_unit::{Constant, Unit};

/// A unit that may be run. A contract sees the unit.
#[derive(Drop)]
pub struct Verified {
    unit: Unit,
    /// The texts of coded strings, each at its constant's index.
    texts: Rows<Option<Text>>,
    /// As many values as each function has at most.
    rooms: Rows<u32>,
}

impl Model for Verified {
    ghost use Rattle.wap_unit.specs.declared.unit.Unit.{Unit};
    ghost use Rattle.wap_verify.specs.Kept.{IsKept};

    ghost Value = { Unit };

    ghost view = { λ verified. verified.unit };

    ghost invariant = { λ verified. IsKept verified.unit verified.texts verified.rooms };
}

/// The same unit as one that may be run, or handed back with a reason why it may not.
pub fn verify(alloc: Global, unit: Unit) -> Result<Verified, (Unit, VerifyFault)>
    requires { HasSpelling unit }
    // Exactly the units that may be run are accepted, unless memory runs out, and the unit is kept.
    ensures kept { IfOk result (λ verified. verified ≡ unit) }
    ensures verified { IfOk result (λ _. IsVerified unit) }
    ensures accepted { IsVerified unit → IfErr result (λ refused. refused.1 ≡ NoMemory) }
    // A refused unit is handed back, and the fault is a fact of it.
    ensures handed_back { IfErr result (λ refused. refused.0 ≡ unit) }
    ensures fault { IfErr result (λ refused. refused.1 ≢ NoMemory → IsFault unit refused.1) }
{
    match examine(alloc, &unit) {
        Ok((texts, rooms)) => Ok(Verified { unit, texts, rooms }),
        Err(fault) => Err((unit, fault)),
    }
}

/// What is kept of a unit that may be run.
fn examine(alloc: Global, unit: &Unit) -> Result<(Rows<Option<Text>>, Rows<u32>), VerifyFault>
    requires { HasSpelling unit.now }
    ensures kept { IfOk result (λ kept. IsKept unit.now kept.0 kept.1) }
    ensures fault { IfErr result (λ fault. fault ≢ NoMemory → IsFault unit.now fault) }
{
    if let Some(index) = stray_pragma(unit) {
        return Err(VerifyFault::Pragma { index });
    }
    let rooms = rooms(alloc, unit)?;
    let texts = texts(
        alloc,
        Charset::of_number(unit.charset),
        unit.constants.as_slice(),
    )?;
    Ok((texts, rooms))
}

impl Verified {
    /// The unit, which is spelled by bytes and passed the verifier.
    pub fn unit(&self) -> &Unit
        ensures unit { result.now ≡ self.now }
        ensures spelled { HasSpelling self.now }
        ensures verified { IsVerified self.now }
    {
        &self.unit
    }

    /// Room for the values of a function: the greatest number of values with which a place of it is
    /// reached.
    pub fn room(&self, function: u8) -> usize
        requires { function < length self.now.functions }
        ensures { (code : Code) → slice_get self.now.functions function ≡ Some code
            → IsRoom self.now function code result }
    {
        match self.rooms.get(function as usize) {
            Some(room) => *room as usize,
            None => unreachable!(),
        }
    }

    /// The function of the first entry with this name.
    pub fn function_named(&self, name: &Text) -> Option<u8>
        ensures { result ≡ function_named self.now name.now }
    {
        named_in(self.unit.names.as_slice(), name)
    }

    /// The text of the constant with this index, if it is a string.
    pub fn string(&self, index: u32) -> Option<&str>
        ensures { option_map chars (option_copied result) ≡ string_at self.now index }
    {
        match self.unit.constants.get(index as usize) {
            Some(Constant::Utf8(text)) => Some(text.as_str()),
            Some(Constant::Empty) => Some(""),
            Some(Constant::Coded(_)) => match self.texts.get(index as usize) {
                Some(Some(text)) => Some(text.as_str()),
                Some(None) => None,
                None => None,
            },
            Some(Constant::Int8(_)) => None,
            Some(Constant::Int16(_)) => None,
            Some(Constant::Int32(_)) => None,
            Some(Constant::Float(_)) => None,
            None => None,
        }
    }
}

fn named_in(names: &[(u8, Text)], name: &Text) -> Option<u8>
    ensures { result ≡ names_first names.now name.now }
{
    for entry in names {
        if entry.1 == *name {
            return Some(entry.0);
        }
    }
    None
}
