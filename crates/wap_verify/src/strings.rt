//! Which constants are strings, and the texts of coded ones.
ghost use Rattle.std.specs.Prelude.{◌≡◌, true, map, IfOk};
ghost use Rattle.std.specs.List.{AllByRecursion};
ghost use Rattle.wap_base.specs.Charsets.{is_text, characters_of};
ghost use Rattle.wap_unit.specs.Strings.{holds_text, is_string};
ghost use Rattle.wap_verify.specs.Kept.{coded_text, IsReadable};

use std::alloc::Global;
use std::str;
use wap_base::{Charset, NoMemory, Rows, Text};
use wap_unit::{Constant, Unit};

fn holds_text(constant: &Constant) -> bool
    ensures { result ≡ holds_text constant.now }
{
    match constant {
        Constant::Int8(_) => false,
        Constant::Int16(_) => false,
        Constant::Int32(_) => false,
        Constant::Float(_) => false,
        Constant::Utf8(_) => true,
        Constant::Empty => true,
        Constant::Coded(_) => true,
    }
}

/// Whether there is a constant with this index, and it is a string.
pub(crate) fn is_string(unit: &Unit, index: u32) -> bool
    ensures { result ≡ is_string unit.now index }
{
    match unit.constants.get(index as usize) {
        Some(constant) => holds_text(constant),
        None => false,
    }
}

/// The texts of coded strings, each at its constant's index.
pub(crate) fn texts(
    alloc: Global,
    set: Option<Charset>,
    constants: &[Constant],
) -> Result<Rows<Option<Text>>, NoMemory>
    requires { AllByRecursion (IsReadable set) constants.now }
    ensures { IfOk result (λ texts. texts ≡ map (coded_text set) constants.now) }
{
    let mut texts = Rows::new(alloc);
    for constant in constants {
        texts.add(coded_text(alloc, set, constant)?)?;
    }
    Ok(texts)
}

/// The text of a coded string.
fn coded_text(
    alloc: Global,
    set: Option<Charset>,
    constant: &Constant,
) -> Result<Option<Text>, NoMemory>
    requires { IsReadable set constant.now }
    ensures { IfOk result (λ text. text ≡ coded_text set constant.now) }
{
    match constant {
        Constant::Int8(_) => Ok(None),
        Constant::Int16(_) => Ok(None),
        Constant::Int32(_) => Ok(None),
        Constant::Float(_) => Ok(None),
        Constant::Utf8(_) => Ok(None),
        Constant::Empty => Ok(None),
        Constant::Coded(bytes) => match set {
            None => Ok(None),
            Some(set) => Ok(Some(text_of(alloc, set, bytes.as_slice())?)),
        },
    }
}

fn text_of(alloc: Global, set: Charset, bytes: &[u8]) -> Result<Text, NoMemory>
    requires { is_text set bytes.now ≡ true }
    ensures { IfOk result (λ text. text ≡ characters_of set bytes.now) }
{
    match set {
        Charset::Ascii => Text::from_latin1(alloc, bytes),
        Charset::Latin1 => Text::from_latin1(alloc, bytes),
        Charset::Utf8 => match str::from_utf8(bytes) {
            Ok(text) => Text::of(alloc, text),
            Err(_) => unreachable!(),
        },
    }
}
