//! Writing a unit as bytes.
ghost use Rattle.std.specs.Prelude.{◌≡◌, ◌<◌, ◌^◌, ◌∷◌, ◌++◌, length, IfOk, OnOk};
ghost use Rattle.std.specs.List.{flat_map, AllByRecursion};
ghost use Rattle.wap_base.specs.Numbers.{mb_spelling};
ghost use Rattle.wap_unit.specs.Units.{IsUnit};
ghost use Rattle.wap_unit.specs.Spelling.{sized, counted, constant_spelling, pragma_spelling};
ghost use Rattle.wap_unit.specs.Spelling.{name_spelling, function_spelling, constants_spelling};
ghost use Rattle.wap_unit.specs.Spelling.{functions_spelling, body_spelling, spelling, HasSpelling};
ghost use Rattle.wap_unit.specs.inside.Fitting.{FitsConstant, FitsConstants, FitsName};
ghost use Rattle.wap_unit.specs.inside.Fitting.{FitsFunction, FitsFunctions, FitsUnit};

use crate::kind::{CODED, DOMAIN, EMPTY, FLOAT, INT8, INT16, INT32, PATH, PROPERTY, SCHEME, UTF8};
use crate::{Code, Constant, Pragma, Unit};
use std::alloc::Global;
use wap_base::{Bytes, NoMemory, Text, write_mb};

/// The one spelling of a unit that has some, with its own version byte and the shortest numbers.
pub fn encode(alloc: Global, unit: &Unit) -> Result<Bytes, NoMemory>
    requires { HasSpelling unit.now }
    ensures spelled { IfOk result (λ bytes. bytes ≡ spelling unit.now) }
    // The bytes that are written are this unit, so reading them gives it back.
    ensures read { IsUnit (spelling unit.now) unit.now }
{
    write_unit(alloc, unit)
}

#[tactic(auto, unfolding(crate::specs::Spelling::spelling))]
fn write_unit(alloc: Global, unit: &Unit) -> Result<Bytes, NoMemory>
    requires { FitsUnit unit.now }
    ensures { IfOk result (λ bytes. bytes ≡ spelling unit.now) }
{
    let mut body = Bytes::new(alloc);
    write_body(&mut body, unit)?;
    let mut out = Bytes::new(alloc);
    out.add(&[unit.version])?;
    write_sized(&mut out, body.as_slice())?;
    Ok(out)
}

#[tactic(auto, unfolding(crate::specs::Spelling::body_spelling))]
fn write_body(out: &mut Bytes, unit: &Unit) -> Result<(), NoMemory>
    requires { FitsUnit unit.now }
    ensures { OnOk result (out.new ≡ out.old ++ body_spelling unit.now) }
{
    write_constants(out, unit.charset, unit.constants.as_slice())?;
    write_pragmas(out, unit.pragmas.as_slice())?;
    write_functions(out, unit.names.as_slice(), unit.functions.as_slice())
}

/// Bytes after their number.
fn write_sized(out: &mut Bytes, content: &[u8]) -> Result<(), NoMemory>
    requires { length content.now < 2 ^ 32 }
    ensures { OnOk result (out.new ≡ out.old ++ sized content.now) }
{
    write_mb(out, content.len() as u32)?;
    out.add(content)
}

fn write_constants(out: &mut Bytes, charset: u32, constants: &[Constant]) -> Result<(), NoMemory>
    requires { FitsConstants constants.now }
    ensures { OnOk result (out.new ≡ out.old ++ constants_spelling charset constants.now) }
{
    write_mb(out, constants.len() as u32)?;
    write_mb(out, charset)?;
    write_pool(out, constants)
}

fn write_pool(out: &mut Bytes, constants: &[Constant]) -> Result<(), NoMemory>
    requires { AllByRecursion FitsConstant constants.now }
    ensures { OnOk result (out.new ≡ out.old ++ flat_map constant_spelling constants.now) }
{
    for constant in constants {
        write_constant(out, constant)?;
    }
    Ok(())
}

fn write_constant(out: &mut Bytes, constant: &Constant) -> Result<(), NoMemory>
    requires { FitsConstant constant.now }
    ensures { OnOk result (out.new ≡ out.old ++ constant_spelling constant.now) }
{
    match constant {
        Constant::Int8(number) => write_kind(out, INT8, &number.to_be_bytes()),
        Constant::Int16(number) => write_kind(out, INT16, &number.to_be_bytes()),
        Constant::Int32(number) => write_kind(out, INT32, &number.to_be_bytes()),
        Constant::Float(bits) => write_kind(out, FLOAT, &bits.to_be_bytes()),
        Constant::Utf8(text) => write_text(out, UTF8, text.as_str().as_bytes()),
        Constant::Empty => write_kind(out, EMPTY, &[]),
        Constant::Coded(text) => write_text(out, CODED, text.as_slice()),
    }
}

/// The first byte of an item, and the bytes after it.
fn write_kind(out: &mut Bytes, kind: u8, rest: &[u8]) -> Result<(), NoMemory>
    ensures { OnOk result (out.new ≡ out.old ++ kind ∷ rest.now) }
{
    out.add(&[kind])?;
    out.add(rest)
}

/// The first byte of an item, and the bytes after it, which stand after their number.
fn write_text(out: &mut Bytes, kind: u8, content: &[u8]) -> Result<(), NoMemory>
    requires { length content.now < 2 ^ 32 }
    ensures { OnOk result (out.new ≡ out.old ++ kind ∷ sized content.now) }
{
    out.add(&[kind])?;
    write_sized(out, content)
}

fn write_pragmas(out: &mut Bytes, pragmas: &[Pragma]) -> Result<(), NoMemory>
    requires { length pragmas.now < 2 ^ 32 }
    ensures { OnOk result (out.new ≡ out.old ++ counted pragma_spelling pragmas.now) }
{
    write_mb(out, pragmas.len() as u32)?;
    write_row(out, pragmas)
}

fn write_row(out: &mut Bytes, pragmas: &[Pragma]) -> Result<(), NoMemory>
    ensures { OnOk result (out.new ≡ out.old ++ flat_map pragma_spelling pragmas.now) }
{
    for pragma in pragmas {
        write_pragma(out, *pragma)?;
    }
    Ok(())
}

fn write_pragma(out: &mut Bytes, pragma: Pragma) -> Result<(), NoMemory>
    ensures { OnOk result (out.new ≡ out.old ++ pragma_spelling pragma) }
{
    match pragma {
        Pragma::Domain(text) => write_index(out, DOMAIN, text),
        Pragma::Path(text) => write_index(out, PATH, text),
        Pragma::Property(name, content) => {
            write_index(out, PROPERTY, name)?;
            write_mb(out, content)
        }
        Pragma::Scheme(name, content, scheme) => {
            write_index(out, SCHEME, name)?;
            write_mb(out, content)?;
            write_mb(out, scheme)
        }
    }
}

/// The first byte of an item, and a number.
fn write_index(out: &mut Bytes, kind: u8, index: u32) -> Result<(), NoMemory>
    ensures { OnOk result (out.new ≡ out.old ++ kind ∷ mb_spelling index) }
{
    out.add(&[kind])?;
    write_mb(out, index)
}

fn write_functions(
    out: &mut Bytes,
    names: &[(u8, Text)],
    functions: &[Code],
) -> Result<(), NoMemory>
    requires { FitsFunctions names.now functions.now }
    ensures { OnOk result (out.new ≡ out.old ++ functions_spelling names.now functions.now) }
{
    out.add(&[functions.len() as u8, names.len() as u8])?;
    write_names(out, names)?;
    write_bodies(out, functions)
}

fn write_names(out: &mut Bytes, names: &[(u8, Text)]) -> Result<(), NoMemory>
    requires { AllByRecursion FitsName names.now }
    ensures { OnOk result (out.new ≡ out.old ++ flat_map name_spelling names.now) }
{
    for name in names {
        write_name(out, name.0, name.1.as_str().as_bytes())?;
    }
    Ok(())
}

fn write_name(out: &mut Bytes, index: u8, content: &[u8]) -> Result<(), NoMemory>
    requires { length content.now < 2 ^ 8 }
    ensures { OnOk result (out.new ≡ out.old ++ index ∷ length content.now ∷ content.now) }
{
    out.add(&[index, content.len() as u8])?;
    out.add(content)
}

fn write_bodies(out: &mut Bytes, functions: &[Code]) -> Result<(), NoMemory>
    requires { AllByRecursion FitsFunction functions.now }
    ensures { OnOk result (out.new ≡ out.old ++ flat_map function_spelling functions.now) }
{
    for function in functions {
        write_function(out, function)?;
    }
    Ok(())
}

fn write_function(out: &mut Bytes, function: &Code) -> Result<(), NoMemory>
    requires { FitsFunction function.now }
    ensures { OnOk result (out.new ≡ out.old ++ function_spelling function.now) }
{
    out.add(&[function.args, function.locals])?;
    write_sized(out, function.code.as_slice())
}
