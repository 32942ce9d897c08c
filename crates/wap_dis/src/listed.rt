//! The listing as a whole.
ghost use Rattle.std.specs.Prelude.{◌≡◌, ◌≤◌, ◌<◌, length, OnOk, OnErr, List};
ghost use Rattle.std.specs.List.{flat_map, enumerate_from};
ghost use Rattle.wap_devices.specs.Sinks.{Puts};
ghost use Rattle.wap_dis.specs.Listing.{whole_at, constant_line, pragma_line, byte_lines};
ghost use Rattle.wap_dis.specs.Listing.{code_from, function_lines, listing};
ghost use Rattle.wap_dis.specs.inside.Gathering.{Gathers};
ghost use Rattle.wap_dis.specs.inside.Gathered.{state};

use crate::held::{Held, nothing_held, write_held};
use crate::lines::{
    put_byte_line, put_constant_line, put_head_line, put_instr_line, put_pragma_line, put_unit_line,
};
use wap_asm::{read_row, row_of};
use wap_devices::{Failed, Sink};
use wap_unit::{Code, Constant, Instr, Pragma, Row, Unit};

/// Writes the listing of a unit, some lines at a time. After a fault a prefix of it was written.
pub fn listing<O: Sink>(unit: &Unit, out: &mut O) -> Result<(), Failed>
    ensures { Puts (listing unit.now) (O.seen out.old) (O.seen out.new) result }
{
    let mut held = nothing_held();
    put_listing(out, &mut held, unit);
    write_held(out, &mut held);
    if held.failed { Err(Failed) } else { Ok(()) }
}

#[tactic(auto, unfolding(crate::specs::Listing::listing))]
fn put_listing<O: Sink>(out: &mut O, held: &mut Held, unit: &Unit)
    ensures { Gathers (O.seen out.old) (O.seen out.new)
        (state held.old) (state held.new) (listing unit.now) }
{
    put_unit_line(out, held, unit);
    put_constants(out, held, unit.constants.as_slice());
    put_pragmas(out, held, unit.pragmas.as_slice());
    put_functions(out, held, unit);
}

fn put_constants<O: Sink>(out: &mut O, held: &mut Held, constants: &[Constant])
    ensures { Gathers (O.seen out.old) (O.seen out.new)
        (state held.old) (state held.new)
        (flat_map constant_line (enumerate_from 0 constants.now)) }
{
    for (index, constant) in constants.iter().enumerate() {
        put_constant_line(out, held, index as u64, constant);
    }
}

fn put_pragmas<O: Sink>(out: &mut O, held: &mut Held, pragmas: &[Pragma])
    ensures { Gathers (O.seen out.old) (O.seen out.new)
        (state held.old) (state held.new) (flat_map pragma_line (enumerate_from 0 pragmas.now)) }
{
    for (index, pragma) in pragmas.iter().enumerate() {
        put_pragma_line(out, held, index as u64, *pragma);
    }
}

fn put_functions<O: Sink>(out: &mut O, held: &mut Held, unit: &Unit)
    ensures { Gathers (O.seen out.old) (O.seen out.new)
        (state held.old) (state held.new)
        (flat_map (function_lines unit.now) (enumerate_from 0 unit.now.functions)) }
{
    for (index, function) in unit.functions.as_slice().iter().enumerate() {
        put_function(out, held, unit, index as u64, function);
    }
}

fn put_function<O: Sink>(out: &mut O, held: &mut Held, unit: &Unit, index: u64, function: &Code)
    ensures { Gathers (O.seen out.old) (O.seen out.new)
        (state held.old) (state held.new) (function_lines unit.now (index, function.now)) }
{
    put_head_line(out, held, unit, index, function);
    put_code(out, held, function.code.as_slice());
}

/// The instructions, and each byte from the first one on that is none.
fn put_code<O: Sink>(out: &mut O, held: &mut Held, code: &[u8])
    ensures { Gathers (O.seen out.old) (O.seen out.new)
        (state held.old) (state held.new) (code_from (length code.now) code.now 0) }
{
    let mut at = 0;
    for _ in 0..code.len() {
        if at >= code.len() {
            return;
        }
        match instr_at(code, at) {
            None => {
                put_bytes(out, held, code, at);
                return;
            }
            Some((row, instr)) => {
                put_instr_line(out, held, at as u64, row, instr);
                at = instr.next;
            }
        }
    }
}

/// The instruction at a place, with its row.
#[tactic(auto, unfolding(crate::specs::Listing::whole_at))]
fn instr_at(code: &[u8], at: usize) -> Option<(Row, Instr)>
    requires { at < length code.now }
    ensures { result ≡ whole_at code.now at }
{
    match row_of(code[at]) {
        None => None,
        Some(row) => match read_row(row, code, at) {
            Ok(instr) => Some((row, instr)),
            Err(_) => None,
        },
    }
}

/// Each byte from a place on.
fn put_bytes<O: Sink>(out: &mut O, held: &mut Held, code: &[u8], at: usize)
    requires { at ≤ length code.now }
    ensures { Gathers (O.seen out.old) (O.seen out.new)
        (state held.old) (state held.new) (byte_lines code.now at) }
{
    for place in at..code.len() {
        put_byte_line(out, held, place as u64, code[place]);
    }
}
