//! The lines of a listing.
ghost use Rattle.std.specs.Prelude.{◌≡◌, ◌≤◌, [], ◌∷◌, codes, decimal};
ghost use Rattle.std.specs.Option.{option_copied};
ghost use Rattle.wap_dis.specs.Listing.{unit_line, constant_line, pragma_line, first_name};
ghost use Rattle.wap_dis.specs.Listing.{head_line, is_there, operand_count, instr_line, byte_line};
ghost use Rattle.wap_dis.specs.Listing.{line};
ghost use Rattle.wap_dis.specs.inside.Gathering.{Gathers};
ghost use Rattle.wap_dis.specs.inside.Gathered.{state};
ghost use Rattle.wap_dis.specs.inside.LineWords.{word_bytes};

use crate::held::Held;
use crate::names::name_of;
use crate::word::{Word, put_line};
use wap_base::Text;
use wap_devices::Sink;
use wap_unit::{Code, Constant, Instr, Pragma, Row, Slot, Unit};

/// Adds the line of the unit: its version and character set.
pub(crate) fn put_unit_line<O: Sink>(out: &mut O, held: &mut Held, unit: &Unit)
    ensures { Gathers (O.seen out.old) (O.seen out.new)
        (state held.old) (state held.new) (unit_line unit.now) }
{
    put_line(
        out,
        held,
        Word::Name("unit"),
        &[
            Word::Name("version"),
            Word::Number(u64::from(unit.version)),
            Word::Name("charset"),
            Word::Number(u64::from(unit.charset)),
        ],
    );
}

/// Adds the line of a constant, known by its index.
pub(crate) fn put_constant_line<O: Sink>(
    out: &mut O,
    held: &mut Held,
    index: u64,
    constant: &Constant,
)
    ensures { Gathers (O.seen out.old) (O.seen out.new)
        (state held.old) (state held.new) (constant_line (index, constant.now)) }
{
    match constant {
        Constant::Int8(number) => {
            put_value_line(out, held, index, "int8", Word::Signed(i32::from(*number)));
        }
        Constant::Int16(number) => {
            put_value_line(out, held, index, "int16", Word::Signed(i32::from(*number)));
        }
        Constant::Int32(number) => {
            put_value_line(out, held, index, "int32", Word::Signed(*number));
        }
        Constant::Float(bits) => {
            put_value_line(out, held, index, "float", Word::Hex(&bits.to_be_bytes()));
        }
        Constant::Utf8(text) => {
            put_value_line(out, held, index, "utf8", Word::Shown(text.as_str()));
        }
        Constant::Empty => {
            let words = [Word::Number(index), Word::Name("empty")];
            put_line(out, held, Word::Name("const"), &words);
        }
        Constant::Coded(text) => {
            put_value_line(out, held, index, "coded", Word::Hex(text.as_slice()));
        }
    }
}

/// The line of a constant that has a value.
fn put_value_line<'a, O: Sink>(
    out: &mut O,
    held: &mut Held,
    index: u64,
    kind: &'a str,
    value: Word<'a>,
)
    ensures { Gathers (O.seen out.old) (O.seen out.new)
        (state held.old) (state held.new)
        (line (codes "const") (decimal index ∷ kind.now ∷ word_bytes value.entry ∷ [])) }
{
    let words = [Word::Number(index), Word::Name(kind), value];
    put_line(out, held, Word::Name("const"), &words);
}

/// Adds the line of a pragma, known by its index.
pub(crate) fn put_pragma_line<O: Sink>(out: &mut O, held: &mut Held, index: u64, pragma: Pragma)
    ensures { Gathers (O.seen out.old) (O.seen out.new)
        (state held.old) (state held.new) (pragma_line (index, pragma)) }
{
    let index = Word::Number(index);
    let first = Word::Name("pragma");
    match pragma {
        Pragma::Domain(text) => {
            let text = Word::Number(u64::from(text));
            put_line(out, held, first, &[index, Word::Name("domain"), text]);
        }
        Pragma::Path(text) => {
            let text = Word::Number(u64::from(text));
            put_line(out, held, first, &[index, Word::Name("path"), text]);
        }
        Pragma::Property(name, content) => {
            let name = Word::Number(u64::from(name));
            let content = Word::Number(u64::from(content));
            put_line(
                out,
                held,
                first,
                &[index, Word::Name("property"), name, content],
            );
        }
        Pragma::Scheme(name, content, scheme) => {
            let name = Word::Number(u64::from(name));
            let content = Word::Number(u64::from(content));
            let scheme = Word::Number(u64::from(scheme));
            put_line(
                out,
                held,
                first,
                &[index, Word::Name("scheme"), name, content, scheme],
            );
        }
    }
}

/// The first name of a function.
fn first_name(names: &[(u8, Text)], index: u64) -> Option<&Text>
    ensures { option_copied result ≡ first_name names.now index }
{
    for name in names {
        if u64::from(name.0) == index {
            return Some(&name.1);
        }
    }
    None
}

/// Adds the line that begins a function: its index, counts and first name.
pub(crate) fn put_head_line<O: Sink>(
    out: &mut O,
    held: &mut Held,
    unit: &Unit,
    index: u64,
    function: &Code,
)
    ensures { Gathers (O.seen out.old) (O.seen out.new)
        (state held.old) (state held.new) (head_line unit.now index function.now) }
{
    let name = match first_name(unit.names.as_slice(), index) {
        None => Word::Name("-"),
        Some(name) => Word::Shown(name.as_str()),
    };
    put_line(
        out,
        held,
        Word::Name("function"),
        &[
            Word::Number(index),
            name,
            Word::Name("args"),
            Word::Number(u64::from(function.args)),
            Word::Name("locals"),
            Word::Number(u64::from(function.locals)),
            Word::Name("size"),
            Word::Number(function.code.len() as u64),
        ],
    );
}

fn is_there(slot: Slot) -> usize
    ensures { result ≡ is_there slot }
{
    match slot {
        Slot::Absent => 0,
        Slot::Low => 1,
        Slot::Byte => 1,
        Slot::Word => 1,
    }
}

/// How many operands an instruction of this row has.
fn operand_count(row: Row) -> usize
    ensures count { result ≡ operand_count row }
    ensures few { result ≤ 3 }
{
    is_there(row.a) + is_there(row.b) + is_there(row.c)
}

/// Adds the line of an instruction at a place of its code.
pub(crate) fn put_instr_line<O: Sink>(out: &mut O, held: &mut Held, at: u64, row: Row, instr: Instr)
    ensures { Gathers (O.seen out.old) (O.seen out.new)
        (state held.old) (state held.new) (instr_line at row instr) }
{
    let words = [
        Word::Name(name_of(instr.name)),
        Word::Number(u64::from(instr.a)),
        Word::Number(u64::from(instr.b)),
        Word::Number(u64::from(instr.c)),
    ];
    put_line(
        out,
        held,
        Word::Number(at),
        &words[..1 + operand_count(row)],
    );
}

/// Adds the line of a byte of code: the first that begins no instruction, or one after it.
pub(crate) fn put_byte_line<O: Sink>(out: &mut O, held: &mut Held, at: u64, byte: u8)
    ensures { Gathers (O.seen out.old) (O.seen out.new)
        (state held.old) (state held.new) (byte_line (at, byte)) }
{
    put_line(
        out,
        held,
        Word::Number(at),
        &[Word::Name("BYTE"), Word::Hex(&[byte])],
    );
}
