//! Children of nodes, as their bytes stand in a deck.
ghost use Rattle.std.specs.Prelude.{◌≡◌, IfSome, drop};
ghost use Rattle.wap_deck.specs.good.Lent.{child_seen};
ghost use Rattle.wap_deck.specs.good.Readers.{Reads, IsBehind};
ghost use Rattle.wap_deck.specs.good.inside.Nodes.{item_at};
ghost use Rattle.wap_deck.specs.good.inside.Notes.{AreNotes, AreLent};

use crate::good::bits::{after_bits, next_bit};
use crate::good::front::is_end;
use crate::good::kids::Child;
use crate::good::notes::{Note, after_noted, own_note};
use crate::good::run::Run;
use crate::good::skip::after_node;
use crate::good::view::View;
use wap_base::Bytes;

/// The next child, what follows it, and the notes of that.
#[inline(always)]
pub(crate) fn next_child<'a>(
    table: &'a Bytes,
    levels: u32,
    bytes: &'a [u8],
    notes: &'a [Note],
) -> Option<(Child<'a>, &'a [u8], &'a [Note])>
    requires { AreLent table.now levels bytes.now notes.now }
    ensures exact { Reads child_seen result (item_at table.now levels bytes.now) }
    ensures behind { IfSome result (λ read. IsBehind read.1.now (drop 1 bytes.now)) }
    ensures noted { IfSome result (λ read. AreNotes bytes.now read.2.now) }
{
    if is_end(bytes) {
        return None;
    }
    if let Some((note, inside)) = own_note(notes, bytes) {
        let node = View::from_note(table, levels, bytes, note, inside);
        let (rest, left) = after_noted(note, inside, bytes);
        return Some((Child::Node(node), rest, left));
    }
    match next_bit(bytes) {
        Some((bit, rest)) => {
            let run = Run::begun_by(bit, bytes, rest);
            Some((Child::Text(run), after_bits(rest), notes))
        }
        None => {
            let node = View::without_note(table, levels, bytes, notes);
            Some((Child::Node(node), after_node(levels, bytes), notes))
        }
    }
}
