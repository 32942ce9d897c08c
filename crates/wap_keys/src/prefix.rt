//! Prefixes of bytes, up to a line feed.
ghost use Rattle.std.specs.Prelude.{◌≡◌, ◌<◌, ◌≤◌, ◌+◌, ◌++◌, [], ◌∷◌, true, length, take, drop};
ghost use Rattle.std.specs.Prelude.{IfOk, OnErr, IfNone, IfSome};
ghost use Rattle.wap_base.specs.Ascii.{line_feed};
ghost use Rattle.wap_keys.specs.declared.prefix.Prefix.TheVariants.{Whole};
ghost use Rattle.wap_keys.specs.Prefixes.{is_unended, TakesPrefix};

use crate::LINE_LIMIT;
use wap_base::NoMemory;

/// What follows a line that is begun.
#[derive(Clone, Copy)]
pub enum Prefix {
    /// There is no line feed yet.
    Begun,
    /// A line feed stands at a place.
    Whole(usize),
    /// The line is too long, with or without a line feed.
    TooLong,
}

/// Where the first line feed stands.
fn feed_at(bytes: &[u8]) -> Option<usize>
    ensures none { IfNone result (is_unended bytes.now ≡ true) }
    ensures within { IfSome result (λ place. place < length bytes.now) }
    ensures some { IfSome result (λ place. is_unended (take place bytes.now) ≡ true) }
    ensures here { IfSome result (λ place. bytes.now ≡ take place bytes.now ++ line_feed
        ∷ drop (place + 1) bytes.now) }
{
    for (place, byte) in bytes.iter().enumerate() {
        if *byte == b'\n' {
            return Some(place);
        }
    }
    None
}

/// The line that bytes begin with, where it is whole and not too long.
pub(crate) fn whole_line(unread: &[u8]) -> Option<&[u8]>
    ensures within { IfSome result (λ line. length line.now < length unread.now) }
    ensures takes { IfSome result (λ line. TakesPrefix [] line.now unread.now
        (Whole (length line.now))) }
{
    let place = feed_at(unread)?;
    if place > LINE_LIMIT {
        return None;
    }
    Some(unread.split_at(place).0)
}

/// Appends to a line what follows it up to the first line feed, unless that is too long.
pub fn take_prefix(line: &mut Vec<u8>, unread: &[u8]) -> Result<Prefix, NoMemory>
    requires { length line.old.items ≤ LINE_LIMIT }
    ensures takes { IfOk result (TakesPrefix line.old.items line.new.items unread.now) }
    ensures err { OnErr result (line.new.items ≡ line.old.items) }
{
    let room = LINE_LIMIT - line.as_slice().len();
    let Some(place) = feed_at(unread) else {
        if unread.len() > room {
            return Ok(Prefix::TooLong);
        }
        line.extend_from_slice(unread)?;
        return Ok(Prefix::Begun);
    };
    if place > room {
        return Ok(Prefix::TooLong);
    }
    line.extend_from_slice(unread.split_at(place).0)?;
    Ok(Prefix::Whole(place))
}
