//! Where the tables have their rows: in the order of the codes, a few of which are free.
ghost use Rattle.std.specs.Prelude.{◌≡◌};
ghost use Rattle.wap_tokens.specs.inside.Places.{tag_place, start_place, value_place};

/// The place of a code among the tags.
pub(crate) fn tag_place(code: u8) -> Option<usize>
    ensures { result ≡ tag_place code }
{
    match code {
        0x1b..=0x39 => Some(usize::from(code) - 0x1b),
        0x3b..=0x3f => Some(usize::from(code) - 0x1c),
        _ => None,
    }
}

/// The place of a code among the starts of attributes.
pub(crate) fn start_place(code: u8) -> Option<usize>
    ensures { result ≡ start_place code }
{
    match code {
        0x05..=0x0d => Some(usize::from(code) - 5),
        0x0f..=0x16 => Some(usize::from(code) - 6),
        0x18..=0x2a => Some(usize::from(code) - 7),
        0x2e..=0x3f => Some(usize::from(code) - 10),
        0x45..=0x50 => Some(usize::from(code) - 15),
        0x52..=0x64 => Some(usize::from(code) - 16),
        _ => None,
    }
}

/// The place of a code among the parts of values.
pub(crate) fn value_place(code: u8) -> Option<usize>
    ensures { result ≡ value_place code }
{
    match code {
        0x85..=0x91 => Some(usize::from(code) - 0x85),
        0x93..=0x9b => Some(usize::from(code) - 0x86),
        0x9d..=0xa1 => Some(usize::from(code) - 0x87),
        _ => None,
    }
}
