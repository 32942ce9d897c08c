//! Places in an input.
ghost use Rattle.std.specs.Prelude.{◌≡◌, ◌-◌, length};

/// The place of the first of the bytes that are left of an input of this length.
pub fn place(end: usize, bytes: &[u8]) -> usize
    ensures { result ≡ end - length bytes.now }
{
    end.saturating_sub(bytes.len())
}
