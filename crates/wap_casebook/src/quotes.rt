//! What of a line stands in quotes.

/// Whether the bytes of a line that come next stand in quotes.
#[derive(Clone, Copy)]
pub struct Quotes {
    is_quoted: bool,
    is_escaped: bool,
}

impl Quotes {
    /// At the beginning of a line.
    pub fn new() -> Quotes {
        Quotes {
            is_quoted: false,
            is_escaped: false,
        }
    }

    /// Takes the next byte, and answers whether it is a quote or stands in quotes.
    pub fn take(&mut self, byte: u8) -> bool {
        if self.is_escaped {
            self.is_escaped = false;
            return true;
        }
        if byte == b'"' {
            self.is_quoted = !self.is_quoted;
            return true;
        }
        self.is_escaped = self.is_quoted && byte == b'\\';
        self.is_quoted
    }
}
