//! Why bytes are no document.
ghost use Rattle.std.specs.Prelude.{◌≡◌};
ghost use Rattle.wap_wbxml.specs.declared.fault.DocFault.TheVariants.{NoMemory};

/// Why bytes are no document: the first thing from the left that can't stand there. Places are
/// counted in bytes from the beginning.
#[derive(Clone, Copy, Debug, PartialEq, Eq)]
pub enum DocFault {
    /// The version isn't WBXML 1.1, 1.2 or 1.3.
    Version,
    /// The public identifier isn't one of the document type that is read: for WML the number or
    /// the name of WML 1.1, 1.2 or 1.3.
    PublicId,
    /// The character set isn't US-ASCII, ISO-8859-1 or UTF-8, nor left open.
    Charset,
    /// The bytes end in the middle of the document; `at` is how many there are.
    Short { at: usize },
    /// A number is too large, or of more than five bytes; `at` is its first byte.
    Number { at: usize },
    /// No such byte can stand here.
    Token { at: usize },
    /// An index at or past the end of the string table; `at` is the byte that calls for it.
    Index { at: usize },
    /// A string that is no text in the character set, or a number of no character; `at` is the
    /// byte that begins the string, or calls for it or for the character.
    Text { at: usize },
    /// The tag of an element at the 65th level.
    Depth { at: usize },
    /// A name of the string table with which the names in the root take 2^32 bytes or more, each
    /// counted once, in UTF-8 and with a 0; `at` is the byte that calls for it.
    Table { at: usize },
    /// The first byte after the document.
    Rest { at: usize },
    /// Memory ran out, which says nothing of the bytes.
    NoMemory,
}

impl From<wap_base::NoMemory> for DocFault {
    ghost from_gives = { λ _ fault. fault ≡ NoMemory };

    fn from(_error: wap_base::NoMemory) -> DocFault {
        DocFault::NoMemory
    }
}
