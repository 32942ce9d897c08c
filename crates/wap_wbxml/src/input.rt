//! The whole input, and what it says of its strings.
ghost use Rattle.std.specs.Prelude.{◌≡◌};
ghost use Rattle.wap_wbxml.specs.Places.{place_before};

use std::marker::Model;
use wap_base::Charset;

/// How long the whole input is, and how its strings are spelled.
#[derive(Drop)]
pub struct Input<'a> {
    total: usize,
    charset: Charset,
    table: &'a [u8],
}

impl<'a> Model for Input<'a> {
    ghost use Rattle.wap_wbxml.specs.Places.{Input as Whole};

    ghost Value = { Whole };

    ghost view = { λ input. record {
      total = input.total;
      strings = record { charset = input.charset; table = input.table.now };
    } };
}

impl<'a> Input<'a> {
    /// How long a document is, and how its strings are spelled.
    pub fn new(total: usize, charset: Charset, table: &'a [u8]) -> Input<'a>
        ensures total { result.total ≡ total }
        ensures charset { result.strings.charset ≡ charset }
        ensures table { result.strings.table ≡ table.now }
    {
        Input {
            total,
            charset,
            table,
        }
    }

    /// How many bytes the document has; places are counted by it.
    pub fn total(&self) -> usize
        ensures { result ≡ self.now.total }
    {
        self.total
    }

    /// The character set of its strings.
    pub fn charset(&self) -> Charset
        ensures { result ≡ self.now.strings.charset }
    {
        self.charset
    }

    /// Its string table.
    pub fn table(&self) -> &'a [u8]
        ensures { result.now ≡ self.now.strings.table }
    {
        self.table
    }

    /// Where the byte before those that are left stands.
    pub fn place_before(&self, rest: &[u8]) -> usize
        ensures { result ≡ place_before self.now.total rest.now }
    {
        self.total.saturating_sub(rest.len()).saturating_sub(1)
    }
}
