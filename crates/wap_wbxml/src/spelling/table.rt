//! The string table of a document.
ghost use Rattle.std.specs.Prelude.{◌≡◌, ◌<◌, ◌^◌, length, IfOk};
ghost use Rattle.wap_tokens.specs.markup.Grammar.{table_size};
ghost use Rattle.wap_wbxml.specs.spelling.Names.{table_of, place_of};

use crate::spelling::output::add_string;
use indexmap::IndexSet;
use std::alloc::Global;
use std::marker::Model;
use wap_base::{Bytes, NoMemory, Text};

/// A table of names, with where each of them stands.
#[derive(Drop)]
pub struct Table {
    names: IndexSet<Text>,
    places: Vec<u32>,
    bytes: Bytes,
}

impl Model for Table {
    ghost use Rattle.std.specs.Prelude.{ℕ, List};
    ghost use Rattle.wap_wbxml.specs.spelling.inside.Places.{IsTable};

    ghost Value = { List (List ℕ) };

    ghost view = { λ table. table.names.keys };

    ghost invariant = { λ table. IsTable table.names.keys table.bytes table.places.items };
}

impl Table {
    /// The table of these names.
    pub fn new(alloc: Global, names: IndexSet<Text>) -> Result<Table, NoMemory>
        requires { table_size names.keys < 2 ^ 32 }
        ensures { IfOk result (λ table. table ≡ names.keys) }
    {
        let mut places = Vec::new(alloc);
        let mut bytes = Bytes::new(alloc);
        for name in names.as_slice() {
            places.push(bytes.len() as u32)?;
            add_string(&mut bytes, name)?;
        }
        Ok(Table {
            names,
            places,
            bytes,
        })
    }

    /// The string table as it stands in a document.
    pub fn as_bytes(&self) -> &[u8]
        ensures bytes { result.now ≡ table_of self.now }
        ensures fits { length result.now < 2 ^ 32 }
    {
        self.bytes.as_slice()
    }

    /// Where a name stands; one that isn't in the table would stand after it.
    pub fn place_of(&self, name: &Text) -> u32
        ensures { result ≡ place_of self.now name.now }
    {
        match self.names.get_index_of(name) {
            Some(index) => self.places[index],
            None => self.bytes.len() as u32,
        }
    }
}
