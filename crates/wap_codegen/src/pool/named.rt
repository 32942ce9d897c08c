//! Names in order, each known by its place.
ghost use Rattle.std.specs.Prelude.{◌≡◌, [], length, OnOk};
ghost use Rattle.wap_scope.specs.accepted.Known.{place_of};
ghost use Rattle.wap_codegen.specs.pool.Names.{with_name};

use indexmap::IndexSet;
use std::alloc::Global;
use std::marker::Model;
use wap_base::{NoMemory, Text};

/// Names, each of which stands once, in the order in which they came.
#[derive(Drop)]
pub(crate) struct Named {
    names: IndexSet<Text>,
}

impl Model for Named {
    ghost use Rattle.std.specs.Prelude.{List, ℕ};

    ghost Value = { List (List ℕ) };

    ghost view = { λ named. named.names.keys };
}

impl Named {
    /// No name yet, and the allocator for those to come.
    pub(crate) fn new(alloc: Global) -> Named
        ensures { result ≡ [] }
    {
        Named {
            names: IndexSet::new(alloc),
        }
    }

    /// How many names there are.
    pub(crate) fn len(&self) -> usize
        ensures { result ≡ length self.now }
    {
        self.names.len()
    }

    /// The place of a name, and that after the last where it has none.
    pub(crate) fn place(&self, name: &Text) -> usize
        ensures { result ≡ place_of name.now self.now }
    {
        self.names.get_index_of(name).unwrap_or(self.names.len())
    }

    /// Adds a copy of a name at the end, if it isn't there yet.
    pub(crate) fn add(&mut self, alloc: Global, name: &Text) -> Result<(), NoMemory>
        ensures { OnOk result (self.new ≡ with_name self.old name.now) }
    {
        self.names.insert(name.copy(alloc)?)?;
        Ok(())
    }
}
