//! Names that are known.
ghost use Rattle.std.specs.Prelude.{◌≡◌, ◌++◌, [], ◌∷◌, true, false, not, length, IfOk};
ghost use Rattle.wap_scope.specs.Scoped.{is_among};

use indexmap::IndexSet;
use std::alloc::Global;
use std::marker::Model;
use wap_base::{NoMemory, Text};

/// Names, each of which stands once, in the order in which they came.
#[derive(Drop)]
pub struct Names {
    names: IndexSet<Text>,
}

impl Model for Names {
    ghost use Rattle.std.specs.Prelude.{List, ℕ};

    ghost Value = { List (List ℕ) };

    ghost view = { λ names. names.names.keys };
}

impl Names {
    /// No name yet, and the allocator for those to come.
    pub fn new(alloc: Global) -> Names
        ensures { result ≡ [] }
    {
        Names {
            names: IndexSet::new(alloc),
        }
    }

    /// How many names there are.
    pub fn len(&self) -> usize
        ensures { result ≡ length self.now }
    {
        self.names.len()
    }

    /// Whether the name is among them.
    pub fn has(&self, name: &Text) -> bool
        ensures { result ≡ is_among name.now self.now }
    {
        self.names.contains(name)
    }

    /// Adds a copy of a name that isn't among them yet, and answers whether it was new.
    pub fn insert(&mut self, alloc: Global, name: &Text) -> Result<bool, NoMemory>
        ensures new { IfOk result (λ new. new ≡ not (is_among name.now self.old)) }
        ensures added { IfOk result (λ new. new ≡ true → self.new ≡ self.old ++ name.now ∷ []) }
        ensures kept { IfOk result (λ new. new ≡ false → self.new ≡ self.old) }
    {
        if self.has(name) {
            return Ok(false);
        }
        match self.names.insert(name.copy(alloc)?) {
            Ok(new) => Ok(new),
            Err(_) => Err(NoMemory),
        }
    }
}
