//! What every function of a program may name: units, and functions.
ghost use Rattle.std.specs.Prelude.{◌≡◌, IfOk, OnOk};
ghost use Rattle.std.specs.Map.{lookup};
ghost use Rattle.wap_base.specs.Texts.{is_same_text};
ghost use Rattle.wap_scope.specs.inside.Globals.{Counts, with_count};

use crate::names::Names;
use indexmap::IndexMap;
use std::alloc::Global;
use std::marker::Model;
use wap_base::{NoMemory, Text};
use wap_grammar::program::Function;

/// What every function of a program may name.
#[derive(Drop)]
pub struct Globals {
    /// The names of units that pragmas make known.
    pub units: Names,
    /// How many parameters each function has.
    pub arities: Arities,
}

/// How many parameters functions have, by their names.
#[derive(Drop)]
pub struct Arities {
    counts: IndexMap<Text, usize>,
}

impl Model for Arities {
    ghost use Rattle.std.specs.Prelude.{List, ℕ};

    ghost Value = { List (List ℕ × ℕ) };

    ghost view = { λ arities. arities.counts.entries };
}

impl Arities {
    /// Those of functions. Of several of one name it is the first's.
    pub fn of(alloc: Global, functions: &[Function]) -> Result<Arities, NoMemory>
        ensures { IfOk result (Counts functions.now) }
    {
        let mut arities = Arities {
            counts: IndexMap::new(alloc),
        };
        for function in functions {
            arities.add(alloc, &function.name.name, function.params.len())?;
        }
        Ok(arities)
    }

    /// Adds that of a function, if none of its name is known.
    fn add(&mut self, alloc: Global, name: &Text, count: usize) -> Result<(), NoMemory>
        ensures { OnOk result (self.new ≡ with_count self.old name.now count) }
    {
        if self.get(name).is_some() {
            return Ok(());
        }
        match self.counts.insert(name.copy(alloc)?, count) {
            Ok(_) => Ok(()),
            Err(_) => Err(NoMemory),
        }
    }

    /// That of the function of a name, if there is one.
    pub fn get(&self, name: &Text) -> Option<usize>
        ensures { result ≡ lookup (is_same_text name.now) self.now }
    {
        self.counts.get(name).copied()
    }
}
