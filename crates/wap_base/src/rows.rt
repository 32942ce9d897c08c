//! `Rows`, a `Vec` that contracts see as the list of its items.
ghost use Rattle.std.specs.Prelude.{◌≡◌, [], ◌∷◌, ◌++◌, ◌<◌, length, slice_get, IsTrue, ◌↔◌};
ghost use Rattle.std.specs.Prelude.{IfOk, OnOk, OnErr, OnSome, MatchOption};
ghost use Rattle.std.specs.Option.{option_copied};

use crate::NoMemory;
use std::alloc::Global;
use std::marker::Model;

/// Items in order. A contract sees the list of them, also where a type holds itself through rows.
#[derive(Debug, Drop)]
pub struct Rows<T> {
    inner: Vec<T>,
}

impl<T> Model for Rows<T> {
    ghost use Rattle.std.specs.Prelude.{List};
    ghost use Rattle.std.specs.Coded.{coded_list};

    ghost Value = { List T };

    ghost coded = { coded_list T.code };

    ghost view = { λ rows. rows.inner.items };
}

impl<T> Rows<T> {
    /// No items yet, and the allocator for those to come.
    pub fn new(alloc: Global) -> Rows<T>
        ensures { result ≡ [] }
    {
        Rows {
            inner: Vec::new(alloc),
        }
    }

    /// The items of a vector, which takes no memory.
    pub fn from_vec(items: Vec<T>) -> Rows<T>
        ensures { result ≡ items.items }
    {
        Rows { inner: items }
    }

    /// The items as a vector, which takes no memory.
    pub fn into_vec(self) -> Vec<T>
        ensures { result.items ≡ self }
    {
        let Rows { inner } = self;
        inner
    }

    /// The values, lent.
    pub fn as_slice(&self) -> &[T]
        ensures { result.now ≡ self.now }
    {
        self.inner.as_slice()
    }

    /// How many values there are.
    pub fn len(&self) -> usize
        ensures { result ≡ length self.now }
    {
        self.inner.len()
    }

    /// Whether there are none.
    pub fn is_empty(&self) -> bool
        ensures { IsTrue result ↔ (self.now ≡ []) }
    {
        self.inner.is_empty()
    }

    /// The value at a place, the first at 0, if there is one.
    pub fn get(&self, at: usize) -> Option<&T>
        ensures value { option_copied result ≡ slice_get self.now at }
        ensures within { OnSome result (at < length self.now) }
    {
        self.inner.get(at)
    }

    /// Takes the last value away, if there is one, and answers it.
    pub fn pop(&mut self) -> Option<T>
        ensures { MatchOption result ((self.old ≡ []) × (self.new ≡ []))
            (λ last. self.old ≡ self.new ++ last ∷ []) }
    {
        self.inner.pop()
    }
}

impl<T: Drop> Rows<T> {
    /// Adds an item at the end.
    pub fn add(&mut self, item: T) -> Result<(), NoMemory>
        ensures ok { OnOk result (self.new ≡ self.old ++ item ∷ []) }
        ensures err { OnErr result (self.new ≡ self.old) }
    {
        self.inner.push(item)?;
        Ok(())
    }
}

impl<T: Copy> Rows<T> {
    /// A copy of the items.
    pub fn of(alloc: Global, items: &[T]) -> Result<Rows<T>, NoMemory>
        ensures { IfOk result (λ rows. rows ≡ items.now) }
    {
        Ok(Rows {
            inner: Vec::from_slice(alloc, items)?,
        })
    }
}

impl<T: PartialEq> PartialEq for Rows<T> {
    ghost use Rattle.std.specs.Cmp.Lexicographic.{pointwise, lists_per};

    ghost eq = { pointwise T.eq };

    ghost laws = { lists_per T.PartialEq.laws };

    fn eq(&self, other: &Rows<T>) -> bool {
        self.as_slice() == other.as_slice()
    }
}

impl<T: Eq> Eq for Rows<T> {
    ghost use Rattle.std.specs.Cmp.Lexicographic.{lists_equiv};

    ghost laws = { lists_equiv T.Eq.laws };
}
