//! What came so far.
ghost use Rattle.std.specs.Prelude.{◌≡◌, List, [], ◌∷◌, ◌++◌};
ghost use Rattle.std.specs.Borrow.{ftrue};

use std::marker::{Model, PhantomData};

/// What came so far, in order. A clause reads it as `items`.
#[derive(Drop)]
pub struct History<A> {
    of: PhantomData<A>,
    pub ghost items: { List A },
}

impl<A> Model for History<A> {
    ghost also_owns = { λ _. ftrue };
}

impl<A> History<A> {
    /// Nothing yet.
    pub fn new() -> History<A>
        ensures { result.items ≡ [] }
    {
        History { of: PhantomData }
    }

    /// With one more.
    pub fn and(&self, item: &A) -> History<A>
        ensures { result.items ≡ self.now.items ++ item.now ∷ [] }
    {
        History { of: PhantomData }
    }

    /// With so many more.
    pub fn and_all(&self, items: &[A]) -> History<A>
        ensures { result.items ≡ self.now.items ++ items.now }
    {
        History { of: PhantomData }
    }
}
