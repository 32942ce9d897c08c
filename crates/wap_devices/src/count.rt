//! How often something came.
ghost use Rattle.std.specs.Prelude.{◌≡◌, ◌+◌, if◌then◌else◌};

use crate::History;
use std::marker::Model;

/// How often something came. It is the length of what came, so it has no bound.
#[derive(Drop)]
pub struct Count {
    each: History<()>,
}

impl Model for Count {
    ghost use Rattle.std.specs.Prelude.{ℕ, length};

    ghost Value = { ℕ };

    ghost view = { λ count. length count.each.items };
}

impl Count {
    /// Never yet.
    pub fn new() -> Count
        ensures { result ≡ 0 }
    {
        Count {
            each: History::new(),
        }
    }

    /// Once more.
    pub fn add(&mut self)
        ensures { self.new ≡ self.old + 1 }
    {
        self.each = self.each.and(&());
    }

    /// Once more, where it came.
    pub fn add_if(&mut self, came: bool)
        ensures { self.new ≡ (if came then self.old + 1 else self.old) }
    {
        if came {
            self.add();
        }
    }
}
