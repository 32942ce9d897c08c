//! The generator of random numbers.
ghost use Rattle.std.specs.Prelude.{◌≡◌, ◌<◌};
ghost use Rattle.std.specs.Fn.{iterate};

use rand_core::SeedableRng;
use rand_core::utils::NextWord;
use rand_pcg::Pcg32;
use std::marker::Model;

/// A session's generator of random numbers. It keeps the session's seed, the seed from which it
/// started last and how many words were drawn since, so that its place can be named and found
/// again.
#[derive(Drop)]
pub struct Gen {
    seed: u32,
    start: u32,
    drawn: u64,
    words: Pcg32,
}

impl Model for Gen {
    ghost use Rattle.wap_libs.specs.Generator.{Generator, generator_of, KeepsCount};

    ghost Value = { Generator };

    ghost view = { λ it. generator_of it.seed it.start it.drawn it.words };

    ghost invariant = { λ it. KeepsCount (generator_of it.seed it.start it.drawn it.words) };
}

impl Gen {
    ghost use Rattle.wap_libs.specs.Generator.{started_from, next_word, after_word, most_drawn};

    /// The generator of a session with this seed, from which it starts.
    pub fn new(seed: u32) -> Gen
        ensures { result ≡ started_from seed seed }
    {
        Gen::start_from(seed, seed)
    }

    /// The generator of a session with this seed, after so many words since it last started, from
    /// `start`. The time grows with the logarithm of the number of words.
    pub fn at(seed: u32, start: u32, drawn: u64) -> Gen
        requires { drawn < most_drawn }
        ensures { result ≡ iterate after_word drawn (started_from seed start) }
    {
        let mut placed = Gen::start_from(seed, start);
        placed.words.advance(drawn);
        placed.drawn = drawn;
        placed
    }

    /// The session's seed.
    pub fn seed(&self) -> u32
        ensures { result ≡ self.now.seed }
    {
        self.seed
    }

    /// Where the generator is: the seed from which it started last, and how many words were drawn
    /// since. This number stays where it is once it has come to the greatest `u64`.
    pub fn place(&self) -> (u32, u64)
        ensures place { result ≡ (self.now.start, self.now.drawn) }
        ensures named { self.now.drawn < most_drawn → self.now
            ≡ iterate after_word self.now.drawn (started_from self.now.seed self.now.start) }
    {
        (self.start, self.drawn)
    }

    /// Starts anew, from the session's seed.
    pub(crate) fn restart(&mut self)
        ensures { self.new ≡ started_from self.old.seed self.old.seed }
    {
        *self = Gen::start_from(self.seed, self.seed);
    }

    /// Starts anew, from another seed.
    pub(crate) fn restart_from(&mut self, start: u32)
        ensures { self.new ≡ started_from self.old.seed start }
    {
        *self = Gen::start_from(self.seed, start);
    }

    /// Draws the next word.
    pub(crate) fn next_word(&mut self) -> u32
        ensures word { result ≡ next_word self.old }
        ensures after { self.new ≡ after_word self.old }
    {
        let word = self.words.next_word();
        self.drawn = self.drawn.saturating_add(1);
        word
    }

    fn start_from(seed: u32, start: u32) -> Gen
        ensures { result ≡ started_from seed start }
    {
        Gen {
            seed,
            start,
            drawn: 0,
            words: Pcg32::seed_from_u64(u64::from(start)),
        }
    }
}
