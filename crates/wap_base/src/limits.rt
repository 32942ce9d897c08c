//! Limits that may be chosen for a run.
ghost use Rattle.std.specs.Prelude.{IsTrue, ◌↔◌};
ghost use Rattle.wap_base.specs.Limits.{AreInRange, default_limits};

/// How many bytes of UTF-8 a String has at most, where nothing else is chosen.
pub const DEFAULT_STRING: u32 = 65_535;

/// The least such limit that may be chosen.
pub const LEAST_STRING: u32 = 65_535;

/// The greatest such limit that may be chosen.
pub const MOST_STRING: u32 = 1_048_575;

/// How many entries the history has at most, where nothing else is chosen.
pub const DEFAULT_HISTORY: u8 = 64;

/// The least such limit that may be chosen.
pub const LEAST_HISTORY: u8 = 10;

/// The greatest such limit that may be chosen.
pub const MOST_HISTORY: u8 = 255;

/// How many functions are at work at a time at most, where nothing else is chosen.
pub const DEFAULT_DEPTH: u8 = 64;

/// The least such limit that may be chosen.
pub const LEAST_DEPTH: u8 = 8;

/// The greatest such limit that may be chosen.
pub const MOST_DEPTH: u8 = 255;

/// The limits of a run.
#[derive(Clone, Copy, Debug, PartialEq, Eq)]
pub struct Limits {
    /// The most bytes of UTF-8 in a String.
    pub string: u32,
    /// The most entries of the history.
    pub history: u8,
    /// The most functions that are at work at a time.
    pub depth: u8,
}

impl Limits {
    /// Whether each limit is one that may be chosen.
    pub fn are_in_range(&self) -> bool
        ensures { IsTrue result ↔ AreInRange self.now }
    {
        (LEAST_STRING..=MOST_STRING).contains(&self.string)
            && (LEAST_HISTORY..=MOST_HISTORY).contains(&self.history)
            && (LEAST_DEPTH..=MOST_DEPTH).contains(&self.depth)
    }
}

impl Default for Limits {
    ghost use Rattle.std.specs.Prelude.{◌≡◌};
    ghost use Rattle.wap_base.specs.Limits.{default_limits, AreInRange};

    ghost is_default = { λ limits. (limits ≡ default_limits) × AreInRange limits };

    fn default() -> Limits {
        Limits {
            string: DEFAULT_STRING,
            history: DEFAULT_HISTORY,
            depth: DEFAULT_DEPTH,
        }
    }
}
