//! Counting what was played.

/// How many lines or cases were played, and how many of them differ.
#[derive(Clone, Copy, Default)]
pub struct Tally {
    pub played: u64,
    pub differing: u64,
}

impl Tally {
    /// Counts what was played.
    pub fn count(&mut self, differs: bool) {
        self.played = self.played.saturating_add(1);
        if differs {
            self.differing = self.differing.saturating_add(1);
        }
    }
}
