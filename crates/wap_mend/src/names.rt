//! Ids of cards and names of dos that are taken.
ghost use Rattle.std.specs.Prelude.{◌≡◌, [], ◌∷◌, false, true, IfOk, IfSome, MatchOption, OnOk};
ghost use Rattle.std.specs.List.{list_any};
ghost use Rattle.indexmap.specs.IndexSet.{insert_key};
ghost use Rattle.wap_base.specs.Texts.{is_same_text};
ghost use Rattle.wap_mend.specs.inside.Names.{Takes};

use indexmap::IndexMap;
use std::alloc::Global;
use std::marker::Model;
use wap_base::{NoMemory, Text};

/// The texts that are taken, each with the number that is tried next behind it. A contract sees
/// the texts.
#[derive(Drop)]
pub(crate) struct Names {
    next: IndexMap<Text, u64>,
}

impl Model for Names {
    ghost use Rattle.std.specs.Prelude.{List, ℕ};
    ghost use Rattle.indexmap.specs.IndexMap.{keys};

    ghost Value = { List (List ℕ) };

    ghost view = { λ names. keys names.next };
}

/// A text, a hyphen and a number.
fn numbered(alloc: Global, text: &Text, number: u64) -> Result<Text, NoMemory> {
    let mut name = text.copy(alloc)?;
    name.add("-")?;
    name.add_number(number)?;
    Ok(name)
}

impl Names {
    /// None yet.
    pub(crate) fn new(alloc: Global) -> Names
        ensures { result ≡ [] }
    {
        Names {
            next: IndexMap::new(alloc),
        }
    }

    /// Whether a text is taken.
    fn has(&self, text: &Text) -> bool
        ensures { result ≡ list_any (is_same_text text.now) self.now }
    {
        self.next.contains_key(text)
    }

    /// Keeps a text with the number that is tried next.
    fn keep(&mut self, text: Text, number: u64) -> Result<(), NoMemory>
        ensures { OnOk result (self.new ≡ insert_key is_same_text self.old text) }
    {
        match self.next.insert(text, number) {
            Ok(_) => Ok(()),
            Err(_) => Err(NoMemory),
        }
    }

    /// Takes a text. The answer is whether it is taken already.
    pub(crate) fn take(&mut self, alloc: Global, text: &Text) -> Result<bool, NoMemory>
        ensures already { IfOk result (λ already.
            already ≡ list_any (is_same_text text.now) self.old) }
        ensures same { IfOk result (λ already. already ≡ true → self.new ≡ self.old) }
        ensures taken { IfOk result (λ already. already ≡ false
            → Takes self.old self.new [] (text.now ∷ [])) }
    {
        if self.has(text) {
            return Ok(true);
        }
        self.keep(text.copy(alloc)?, 2)?;
        Ok(false)
    }

    /// The number that is tried next behind a text.
    fn next_of(&self, text: &Text) -> u64 {
        match self.next.get(text) {
            Some(number) => *number,
            None => 2,
        }
    }

    /// Takes a text that isn't taken: one that is, with a hyphen and a number behind it.
    pub(crate) fn take_other(
        &mut self,
        alloc: Global,
        text: &Text,
    ) -> Result<Option<Text>, NoMemory>
        ensures free { IfOk result (λ found. IfSome found (λ other.
            list_any (is_same_text other) self.old ≡ false)) }
        ensures taken { IfOk result (λ found. MatchOption found (Takes self.old self.new [] [])
            (λ other. Takes self.old self.new [] (other ∷ []))) }
    {
        let first = self.next_of(text);
        let tries = self.next.len() as u64;
        for number in first..first.saturating_add(tries).saturating_add(1) {
            let other = numbered(alloc, text, number)?;
            if !self.has(&other) {
                self.keep(text.copy(alloc)?, number.saturating_add(1))?;
                self.keep(other.copy(alloc)?, 2)?;
                return Ok(Some(other));
            }
        }
        Ok(None)
    }
}
