//! `Inbox`, a map from identifiers to the indications that count.
ghost use Rattle.std.specs.Prelude.{◌≡◌, List, [], ◌∷◌, ◌++◌, find, length, map, true};
ghost use Rattle.std.specs.Prelude.{IsTrue, ◌↔◌, IfOk, IfErr, OnOk, OnErr};
ghost use Rattle.std.specs.Option.{option_copied};
ghost use Rattle.std.specs.Map.{values_of};
ghost use Rattle.wap_push.specs.declared.indication.Indication.{Indication};
ghost use Rattle.wap_push.specs.Inbox.{is_of, alerts, is_kept, inbox_of, entry_at, HaveWinners};
ghost use Rattle.wap_push.specs.Inbox.{IsAlert};
ghost use Rattle.wap_push.specs.inside.Keyed.{loses};

use crate::{Action, Indication};
use std::alloc::Global;
use std::collections::BTreeMap;
use std::marker::Model;
use wap_base::{NoMemory, Text};

/// The indications that were pushed and count. A contract sees the winner of each identifier, also
/// where that is a delete, in ascending order of identifiers.
#[derive(Drop)]
pub struct Inbox {
    alloc: Global,
    winners: BTreeMap<Text, Indication>,
}

impl Model for Inbox {
    ghost use Rattle.std.specs.Prelude.{List};
    ghost use Rattle.std.specs.Map.{values_of};
    ghost use Rattle.wap_push.specs.declared.indication.Indication.{Indication};
    ghost use Rattle.wap_push.specs.inside.Keyed.{AreKeyed};

    ghost Value = { List Indication };

    ghost view = { λ inbox. values_of inbox.winners.entries };

    ghost invariant = { λ inbox. AreKeyed inbox.winners.entries };
}

/// Whether an indication that is to be met like this is shown when it comes.
fn alerts(action: Action) -> bool
    ensures { result ≡ alerts action }
{
    match action {
        Action::Low | Action::Medium | Action::High => true,
        Action::Quiet | Action::Delete => false,
    }
}

/// Whether an inbox has an indication where it wins.
fn is_kept(winner: &Indication) -> bool
    ensures { result ≡ is_kept winner.now }
{
    match winner.action {
        Action::Quiet | Action::Low | Action::Medium | Action::High => true,
        Action::Delete => false,
    }
}

impl Inbox {
    /// An inbox before the first push, and the allocator for what is to come.
    pub fn new(alloc: Global) -> Inbox
        ensures winners { result ≡ [] }
        ensures pushes { HaveWinners [] result }
    {
        Inbox {
            alloc,
            winners: BTreeMap::new(alloc),
        }
    }

    /// Whether a kept indication of the same identifier was made later.
    fn is_late(&self, pushed: &Indication) -> bool
        ensures { result ≡ loses pushed.now (find (is_of pushed.now.id) self.now) }
    {
        match self.winners.get(&pushed.id) {
            Some(winner) => pushed.created < winner.created,
            None => false,
        }
    }

    /// Takes an indication, and says whether it is to be shown now. When out of memory the
    /// indication is handed back.
    pub fn put(&mut self, pushed: Indication) -> Result<bool, (Indication, NoMemory)>
        ensures taken { OnOk result ((pushes : List Indication) → HaveWinners pushes self.old
            → HaveWinners (pushes ++ pushed ∷ []) self.new) }
        ensures alert { IfOk result (λ alert. (pushes : List Indication)
            → HaveWinners pushes self.old
            → IsTrue alert ↔ IsAlert (pushes ++ pushed ∷ []) pushed) }
        ensures kept { OnErr result (self.new ≡ self.old) }
        ensures back { IfErr result (λ back. back.0 ≡ pushed) }
    {
        if self.is_late(&pushed) {
            return Ok(false);
        }
        let alert = alerts(pushed.action);
        let id = match pushed.id.copy(self.alloc) {
            Ok(id) => id,
            Err(_) => return Err((pushed, NoMemory)),
        };
        match self.winners.insert(id, pushed) {
            Ok(_) => Ok(alert),
            Err(failed) => Err((failed.value.1, NoMemory)),
        }
    }

    /// The entry of this number, the first being 1, in order of identifiers. It passes over those
    /// before.
    pub fn item(&self, number: usize) -> Option<&Indication>
        ensures { option_copied result ≡ entry_at (inbox_of self.now) number }
    {
        let mut left = number;
        for winner in self.winners.values() {
            if is_kept(winner) {
                if left == 1 {
                    return Some(winner);
                }
                left = left.saturating_sub(1);
            }
        }
        None
    }

    /// How many entries there are.
    pub fn count(&self) -> usize
        ensures { result ≡ length (inbox_of self.now) }
    {
        let mut left = self.winners.len();
        for winner in self.winners.values() {
            if !is_kept(winner) {
                left = left.saturating_sub(1);
            }
        }
        left
    }
    /// All entries in order of identifiers, in one pass.
    pub fn entries(&self) -> Result<Vec<&Indication>, NoMemory>
        ensures { IfOk result (λ entries. map (λ entry. entry.now) entries.items
            ≡ inbox_of self.now) }
    {
        let mut entries = Vec::new(self.alloc);
        for winner in self.winners.values() {
            if is_kept(winner) {
                entries.push(winner)?;
            }
        }
        Ok(entries)
    }
}
