//! The history (WAP-191, section 9.2).
ghost use Rattle.std.specs.Prelude.{◌≡◌, ◌≤◌, ◌<◌, ◌-◌, nat_lt, if◌then◌else◌, [], ◌∷◌, ◌++◌};
ghost use Rattle.std.specs.Prelude.{length, map, take, drop, slice_get, vec_len, vec_capacity};
ghost use Rattle.std.specs.Prelude.{None, IfSome, IfOk, OnOk, OnErr};
ghost use Rattle.std.specs.List.{last_or, AllByRecursion};
ghost use Rattle.std.specs.Option.{option_map, option_copied, option_to_list};
ghost use Rattle.wap_state.specs.page_urls.PageUrls.{IsPageUrl, IsPageEntry};
ghost use Rattle.wap_world.specs.declared.timer.Timer.TheVariants.{NotStarted};
ghost use Rattle.wap_world.specs.World.{last_entry};
ghost use Rattle.wap_world.specs.History.{pushed, earlier_entry, all_but_last, back_at};
ghost use Rattle.wap_state.specs.Saved.{saved_entry};

use crate::page_urls::PageEntry;
use crate::state::State;
use std::alloc::Global;
use std::marker::Model;
use wap_base::{NoMemory, Rows, Text};
use wap_url::{Url, print};
use wap_world::Timer;

/// The rules that entries keep. It does nothing.
fn keep_entries(entries: &[PageEntry])
    ensures { AllByRecursion IsPageEntry entries.now }
{
    for entry in entries {
        entry.keep_rules();
    }
}

/// An entry as it is saved: its URL as it is written, and the number of its card.
fn saved_entry(alloc: Global, entry: &PageEntry) -> Result<(Text, usize), NoMemory>
    ensures { IfOk result (λ part. part ≡ saved_entry entry.now) }
{
    Ok((print(alloc, entry.url())?, entry.card()))
}

/// The same of several, in order.
fn saved_entries(alloc: Global, entries: &[PageEntry]) -> Result<Rows<(Text, usize)>, NoMemory>
    ensures { IfOk result (λ saved. saved ≡ map saved_entry entries.now) }
{
    let mut saved = Rows::new(alloc);
    for entry in entries {
        saved.add(saved_entry(alloc, entry)?)?;
    }
    Ok(saved)
}

/// Drops the last entry, if there is one.
fn drop_last(entries: &mut Vec<PageEntry>)
    ensures rest { entries.new.items ≡ all_but_last entries.old.items }
    ensures fewer { vec_len entries.new ≤ vec_len entries.old }
    ensures room { vec_capacity entries.new ≡ vec_capacity entries.old }
{
    let count = entries.len();
    entries.truncate(count.saturating_sub(1));
}

/// Drops the first entry where there are so many.
fn make_room(entries: &mut Vec<PageEntry>, limit: u8)
    ensures kept { entries.new.items ≡ (if nat_lt (length entries.old.items) limit
        then entries.old.items else drop 1 entries.old.items) }
    ensures fewer { vec_len entries.new ≤ vec_len entries.old }
    ensures room { vec_capacity entries.new ≡ vec_capacity entries.old }
{
    if entries.len() >= usize::from(limit) && !entries.is_empty() {
        let _first = entries.remove(0);
    }
}

/// Adds an entry for which there is room.
fn add(entries: &mut Vec<PageEntry>, entry: PageEntry)
    requires { vec_len entries.old < vec_capacity entries.old }
    ensures { entries.new.items ≡ entries.old.items ++ entry ∷ [] }
{
    match entries.push(entry) {
        Ok(()) => (),
        Err(_) => unreachable!(),
    }
}

/// Entries in order. A contract sees the list of them.
#[derive(Drop)]
pub struct History {
    entries: Vec<PageEntry>,
}

impl Model for History {
    ghost use Rattle.std.specs.Prelude.{List};
    ghost use Rattle.wap_world.specs.declared.history.Entry.{Entry};

    ghost Value = { List Entry };

    ghost view = { λ history. history.entries.items };
}

impl History {
    /// No entry yet, and the allocator for those to come.
    pub fn new(alloc: Global) -> History
        ensures { result ≡ [] }
    {
        History {
            entries: Vec::new(alloc),
        }
    }

    /// The rules that each entry keeps, for those who rest a proof on them. It does nothing.
    pub fn keep_rules(&self)
        ensures { AllByRecursion IsPageEntry self.now }
    {
        keep_entries(&self.entries);
    }

    /// The entries as they are saved: each URL as it is written, and the number of the card.
    pub(crate) fn saved(&self, alloc: Global) -> Result<Rows<(Text, usize)>, NoMemory>
        ensures { IfOk result (λ entries. entries ≡ map saved_entry self.now) }
    {
        saved_entries(alloc, &self.entries)
    }

    /// How many entries there are, the current card's among them.
    pub fn len(&self) -> usize
        ensures { result ≡ length self.now }
    {
        self.entries.len()
    }

    /// The entry of a number, from 0.
    pub fn get(&self, at: usize) -> Option<&PageEntry>
        ensures { option_copied result ≡ slice_get self.now at }
    {
        self.entries.get(at)
    }

    /// Adds an entry at the end. Where there are so many, the first one is dropped.
    pub fn push(&mut self, entry: PageEntry, limit: u8) -> Result<(), NoMemory>
        ensures pushed { OnOk result (self.new ≡ (if nat_lt (length self.old) limit then self.old
            else drop 1 self.old) ++ entry ∷ []) }
        ensures same { OnErr result (self.new ≡ self.old) }
    {
        self.entries.reserve(1)?;
        make_room(&mut self.entries, limit);
        add(&mut self.entries, entry);
        Ok(())
    }

    /// Puts an entry in place of the last one.
    pub fn set_last(&mut self, last: PageEntry) -> Result<(), NoMemory>
        ensures last { OnOk result (self.new ≡ all_but_last self.old ++ last ∷ []) }
        ensures same { OnErr result (self.new ≡ self.old) }
    {
        self.entries.reserve(1)?;
        drop_last(&mut self.entries);
        add(&mut self.entries, last);
        Ok(())
    }

    /// Drops the last entry, and puts this in place of the one before it.
    pub fn go_back(&mut self, earlier: PageEntry) -> Result<(), NoMemory>
        ensures back { OnOk result
            (self.new ≡ all_but_last (all_but_last self.old) ++ earlier ∷ []) }
        ensures same { OnErr result (self.new ≡ self.old) }
    {
        self.entries.reserve(1)?;
        drop_last(&mut self.entries);
        drop_last(&mut self.entries);
        add(&mut self.entries, earlier);
        Ok(())
    }

    /// Drops every entry but the last.
    pub fn keep_last(&mut self)
        ensures { self.new ≡ option_to_list (last_or None self.old) }
    {
        if let Some(last) = self.entries.pop() {
            self.entries.clear();
            add(&mut self.entries, last);
        }
    }

    /// Drops every entry.
    pub fn clear(&mut self)
        ensures { self.new ≡ [] }
    {
        self.entries.clear();
    }
}

impl State {
    /// The current entry.
    pub fn last(&self) -> Option<&PageEntry>
        ensures { option_copied result ≡ last_entry self.now }
    {
        self.history.get(self.history.len().saturating_sub(1))
    }

    /// The number of the current card.
    pub fn card_number(&self) -> Option<usize>
        ensures { result ≡ option_map (λ entry. entry.card) (last_entry self.now) }
    {
        match self.last() {
            Some(entry) => Some(entry.card()),
            None => None,
        }
    }

    /// A copy of the current deck's URL.
    pub fn deck_url(&self, alloc: Global) -> Result<Option<Url>, NoMemory>
        ensures is { IfOk result
            (λ url. url ≡ option_map (λ entry. entry.url) (last_entry self.now)) }
        ensures page { IfOk result (λ url. IfSome url IsPageUrl) }
        ensures whole { IfOk result (λ url. IfSome url (λ url. url.fragment ≡ None)) }
    {
        match self.last() {
            Some(entry) => {
                entry.keep_rules();
                Ok(Some(entry.url().copy(alloc)?))
            }
            None => Ok(None),
        }
    }

    /// A copy of the entry before the current one.
    pub fn earlier(&self, alloc: Global) -> Result<Option<PageEntry>, NoMemory>
        ensures { IfOk result (λ entry. entry ≡ earlier_entry self.now) }
    {
        let count = self.history.len();
        if count < 2 {
            return Ok(None);
        }
        match self.history.get(count - 2) {
            Some(entry) => Ok(Some(entry.copy(alloc)?)),
            None => Ok(None),
        }
    }

    /// Takes one entry more. A full history loses its oldest.
    pub fn push(&mut self, entry: PageEntry) -> Result<(), NoMemory>
        ensures pushed { OnOk result (self.new ≡ pushed self.old entry) }
        ensures same { OnErr result (self.new ≡ self.old) }
    {
        self.history.push(entry, self.limits.history)
    }

    /// Drops the last entry, and puts this in place of the one before it.
    pub fn go_back(&mut self, earlier: PageEntry) -> Result<(), NoMemory>
        ensures back { OnOk result (self.new ≡ back_at self.old earlier) }
        ensures same { OnErr result (self.new ≡ self.old) }
    {
        self.history.go_back(earlier)
    }

    /// Puts an entry in place of the last one.
    pub fn set_last(&mut self, last: PageEntry) -> Result<(), NoMemory>
        ensures last { OnOk result (self.new ≡ record self.old {
          history = all_but_last self.old.history ++ last ∷ [];
        }) }
        ensures same { OnErr result (self.new ≡ self.old) }
    {
        self.history.set_last(last)
    }

    /// Clears variables and history. Without a card no timer is started.
    #[tactic(auto, using(crate::proofs::Keeping::keeps_none))]
    pub fn clear(&mut self)
        ensures { self.new ≡ record self.old { vars = []; history = []; timer = NotStarted } }
    {
        self.vars.clear();
        self.history.clear();
        self.timer = Timer::NotStarted;
    }

    /// Clears the variables, and the history but for the current card.
    #[tactic(auto, using(crate::proofs::Keeping::keeps_alone))]
    pub fn new_context(&mut self)
        ensures { self.new ≡ record self.old {
          vars = [];
          history = option_to_list (last_entry self.old);
        } }
    {
        self.vars.clear();
        self.history.keep_last();
    }
}
