//! Where pages come from.
ghost use Rattle.std.specs.Prelude.{◌≡◌, true, All, Option};
ghost use Rattle.std.specs.Prelude.{IfOk, IsErrOf, IsTrue, ◌↔◌};
ghost use Rattle.std.specs.Option.{option_copied};
ghost use Rattle.std.specs.List.Sorted.{IsPermutation};
ghost use Rattle.wap_base.specs.Texts.{AreAscending, AreDistinct};
ghost use Rattle.wap_base.specs.Contents.{names_of, page_named};
ghost use Rattle.wap_devices.specs.Contents.{answer_for};
ghost use Rattle.wap_devices.specs.Pages.{IsPage, IsSmall};
ghost use Rattle.wap_devices.specs.Stores.{StoreSeen, Held, Fetches, Lists};
ghost use Rattle.wap_devices.specs.Fakes.{StoreState, ArePages, fresh, fails_next};
ghost use Rattle.wap_devices.specs.Fakes.{seen_of_store, after_fetch, after_listing};

use crate::Count;
use crate::calls::Calls;
use std::alloc::{AllocError, AllocFailed, Global};
use std::marker::Model;
use wap_base::{Bytes, NoMemory, RunErr, Text, are_distinct};

/// A page has fewer bytes than this.
pub const PAGE_LIMIT: usize = 1 << 31;

/// What a store answers for a name.
#[derive(Debug, Drop, PartialEq, Eq)]
pub enum Fetched {
    /// The bytes of the page.
    Found(Bytes),
    /// The store has no page of this name.
    Missing,
}

/// Why a store answered no page or no names.
#[derive(Clone, Copy, Debug, PartialEq, Eq)]
pub enum StoreErr {
    /// It comes only where the store's count of faults rose.
    Failed,
    /// Memory ran out.
    NoMemory,
}

impl From<NoMemory> for StoreErr {
    ghost use Rattle.std.specs.Prelude.{◌≡◌};
    ghost use Rattle.wap_devices.specs.declared.store.StoreErr.TheVariants.{NoMemory};

    ghost from_gives = { λ _ fault. fault ≡ NoMemory };

    fn from(_error: NoMemory) -> StoreErr {
        StoreErr::NoMemory
    }
}

impl From<AllocError> for StoreErr {
    ghost use Rattle.std.specs.Prelude.{◌≡◌};
    ghost use Rattle.wap_devices.specs.declared.store.StoreErr.TheVariants.{NoMemory};

    ghost from_gives = { λ _ fault. fault ≡ NoMemory };

    fn from(_error: AllocError) -> StoreErr {
        StoreErr::NoMemory
    }
}

impl<T: Drop> From<AllocFailed<T>> for StoreErr {
    ghost use Rattle.std.specs.Prelude.{◌≡◌};
    ghost use Rattle.wap_devices.specs.declared.store.StoreErr.TheVariants.{NoMemory};

    ghost from_gives = { λ _ fault. fault ≡ NoMemory };

    fn from(_error: AllocFailed<T>) -> StoreErr {
        StoreErr::NoMemory
    }
}

impl From<StoreErr> for RunErr {
    ghost use Rattle.std.specs.Prelude.{◌≡◌};
    ghost use Rattle.wap_devices.specs.Faults.{run_fault};

    ghost from_gives = { λ fault answer. answer ≡ run_fault fault };

    fn from(fault: StoreErr) -> RunErr {
        match fault {
            StoreErr::Failed => RunErr::Store,
            StoreErr::NoMemory => RunErr::NoMemory,
        }
    }
}

/// A store of pages by their names, which may fail. What it answers is that of the same pages
/// each time, or of none.
pub trait Store {
    /// What a contract sees of it.
    ghost seen: { Self → StoreSeen };

    /// The page of a name.
    fn fetch(&mut self, name: &Text) -> Result<Fetched, StoreErr>
        ensures { Fetches name.now (seen self.old) (seen self.new) result };

    /// The names of all pages, in the order of their UTF-8 bytes.
    fn list(&mut self) -> Result<Vec<Text>, StoreErr>
        ensures { Lists (λ names. names.items) (seen self.old) (seen self.new) result };
}

/// A store in memory.
#[derive(Drop)]
pub struct MemStore {
    pages: Vec<(Text, Bytes)>,
    calls: Calls,
    fetches: Count,
    listings: Count,
}

impl Model for MemStore {
    ghost use Rattle.std.specs.Prelude.{All};
    ghost use Rattle.wap_base.specs.Texts.{AreDistinct};
    ghost use Rattle.wap_base.specs.Contents.{names_of};
    ghost use Rattle.wap_devices.specs.Fakes.{StoreState, ArePages};

    ghost Value = { StoreState };

    ghost view = { λ store. record {
      pages = store.pages.items;
      calls = store.calls;
      fetches = store.fetches;
      listings = store.listings;
    } };

    ghost invariant = { λ store. ArePages store.pages.items };
}

impl MemStore {
    /// A store of these pages. `fail` has the numbers, from 1, of the calls that fail, those that
    /// ask for a page and those that ask for the names in one row.
    pub fn new(pages: Vec<(Text, Bytes)>, fail: Vec<u64>) -> MemStore
        requires { ArePages pages.items }
        ensures holds { result
            ≡ record { pages = pages.items; calls = fresh fail.items; fetches = 0; listings = 0 } }
        ensures known { (⟦<MemStore as Store>⟧.seen result).known ≡ Held pages.items }
    {
        MemStore {
            pages,
            calls: Calls::new(fail),
            fetches: Count::new(),
            listings: Count::new(),
        }
    }
}

/// Whether each page has fewer bytes than the limit.
fn are_small(pages: &[(Text, Bytes)]) -> bool
    ensures { IsTrue result ↔ All (λ page. IsPage page.1) pages.now }
{
    pages.iter().all(|page| page.1.len() < PAGE_LIMIT)
}

/// Whether a store in memory may hold these pages: no name stands twice, and each page has fewer
/// bytes than the limit.
pub fn are_pages(alloc: Global, pages: &[(Text, Bytes)]) -> Result<bool, NoMemory>
    ensures { IfOk result (λ fit. IsTrue fit ↔ ArePages pages.now) }
{
    let distinct = are_distinct(names(alloc, pages)?);
    Ok(distinct && are_small(pages))
}

/// The page of a name.
fn find<'a>(pages: &'a [(Text, Bytes)], name: &Text) -> Option<&'a Bytes>
    ensures { option_copied result ≡ page_named name.now pages.now }
{
    for (page_name, bytes) in pages {
        if page_name == name {
            return Some(bytes);
        }
    }
    None
}

/// What a store with these pages answers for a name: a copy of the page.
fn answer(alloc: Global, pages: &[(Text, Bytes)], name: &Text) -> Result<Fetched, NoMemory>
    requires { All (λ page. IsPage page.1) pages.now }
    ensures found { IfOk result (λ answer. answer ≡ answer_for name.now pages.now) }
    ensures small { IfOk result IsSmall }
{
    let Some(bytes) = find(pages, name) else {
        return Ok(Fetched::Missing);
    };
    Ok(Fetched::Found(Bytes::of(alloc, bytes.as_slice())?))
}

/// A copy of each name, in order.
fn names(alloc: Global, pages: &[(Text, Bytes)]) -> Result<Vec<Text>, NoMemory>
    ensures { IfOk result (λ names. names.items ≡ names_of pages.now) }
{
    let mut names = Vec::new(alloc);
    for (name, _) in pages {
        names.push(name.copy(alloc)?)?;
    }
    Ok(names)
}

/// A copy of each name, in the order of their UTF-8 bytes.
fn sorted_names(alloc: Global, pages: &[(Text, Bytes)]) -> Result<Vec<Text>, NoMemory>
    requires { AreDistinct (names_of pages.now) }
    ensures ascending { IfOk result (λ names. AreAscending names.items) }
    ensures names { IfOk result (λ names. IsPermutation (names_of pages.now) names.items) }
{
    let mut names = names(alloc, pages)?;
    names.sort()?;
    Ok(names)
}

impl Store for MemStore {
    ghost seen = { λ store. seen_of_store store };

    fn fetch(&mut self, name: &Text) -> Result<Fetched, StoreErr>
        ensures fetches { Fetches name.now (seen_of_store self.old) (seen_of_store self.new)
            result }
        ensures found { IfOk result (λ answer. answer ≡ answer_for name.now self.old.pages) }
        ensures failed { IsErrOf result StoreErr.Failed ↔ (fails_next self.old.calls ≡ true) }
        ensures after { self.new ≡ after_fetch self.old }
    {
        self.fetches.add();
        let failed = self.calls.fails_next();
        self.calls.count(failed);
        if failed {
            return Err(StoreErr::Failed);
        }
        Ok(answer(*self.pages.allocator(), self.pages.as_slice(), name)?)
    }

    fn list(&mut self) -> Result<Vec<Text>, StoreErr>
        ensures lists { Lists (λ names. names.items) (seen_of_store self.old)
            (seen_of_store self.new) result }
        ensures failed { IsErrOf result StoreErr.Failed ↔ (fails_next self.old.calls ≡ true) }
        ensures after { self.new ≡ after_listing self.old }
    {
        self.listings.add();
        let failed = self.calls.fails_next();
        self.calls.count(failed);
        if failed {
            return Err(StoreErr::Failed);
        }
        Ok(sorted_names(*self.pages.allocator(), self.pages.as_slice())?)
    }
}
