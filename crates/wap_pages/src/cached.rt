//! A cache of judged pages.
ghost use Rattle.std.specs.Prelude.{◌≡◌, ◌≤◌, [], ◌∷◌, IfOk, OnOk, IfErr, OnErr};
ghost use Rattle.std.specs.Prelude.{IsErrOf};
ghost use Rattle.lru.specs.LruCache.{lru_cache, promoted};
ghost use Rattle.std.specs.Map.{lookup};
ghost use Rattle.wap_base.specs.Texts.{is_same_text};
ghost use Rattle.wap_devices.specs.Stores.{Known};
ghost use Rattle.wap_world.specs.site.Pages.{Pages as JudgedPages, page_of, AreSitePages};
ghost use Rattle.wap_world.specs.site.Asking.{MayBe, Stays, Asks, Fails};
ghost use Rattle.wap_pages.specs.Caches.{cache_of, seen_over, KeepsNoMore};
ghost use Rattle.wap_pages.specs.inside.Keeping.{IsRight, IsSound};
ghost use Rattle.wap_pages.specs.inside.Keeping.{LooksUp, Keeps, AsksStore};

use crate::{PageErr, judge};
use lru::LruCache;
use std::alloc::Global;
use std::marker::Model;
use std::num::NonZeroUsize;
use wap_base::{NoMemory, RunErr, Text};
use wap_devices::{Fetched, Store};
use wap_world::site::{Page, Pages};

/// The least capacity of a cache, in pages.
pub const LEAST_CAPACITY: usize = 1;

/// The greatest capacity of a cache, in pages.
pub const MOST_CAPACITY: usize = 256;

/// The pages of a store, judged, of which those that were asked for last are kept, also where one
/// is missing or refused.
#[derive(Drop)]
pub struct Cached<S: Store> {
    store: S,
    kept: LruCache<Text, Page>,
}

impl<S: Store> Model for Cached<S> {
    ghost use Rattle.wap_tokens.specs.contracts.markup.deck.Item as item;
    ghost use Rattle.std.specs.Coded.{codes};
    ghost use Rattle.wap_pages.specs.Caches.{CachedPages};
    ghost use Rattle.wap_pages.specs.inside.Keeping.{IsSound};

    ghost Value = { CachedPages S };

    ghost coded = { Prim.hlevel (codes, item.the_row.coded, S.code) };

    ghost view = { λ cached.
        record { store = cached.store; kept = cached.kept.entries; capacity = cached.kept.cap } };

    ghost invariant = { λ cached. IsSound (S.seen cached.store).known cached.kept };
}

impl<S: Store> Cached<S> {
    /// The pages of a store, of which as many are kept as the capacity says. When out of memory the
    /// store comes back.
    pub fn new(alloc: Global, store: S, capacity: usize) -> Result<Cached<S>, (S, NoMemory)>
        requires some { LEAST_CAPACITY ≤ capacity }
        requires few { capacity ≤ MOST_CAPACITY }
        ensures store { IfOk result (λ cached. cached.store ≡ store) }
        ensures kept { IfOk result (λ cached. cached.kept ≡ []) }
        ensures capacity { IfOk result (λ cached. cached.capacity ≡ capacity) }
        ensures back { IfErr result (λ refused. refused.0 ≡ store) }
    {
        let Some(most) = NonZeroUsize::new(capacity) else {
            unreachable!();
        };
        match LruCache::new(alloc, most) {
            Ok(kept) => Ok(Cached { store, kept }),
            Err(_) => Err((store, NoMemory)),
        }
    }

    /// Gives the store back; the pages that are kept go.
    pub fn into_store(self) -> S
        ensures { result ≡ self.store }
    {
        let Cached { store, kept: _ } = self;
        store
    }
}

/// The page that is kept under a name, if one is; it goes first.
fn recall(kept: &mut LruCache<Text, Page>, name: &Text) -> Result<Option<Page>, NoMemory>
    ensures found { IfOk result (λ page. page ≡ lookup (is_same_text name.now) kept.old.entries) }
    ensures first { kept.new ≡ lru_cache (promoted (is_same_text name.now) kept.old.entries)
        kept.old.cap }
{
    match kept.get(name) {
        Some(page) => Ok(Some(page.share()?)),
        None => Ok(None),
    }
}

/// The page that is kept under a name, if one is, which goes first; none where it has to be fetched
/// anew.
fn look_up(
    kept: &mut LruCache<Text, Page>,
    name: &Text,
    fresh: bool,
) -> Result<Option<Page>, NoMemory>
    ensures { (known : Known) → IsSound known kept.old
        → LooksUp known (name.now, fresh) kept.old kept.new result }
{
    if fresh {
        return Ok(None);
    }
    recall(kept, name)
}

/// Keeps the page of a name, in place of one that is kept under it, or of the last where there are
/// too many.
fn keep(
    alloc: Global,
    kept: &mut LruCache<Text, Page>,
    name: &Text,
    page: &Page,
) -> Result<(), NoMemory>
    ensures { (known : Known) → IsSound known kept.old → IsRight known name.now page.now
        → Keeps known name.now kept.old kept.new result }
{
    let name = name.copy(alloc)?;
    let page = page.share()?;
    kept.put(name, page)?;
    Ok(())
}

/// The page of a name, from the store.
#[tactic(auto, using(crate::proofs::Fetching::grew_asked))]
fn fetch<S: Store>(alloc: Global, store: &mut S, name: &Text) -> Result<Page, RunErr>
    ensures found { IfOk result (IsRight (S.seen store.new).known name.now) }
    ensures asks { AsksStore (S.seen store.old) (S.seen store.new) result }
{
    match store.fetch(name) {
        Ok(Fetched::Found(bytes)) => match judge(alloc, name, bytes.as_slice()) {
            Ok(page) => Ok(page),
            Err(PageErr::Refused(_)) => Ok(Page::Refused),
            Err(PageErr::NoMemory) => Err(RunErr::NoMemory),
        },
        Ok(Fetched::Missing) => Ok(Page::Missing),
        Err(fault) => Err(RunErr::from(fault)),
    }
}

impl<S: Store> Pages for Cached<S> {
    ghost seen = { λ cached. seen_over (S.seen cached.store) (cache_of cached) };

    fn page(&mut self, alloc: Global, name: &Text, fresh: bool) -> Result<Page, RunErr>
        ensures found { IfOk result (λ page. (pages : JudgedPages)
            → MayBe (⟦<Cached<S> as Pages>⟧.seen self.new) pages → page ≡ page_of name.now pages) }
        ensures site { (pages : JudgedPages)
            → MayBe (⟦<Cached<S> as Pages>⟧.seen self.new) pages → AreSitePages pages }
        ensures asks { OnOk result (Asks ((name.now, fresh) ∷ [])
            (⟦<Cached<S> as Pages>⟧.seen self.old) (⟦<Cached<S> as Pages>⟧.seen self.new)) }
        ensures failed { IsErrOf result RunErr.Store → Fails ((name.now, fresh) ∷ [])
            (⟦<Cached<S> as Pages>⟧.seen self.old) (⟦<Cached<S> as Pages>⟧.seen self.new) }
        ensures stays { Stays (⟦<Cached<S> as Pages>⟧.seen self.old)
            (⟦<Cached<S> as Pages>⟧.seen self.new) }

        // After a fault, or out of memory, nothing is kept but what was kept.
        ensures no_more { OnErr result (KeepsNoMore (cache_of self.old) (cache_of self.new)) }
    {
        if let Some(page) = look_up(&mut self.kept, name, fresh)? {
            return Ok(page);
        }
        let page = fetch(alloc, &mut self.store, name)?;
        keep(alloc, &mut self.kept, name, &page)?;
        Ok(page)
    }
}
