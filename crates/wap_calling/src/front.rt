//! A store of one's own: what a caller owes to a cache of pages.
ghost use Rattle.std.specs.Prelude.{◌≡◌, [], true, false, IfOk};
ghost use Rattle.wap_base.specs.Texts.{is_same_text};
ghost use Rattle.wap_devices.specs.Pages.{IsPage, IsSmall};
ghost use Rattle.wap_devices.specs.Stores.{Fetches, Lists};
ghost use Rattle.wap_devices.specs.declared.store.Fetched.TheVariants.{Found};
ghost use Rattle.wap_calling.specs.Calling.{seen_before};

use std::alloc::Global;
use std::marker::Model;
use wap_base::{Bytes, Text};
use wap_devices::{Count, Fetched, Log, Store, StoreErr};

/// A page in memory before those of a store. It keeps what it answered, which clauses alone see.
#[derive(Drop)]
pub struct Front<S: Store> {
    alloc: Global,
    name: Text,
    page: Bytes,
    store: S,
    answers: Log<Text, Fetched>,
    faults: Count,
    fetches: Count,
    listings: Count,
}

impl<S: Store> Model for Front<S> {
    ghost use Rattle.std.specs.Coded.{codes};
    ghost use Rattle.wap_devices.specs.Pages.{IsPage};
    ghost use Rattle.wap_calling.specs.Calling.{FrontState};

    ghost Value = { FrontState S };

    ghost coded = { Prim.hlevel (codes, S.code) };

    ghost view = { λ front. record {
      name = front.name;
      page = front.page;
      store = front.store;
      answers = front.answers.items;
      faults = front.faults;
      fetches = front.fetches;
      listings = front.listings;
    } };

    ghost invariant = { λ front. IsPage front.page };
}

impl<S: Store> Front<S> {
    /// This page under a name, and else the pages of a store.
    pub fn new(alloc: Global, name: Text, page: Bytes, store: S) -> Front<S>
        requires { IsPage page }
        ensures { result ≡ record {
          name = name;
          page = page;
          store = store;
          answers = [];
          faults = 0;
          fetches = 0;
          listings = 0;
        } }
    {
        Front {
            alloc,
            name,
            page,
            store,
            answers: Log::new(),
            faults: Count::new(),
            fetches: Count::new(),
            listings: Count::new(),
        }
    }
}

/// The page of a name: this one of its own, or that of the store.
fn answer<S: Store>(
    alloc: Global,
    own: &Text,
    page: &Bytes,
    store: &mut S,
    name: &Text,
) -> Result<Fetched, StoreErr>
    requires { IsPage page.now }
    ensures small { IfOk result IsSmall }
    ensures own { is_same_text own.now name.now ≡ true
        → (store.new ≡ store.old) × IfOk result (λ answer. answer ≡ Found page.now) }
    ensures below { is_same_text own.now name.now ≡ false
        → Fetches name.now (S.seen store.old) (S.seen store.new) result }
{
    if own == name {
        return Ok(Fetched::Found(Bytes::of(alloc, page.as_slice())?));
    }
    store.fetch(name)
}

impl<S: Store> Store for Front<S> {
    ghost seen = { seen_before };

    fn fetch(&mut self, name: &Text) -> Result<Fetched, StoreErr>
        ensures fetches { Fetches name.now (seen_before self.old) (seen_before self.new) result }
        ensures own { is_same_text self.old.name name.now ≡ true
            → (self.new.store ≡ self.old.store) × IfOk result (λ answer. answer ≡ Found self.old.page) }
        ensures below { is_same_text self.old.name name.now ≡ false
            → Fetches name.now (S.seen self.old.store) (S.seen self.new.store) result }
    {
        self.fetches.add();
        let answer = answer(self.alloc, &self.name, &self.page, &mut self.store, name);
        self.faults.add_if(answer.is_err());
        if let Ok(found) = &answer {
            self.answers = self.answers.and(name, found);
        }
        answer
    }

    /// A session asks for no names, so they aren't told.
    fn list(&mut self) -> Result<Vec<Text>, StoreErr>
        ensures { Lists (λ names. names.items) (seen_before self.old) (seen_before self.new) result }
    {
        self.listings.add();
        self.faults.add();
        Err(StoreErr::Failed)
    }
}
