//! What of a context is saved, and contexts that are made of that again.
ghost use Rattle.std.specs.Prelude.{◌≡◌, true, Some, IfOk};
ghost use Rattle.wap_image.specs.Items.{is_drawn};
ghost use Rattle.wap_image.specs.Rules.{AreParts};
ghost use Rattle.wap_state.specs.Saved.{parts_of, saved_world, IsAtRest};
ghost use Rattle.wap_world.specs.World.{last_entry};
ghost use Rattle.wap_context.specs.Saved.{with_last_in, revived_on, Revives};
ghost use Rattle.wap_context.specs.inside.Reviving.{AsksPage, Returns};

use crate::context::Context;
use crate::entering::in_deck;
use std::alloc::Global;
use wap_base::{NoMemory, RunErr};
use wap_deck::good::GoodDeck;
use wap_image::context_parts::ContextParts;
use wap_state::State;
use wap_state::page_urls::PageEntry;
use wap_url::name_of;
use wap_world::site::{Page, Pages, Shared};

/// What is made of the parts of a context.
#[derive(Drop)]
pub enum Revived {
    /// The context with these parts.
    Context(Context),
    /// There is no page of the current card's deck any more.
    Missing,
    /// The page of the current card's deck is no deck any more.
    Refused,
}

/// The world whose current card is this, with that card in a deck.
#[tactic(auto, using(crate::proofs::Reviving::last_is, crate::proofs::Standing::stands_last))]
fn with_deck(state: State, last: PageEntry, deck: Shared<GoodDeck>) -> Result<Context, NoMemory>
    requires { last_entry state ≡ Some last }
    ensures { IfOk result (λ context. context
        ≡ record { world = with_last_in deck state; deck = Some deck }) }
{
    let mut state = state;
    state.set_last(in_deck(&deck, last))?;
    Ok(Context {
        state,
        deck: Some(deck),
    })
}

/// What is made of the world whose current card is this, by the page of the card.
fn revived_on(state: State, last: PageEntry, page: Page) -> Result<Revived, NoMemory>
    requires { last_entry state ≡ Some last }
    ensures { IfOk result (λ it. it ≡ revived_on state page) }
{
    match page {
        Page::Deck(deck) => Ok(Revived::Context(with_deck(state, last, deck)?)),
        Page::Script(_) | Page::Words(_) | Page::Refused => Ok(Revived::Refused),
        Page::Missing => Ok(Revived::Missing),
    }
}

/// A copy of the entry of the current card, if there is one.
fn last_of(alloc: Global, state: &State) -> Result<Option<PageEntry>, NoMemory>
    ensures { IfOk result (λ last. last ≡ last_entry state.now) }
{
    match state.last() {
        Some(entry) => Ok(Some(entry.copy(alloc)?)),
        None => Ok(None),
    }
}

/// Asks for the page of an entry.
fn ask_page<P: Pages>(alloc: Global, entry: &PageEntry, pages: &mut P) -> Result<Page, RunErr>
    ensures { AsksPage entry.now.url (P.seen pages.old) (P.seen pages.new) result }
{
    let name = name_of(alloc, entry.url())?;
    pages.page(alloc, &name, false)
}

/// The page of the current card is asked for.
fn ask_again<P: Pages>(
    alloc: Global,
    state: State,
    last: PageEntry,
    pages: &mut P,
) -> Result<Revived, RunErr>
    requires { last_entry state ≡ Some last }
    ensures { Returns state last (P.seen pages.old) (P.seen pages.new) result }
{
    let page = ask_page(alloc, &last, pages)?;
    Ok(revived_on(state, last, page)?)
}

impl Context {
    /// The parts of which the context can be made again. What a script that waits does is none of
    /// them.
    pub fn parts(&self, alloc: Global) -> Result<ContextParts, NoMemory>
        ensures parts { IfOk result (λ parts. parts ≡ parts_of self.now.world) }
        ensures rules { IfOk result AreParts }
        // At rest they are all of the world but for the turns of a key.
        ensures whole { IfOk result (λ parts. IsAtRest self.now.world
            → is_drawn parts.drawn ≡ true
            → saved_world parts ≡ record self.now.world { budget = 0; turns = 0 }) }
    {
        self.state.parts(alloc)
    }

    /// A context of parts: the deck of its current card, if there is one, is asked for. It has no
    /// turns until a key begins.
    ///
    /// # Errors
    /// `Store` where the page couldn't be fetched, and `NoMemory`.
    #[tactic(auto, using(crate::proofs::Standing::stands_none))]
    pub fn revive<P: Pages>(
        alloc: Global,
        parts: ContextParts,
        pages: &mut P,
    ) -> Result<Revived, RunErr>
        requires rules { AreParts parts }
        requires drawn { is_drawn parts.drawn ≡ true }
        ensures { Revives parts (P.seen pages.old) (P.seen pages.new) result }
    {
        let state = State::of(alloc, parts)?;
        match last_of(alloc, &state)? {
            Some(last) => ask_again(alloc, state, last, pages),
            None => Ok(Revived::Context(Context { state, deck: None })),
        }
    }
}
