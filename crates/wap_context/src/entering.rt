//! Entering a card (WAP-191, sections 9.2, 9.5 and 9.10).
ghost use Rattle.std.specs.Prelude.{◌≡◌, ◌<◌, [], length, Some, None, Ok, IfOk, OnOk};
ghost use Rattle.wap_tokens.specs.markup.Cards.{cards_of};
ghost use Rattle.wap_world.specs.declared.timer.Timer.TheVariants.{NotStarted};
ghost use Rattle.wap_world.specs.Entering.{event_task, begin_event, enter};
ghost use Rattle.wap_world.specs.Tasks.{card_for, is_new_context, in_context, arrive, try_deck};
ghost use Rattle.wap_world.specs.Tasks.{return, refusing, unless_refused};
ghost use Rattle.wap_world.specs.History.{pushed, entry_of, in_deck, back_at};
ghost use Rattle.wap_context.specs.Browsers.{IsOver, place_held};
ghost use Rattle.wap_context.specs.inside.Moving.{Moves, HasDeck, Answers};

use crate::asking::may_enter;
use crate::context::Context;
use crate::waiting::Went;
use std::alloc::Global;
use wap_base::{NoMemory, Rows, Text};
use wap_cardrules::{Event, Task};
use wap_cards::{binding, is_true};
use wap_deck::good::{AttrName, GoodDeck};
use wap_layout::buffer::Lines;
use wap_state::page_urls::{PageEntry, PageUrl};
use wap_state::requests::entrance_of;
use wap_url::Url;
use wap_world::site::Shared;
use wap_world::{Refusal, Timer};

/// The number of the card that a URL's fragment names, else of the first.
#[tactic(auto, using(wap_world::proofs::Entries::numbered_below))]
fn card_for(deck: &GoodDeck, url: &PageUrl) -> usize
    ensures is { result ≡ card_for deck.now url.now }
    ensures below { result < length (cards_of deck.now) }
{
    // A good deck has a card.
    let _root = deck.root();
    match &url.as_url().fragment {
        Some(id) => match deck.find_card(id) {
            Some(number) => number,
            None => 0,
        },
        None => 0,
    }
}

/// Whether a card begins a new context.
fn is_new_context(alloc: Global, deck: &GoodDeck, number: usize) -> Result<bool, NoMemory>
    ensures { IfOk result (λ is_so. is_so ≡ is_new_context deck.now number) }
{
    match deck.card(number) {
        Some(card) => is_true(alloc, &card, AttrName::Newcontext),
        None => Ok(false),
    }
}

/// An entry whose card is one of a deck.
pub(crate) fn in_deck(deck: &GoodDeck, entry: PageEntry) -> PageEntry
    ensures is { result ≡ in_deck deck.now entry }
    ensures below { result.card < length (cards_of deck.now) }
{
    // A good deck has a card.
    let _root = deck.root();
    if entry.card() < deck.card_count() {
        return entry;
    }
    entry.with_card(0)
}

impl Context {
    /// The task of an event of the current card.
    pub(crate) fn event_task(&self, alloc: Global, event: Event) -> Result<Option<Task>, NoMemory>
        ensures { IfOk result
            (λ task. task ≡ event_task (place_held self.now) event self.now.world) }
    {
        match self.here() {
            Some(here) => binding(alloc, here.deck, &here.card, event, self.vars()),
            None => Ok(None),
        }
    }

    /// The timer is not started.
    #[tactic(auto, using(wap_state::proofs::Keeping::keeps_reset))]
    fn reset_timer(&mut self)
        ensures { self.new ≡ record self.old {
          world = record self.old.world { timer = NotStarted };
        } }
    {
        self.state.timer = Timer::NotStarted;
    }

    /// The task of an event of the current card is next; without one the card is shown.
    pub(crate) fn begin_event(
        &mut self,
        alloc: Global,
        event: Event,
        lines: &mut Lines,
    ) -> Result<Went, NoMemory>
        ensures { IfOk result (λ went.
            Moves (begin_event (place_held self.old) [] event self.old.world) None
            (λ shelf. IsOver shelf self.old) self.old self.new lines.old lines.new went) }
    {
        match self.event_task(alloc, event)? {
            Some(task) => Ok(Went::Leads(task, None)),
            None => {
                self.add_show(alloc, lines)?;
                Ok(Went::Settled)
            }
        }
    }

    /// Enters the current card: its timer is not started, and its event's task is next, or it is
    /// shown.
    fn enter(&mut self, alloc: Global, event: Event, lines: &mut Lines) -> Result<Went, NoMemory>
        ensures { IfOk result (λ went.
            Moves (enter (place_held self.old) [] event self.old.world) None
            (λ shelf. IsOver shelf self.old) self.old self.new lines.old lines.new went) }
    {
        self.reset_timer();
        self.begin_event(alloc, event, lines)
    }

    /// Adds a refusal, which ends a navigation.
    pub(crate) fn refuse(
        &mut self,
        alloc: Global,
        refusal: Refusal,
        lines: &mut Lines,
    ) -> Result<Went, NoMemory>
        ensures { IfOk result (λ went.
            Moves (refusing (place_held self.old) [] refusal self.old.world) None
            (λ shelf. IsOver shelf self.old) self.old self.new lines.old lines.new went) }
    {
        self.add_refusal(alloc, refusal, lines)?;
        Ok(Went::Settled)
    }

    /// Pushes a card of a deck onto the history, which is empty first in a new context.
    #[tactic(auto, using(crate::proofs::Standing::stands_pushed))]
    fn push_card(
        &mut self,
        alloc: Global,
        url: PageUrl,
        deck: Shared<GoodDeck>,
    ) -> Result<(), NoMemory>
        ensures { OnOk result (self.new ≡ record {
          world = pushed (in_context deck (card_for deck url) self.old.world)
              (entry_of url (card_for deck url));
          deck = Some deck;
        }) }
    {
        let number = card_for(&deck, &url);
        if is_new_context(alloc, &deck, number)? {
            self.deck = None;
            self.state.clear();
        }
        self.state.push(PageEntry::of(url, number))?;
        self.deck = Some(deck);
        Ok(())
    }

    /// Leaves the current card, sets variables, and enters the card of a deck that a URL names.
    pub(crate) fn arrive(
        &mut self,
        alloc: Global,
        sets: Rows<(Text, Text)>,
        url: PageUrl,
        deck: Shared<GoodDeck>,
        lines: &mut Lines,
    ) -> Result<Went, NoMemory>
        ensures { IfOk result (λ went. Moves
            (arrive (place_held self.old) [] sets url self.old.world deck) None
            (HasDeck url deck) self.old self.new lines.old lines.new went) }
    {
        self.leave_and_set(alloc, sets, lines)?;
        self.push_card(alloc, url, deck)?;
        self.enter(alloc, Event::Forward, lines)
    }

    /// Enters the deck of a URL, if it may be entered from the caller.
    fn try_deck(
        &mut self,
        alloc: Global,
        sets: Rows<(Text, Text)>,
        caller: &Option<Url>,
        url: PageUrl,
        deck: Shared<GoodDeck>,
        lines: &mut Lines,
    ) -> Result<Went, NoMemory>
        ensures { IfOk result (λ went. Moves
            (try_deck (place_held self.old) [] sets caller.now url self.old.world deck) None
            (λ shelf. IsOver shelf self.old × HasDeck url deck shelf)
            self.old self.new lines.old lines.new went) }
    {
        let entrance = entrance_of(alloc, &deck)?;
        let is_allowed = may_enter(alloc, &url, entrance, caller)?;
        if is_allowed {
            self.arrive(alloc, sets, url, deck, lines)
        } else {
            self.refuse(alloc, Refusal::Denied, lines)
        }
    }

    /// Goes on with what answers a request for a URL.
    pub(crate) fn take_answer(
        &mut self,
        alloc: Global,
        sets: Rows<(Text, Text)>,
        caller: &Option<Url>,
        url: PageUrl,
        answer: Result<Shared<GoodDeck>, Refusal>,
        lines: &mut Lines,
    ) -> Result<Went, NoMemory>
        ensures { IfOk result (λ went. Moves
            (unless_refused (place_held self.old) [] self.old.world
            (try_deck (place_held self.old) [] sets caller.now url self.old.world) answer) None
            (Answers url answer self.old) self.old self.new lines.old lines.new went) }
    {
        match answer {
            Ok(deck) => self.try_deck(alloc, sets, caller, url, deck, lines),
            Err(refusal) => self.refuse(alloc, refusal, lines),
        }
    }

    /// Drops the current card, and puts an earlier one of a deck in place of the one before it.
    #[tactic(auto, using(crate::proofs::Standing::stands_back))]
    fn pop_card(&mut self, earlier: PageEntry, deck: Shared<GoodDeck>) -> Result<(), NoMemory>
        ensures { OnOk result (self.new ≡ record {
          world = back_at self.old.world (in_deck deck earlier);
          deck = Some deck;
        }) }
    {
        self.state.go_back(in_deck(&deck, earlier))?;
        self.deck = Some(deck);
        Ok(())
    }

    /// Leaves the current card, sets variables, and enters an earlier card of a deck.
    pub(crate) fn return_to(
        &mut self,
        alloc: Global,
        sets: Rows<(Text, Text)>,
        earlier: PageEntry,
        deck: Shared<GoodDeck>,
        lines: &mut Lines,
    ) -> Result<Went, NoMemory>
        ensures { IfOk result (λ went. Moves
            (return (place_held self.old) [] sets earlier self.old.world deck) None
            (HasDeck earlier.url deck) self.old self.new lines.old lines.new went) }
    {
        self.leave_and_set(alloc, sets, lines)?;
        self.pop_card(earlier, deck)?;
        self.enter(alloc, Event::Backward, lines)
    }

    /// Goes on back with what answers the request for the earlier card's deck.
    pub(crate) fn return_with(
        &mut self,
        alloc: Global,
        sets: Rows<(Text, Text)>,
        earlier: PageEntry,
        answer: Result<Shared<GoodDeck>, Refusal>,
        lines: &mut Lines,
    ) -> Result<Went, NoMemory>
        ensures { IfOk result (λ went. Moves
            (unless_refused (place_held self.old) [] self.old.world
            (return (place_held self.old) [] sets earlier self.old.world) answer) None
            (Answers earlier.url answer self.old) self.old self.new lines.old lines.new went) }
    {
        match answer {
            Ok(deck) => self.return_to(alloc, sets, earlier, deck, lines),
            Err(refusal) => self.refuse(alloc, refusal, lines),
        }
    }
}
