//! Go, open and prev (WAP-191, sections 9.2, 9.5 and 9.10).
ghost use Rattle.std.specs.Prelude.{◌≡◌, Some, None, true, false, IfOk, IfSome};
ghost use Rattle.wap_world.specs.Tasks.{deck_url, base_url, go, open_url, open_by, prev};
ghost use Rattle.wap_world.specs.Tasks.{stay_or_ask, request, ask_back, back_from, task_by};
ghost use Rattle.wap_world.specs.scripting.UnitSites.{shelf_of};
ghost use Rattle.wap_state.specs.page_urls.PageUrls.{IsPageUrl};
ghost use Rattle.wap_context.specs.Browsers.{place_held};
ghost use Rattle.wap_context.specs.Sites.{site_of};
ghost use Rattle.wap_context.specs.inside.AtHand.{page_under, page_here};
ghost use Rattle.wap_context.specs.inside.Moving.{Takes, Onces, SpendsOne, HasNone};

use crate::asking::{ask, ask_for, deck_answer, page_answer};
use crate::context::Context;
use crate::waiting::Went;
use std::alloc::Global;
use wap_base::{NoMemory, Rows, RunErr, Text};
use wap_cardrules::{Go, Task};
use wap_deck::good::GoodDeck;
use wap_layout::buffer::Lines;
use wap_state::page_urls::{PageEntry, PageRequest, PageUrl, plain, target};
use wap_state::requests::is_same_page;
use wap_url::Url;
use wap_world::Refusal;
use wap_world::site::{Pages, Shared};

impl Context {
    /// A copy of the current deck's URL, if there is a current card.
    fn url(&self, alloc: Global) -> Result<Option<Url>, NoMemory>
        ensures is { IfOk result (λ url. url ≡ deck_url (place_held self.now)) }
        ensures page { IfOk result (λ url. IfSome url IsPageUrl) }
        ensures whole { IfOk result (λ url. IfSome url (λ url. url.fragment ≡ None)) }
    {
        if self.here().is_none() {
            return Ok(None);
        }
        self.state.deck_url(alloc)
    }

    /// The current deck and its URL, where another URL is that of its page.
    fn page_under(
        &self,
        alloc: Global,
        url: &Url,
    ) -> Result<Option<(PageUrl, Shared<GoodDeck>)>, NoMemory>
        ensures is { IfOk result (λ page. page ≡ page_under url.now (place_held self.now)) }
        ensures whole { IfOk result (λ page. IfSome page (λ page. page.0.fragment ≡ None)) }
    {
        let (Some(here), Some(deck)) = (self.url(alloc)?, &self.deck) else {
            return Ok(None);
        };
        if !is_same_page(alloc, url, &here)? {
            return Ok(None);
        }
        Ok(Some((PageUrl::of(here), deck.share()?)))
    }

    /// The current deck and its URL, where that is what a request asks for.
    fn page_here(
        &self,
        alloc: Global,
        one: &PageRequest,
    ) -> Result<Option<(PageUrl, Shared<GoodDeck>)>, NoMemory>
        ensures { IfOk result (λ page. page ≡ page_here one.now (place_held self.now)) }
    {
        let asked = one.as_request();
        if asked.body.is_some() || asked.fresh {
            return Ok(None);
        }
        self.page_under(alloc, &asked.url)
    }

    /// Asks for a page, and enters the deck that it is.
    fn request<P: Pages>(
        &mut self,
        alloc: Global,
        pages: &mut P,
        sets: Rows<(Text, Text)>,
        caller: &Option<Url>,
        one: PageRequest,
        lines: &mut Lines,
    ) -> Result<Went, RunErr>
        ensures { Takes (λ pages keys world.
            request (site_of pages) (place_held self.old) keys sets caller.now one world)
            (P.seen pages.old) (P.seen pages.new) self.old self.new lines.old lines.new result }
    {
        let page = ask(alloc, pages, &one, lines)?;
        let url = one.into_url();
        match page_answer(page) {
            Ok(answer) => { Ok(self.take_answer(alloc, sets, caller, url, answer, lines)?) }
            Err(unit) => self.try_script(alloc, pages, sets, caller, url, unit, lines),
        }
    }

    /// Enters the current deck anew, where it is asked for, else the deck that answers.
    fn stay_or_ask<P: Pages>(
        &mut self,
        alloc: Global,
        pages: &mut P,
        sets: Rows<(Text, Text)>,
        caller: &Option<Url>,
        one: PageRequest,
        lines: &mut Lines,
    ) -> Result<Went, RunErr>
        ensures { Takes (λ pages keys world.
            stay_or_ask (site_of pages) (place_held self.old) keys sets caller.now one world)
            (P.seen pages.old) (P.seen pages.new) self.old self.new lines.old lines.new result }
    {
        match self.page_here(alloc, &one)? {
            Some((here, deck)) => {
                let url = one.fragment_on(here);
                Ok(self.arrive(alloc, sets, url, deck, lines)?)
            }
            None => self.request(alloc, pages, sets, caller, one, lines),
        }
    }

    /// A copy of the current deck's URL; without a card, that of the script that asked.
    fn base(&self, alloc: Global, from: Option<PageUrl>) -> Result<Option<Url>, NoMemory>
        ensures is { IfOk result (λ url. url ≡ base_url (place_held self.now) from) }
        ensures page { IfOk result (λ url. IfSome url IsPageUrl) }
    {
        match self.url(alloc)? {
            Some(url) => Ok(Some(url)),
            None => Ok(plain(from)),
        }
    }

    /// Takes a go, whose turn is taken already.
    fn go<P: Pages>(
        &mut self,
        alloc: Global,
        pages: &mut P,
        one: Go,
        from: Option<PageUrl>,
        lines: &mut Lines,
    ) -> Result<Went, RunErr>
        ensures { Takes (λ pages keys world.
            go (site_of pages) (place_held self.old) keys (base_url (place_held self.old) from)
            one world)
            (P.seen pages.old) (P.seen pages.new) self.old self.new lines.old lines.new result }
    {
        let base = self.base(alloc, from)?;
        match target(alloc, &base, &one.href)? {
            Ok(url) => {
                let request = PageRequest::of(alloc, &base, &one, url)?;
                self.stay_or_ask(alloc, pages, one.sets, &base, request, lines)
            }
            Err(refusal) => Ok(self.refuse(alloc, refusal, lines)?),
        }
    }

    /// Opens a URL for a user, whose turn is taken already.
    fn open_url<P: Pages>(
        &mut self,
        alloc: Global,
        pages: &mut P,
        url: &Text,
        lines: &mut Lines,
    ) -> Result<Went, RunErr>
        ensures { Takes (λ pages keys world.
            open_url (site_of pages) (place_held self.old) keys url.now world)
            (P.seen pages.old) (P.seen pages.new) self.old self.new lines.old lines.new result }
    {
        let base = self.url(alloc)?;
        match target(alloc, &base, url)? {
            Ok(url) => {
                let sets = Rows::new(alloc);
                self.request(alloc, pages, sets, &None, PageRequest::get(url), lines)
            }
            Err(refusal) => Ok(self.refuse(alloc, refusal, lines)?),
        }
    }

    /// Asks for the deck of an earlier card, and enters that.
    fn ask_back<P: Pages>(
        &mut self,
        alloc: Global,
        pages: &mut P,
        sets: Rows<(Text, Text)>,
        earlier: PageEntry,
        lines: &mut Lines,
    ) -> Result<Went, RunErr>
        ensures { Takes (λ pages keys world.
            ask_back (shelf_of pages) (place_held self.old) keys sets earlier world)
            (P.seen pages.old) (P.seen pages.new) self.old self.new lines.old lines.new result }
    {
        let page = ask_for(alloc, pages, &earlier, lines)?;
        Ok(self.return_with(alloc, sets, earlier, deck_answer(page), lines)?)
    }

    /// Goes back to an earlier card, whose deck may be the current one.
    fn back_to<P: Pages>(
        &mut self,
        alloc: Global,
        pages: &mut P,
        sets: Rows<(Text, Text)>,
        earlier: PageEntry,
        lines: &mut Lines,
    ) -> Result<Went, RunErr>
        ensures { Takes (λ pages keys world.
            back_from (shelf_of pages) (place_held self.old) keys sets earlier world)
            (P.seen pages.old) (P.seen pages.new) self.old self.new lines.old lines.new result }
    {
        match self.page_under(alloc, earlier.url())? {
            Some((here, deck)) => {
                let card = PageEntry::of(here, earlier.card());
                Ok(self.return_to(alloc, sets, card, deck, lines)?)
            }
            None => self.ask_back(alloc, pages, sets, earlier, lines),
        }
    }

    /// Takes a prev, whose turn is taken already.
    fn prev<P: Pages>(
        &mut self,
        alloc: Global,
        pages: &mut P,
        sets: Rows<(Text, Text)>,
        lines: &mut Lines,
    ) -> Result<Went, RunErr>
        ensures { Takes (λ pages keys world.
            prev (shelf_of pages) (place_held self.old) keys sets world)
            (P.seen pages.old) (P.seen pages.new) self.old self.new lines.old lines.new result }
    {
        match self.state.earlier(alloc)? {
            Some(earlier) => self.back_to(alloc, pages, sets, earlier, lines),
            None => Ok(self.refuse(alloc, Refusal::First, lines)?),
        }
    }

    /// Takes a turn, if one is left.
    pub(crate) fn take_turn(&mut self) -> bool
        ensures taken { result ≡ true → SpendsOne self.old self.new }
        ensures left { result ≡ false → HasNone self.old self.new }
    {
        if self.state.turns == 0 {
            return false;
        }
        self.state.turns -= 1;
        true
    }

    /// Opens a URL for a user, alone.
    pub(crate) fn visit_once<P: Pages>(
        &mut self,
        alloc: Global,
        pages: &mut P,
        url: &Text,
        lines: &mut Lines,
    ) -> Result<Went, RunErr>
        ensures { Onces (λ pages keys world.
            open_by (site_of pages) (place_held self.old) keys url.now world)
            (P.seen pages.old) (P.seen pages.new) self.old self.new lines.old lines.new result }
    {
        if self.take_turn() {
            self.open_url(alloc, pages, url, lines)
        } else {
            Ok(self.refuse(alloc, Refusal::Budget, lines)?)
        }
    }

    /// Takes a task, alone.
    pub(crate) fn task_once<P: Pages>(
        &mut self,
        alloc: Global,
        pages: &mut P,
        task: Task,
        from: Option<PageUrl>,
        lines: &mut Lines,
    ) -> Result<Went, RunErr>
        ensures { Onces (λ pages keys world.
            task_by (site_of pages) (place_held self.old) keys world from task)
            (P.seen pages.old) (P.seen pages.new) self.old self.new lines.old lines.new result }
    {
        match task {
            Task::Go(one) => {
                if self.take_turn() {
                    self.go(alloc, pages, one, from, lines)
                } else {
                    Ok(self.refuse(alloc, Refusal::Budget, lines)?)
                }
            }
            Task::Prev(sets) => {
                if self.take_turn() {
                    self.prev(alloc, pages, sets, lines)
                } else {
                    Ok(self.refuse(alloc, Refusal::Budget, lines)?)
                }
            }
            Task::Refresh(sets) => {
                self.refresh(alloc, sets, lines)?;
                Ok(Went::Settled)
            }
        }
    }
}
