//! Functions of other scripts (WAP-193, section 6.4.2.2).
ghost use Rattle.std.specs.Prelude.{◌≡◌, Some, IfOk};
ghost use Rattle.wap_url.specs.Printing.{without_fragment};
ghost use Rattle.wap_machine.specs.Hosts.{IsCallable};
ghost use Rattle.wap_world.specs.Access.{may_enter};
ghost use Rattle.wap_world.specs.Urls.{target_of};
ghost use Rattle.wap_world.specs.scripting.Units.{entrance_in, external_in};
ghost use Rattle.wap_world.specs.scripting.Hosting.{callable, external_call};
ghost use Rattle.wap_world.specs.scripting.Hosting.{found_at};
ghost use Rattle.wap_world.specs.scripting.UnitSites.{shelf_of, externals_of, unit_under};
ghost use Rattle.wap_world.specs.scripting.Views.{fresh};
ghost use Rattle.wap_context.specs.host.Finding.{found_in, found_on};
ghost use Rattle.wap_context.specs.host.Serving.{Serves};

use crate::host::sight::Sight;
use crate::host::units::{entrance_in, external_in};
use std::alloc::Global;
use wap_base::{NoMemory, RunErr, Text};
use wap_execution::{Fatal, Found};
use wap_state::requests::{may_enter, target};
use wap_url::Url;
use wap_verify::Verified;
use wap_world::Refusal;
use wap_world::site::{Page, Pages, Shared};

/// The URL that a reference stands for to the script of a URL.
fn target_from(
    alloc: Global,
    caller: &Url,
    reference: &Text,
) -> Result<Result<Url, Refusal>, NoMemory>
    ensures { IfOk result (λ url. url ≡ target_of (Some caller.now) reference.now) }
{
    let base = Some(caller.copy(alloc)?);
    target(alloc, &base, reference)
}

/// Whether a unit's access pragmas let the script of a URL call it.
fn may_call(alloc: Global, caller: &Url, url: &Url, unit: &Verified) -> Result<bool, NoMemory>
    ensures { IfOk result (λ may. may
        ≡ may_enter url.now (entrance_in unit.now) (Some caller.now)) }
{
    let caller = Some(caller.copy(alloc)?);
    let entrance = entrance_in(alloc, unit)?;
    may_enter(alloc, url, entrance, &caller)
}

/// The URL without its fragment.
fn without_fragment(url: Url) -> Url
    ensures { result ≡ without_fragment url }
{
    let mut page = url;
    page.fragment = None;
    page
}

/// A function that may be entered: it is there, takes so many arguments, and fewer functions are at
/// work than may be.
fn callable(
    unit: Shared<Verified>,
    url: Url,
    function: &Text,
    count: u8,
    depth: u8,
    working: u32,
) -> Found<Shared<Verified>>
    ensures is { result
        ≡ callable unit url count depth working (external_in unit function.now) }
    ensures callable { IsCallable count working result }
{
    let Some(external) = external_in(&unit, function) else {
        return Found::Not(Fatal::NoFunction);
    };
    if external.arguments != count {
        return Found::Not(Fatal::Arguments);
    }
    if working >= u32::from(depth) {
        return Found::Not(Fatal::Depth);
    }
    Found::Callee(unit, url, external.index)
}

/// The function of a name in a unit, whose access pragmas come first.
fn found_in(
    alloc: Global,
    caller: &Url,
    url: Url,
    unit: Shared<Verified>,
    function: &Text,
    count: u8,
    depth: u8,
    working: u32,
) -> Result<Found<Shared<Verified>>, NoMemory>
    ensures is { IfOk result (λ found. found
        ≡ found_in caller.now url unit function.now count depth working) }
    ensures callable { IfOk result (IsCallable count working) }
{
    if !may_call(alloc, caller, &url, &unit)? {
        return Ok(Found::Not(Fatal::Denied));
    }
    Ok(callable(unit, without_fragment(url), function, count, depth, working))
}

/// The same in a page.
fn found_on(
    alloc: Global,
    caller: &Url,
    url: Url,
    page: Page,
    function: &Text,
    count: u8,
    depth: u8,
    working: u32,
) -> Result<Found<Shared<Verified>>, NoMemory>
    ensures is { IfOk result (λ found. found
        ≡ found_on caller.now url page function.now count depth working) }
    ensures callable { IfOk result (IsCallable count working) }
{
    match page {
        Page::Script(unit) => {
            found_in(alloc, caller, url, unit, function, count, depth, working)
        }
        Page::Deck(_) | Page::Words(_) | Page::Refused => Ok(Found::Not(Fatal::UnitRefused)),
        Page::Missing => Ok(Found::Not(Fatal::NoUnit)),
    }
}

impl Sight {
    /// The same by the limit of functions at work.
    fn found(
        &self,
        caller: &Url,
        url: Url,
        page: Page,
        function: &Text,
        count: u8,
        working: u32,
    ) -> Result<Found<Shared<Verified>>, NoMemory>
        ensures is { IfOk result (λ found. found ≡ found_on caller.now url page function.now count
            self.now.world.limits.depth working) }
        ensures callable { IfOk result (IsCallable count working) }
    {
        let depth = self.state.limits.depth;
        found_on(
            self.alloc, caller, url, page, function, count, depth, working,
        )
    }

    /// Asks for the page of a URL, and finds the function of a name in it.
    fn find_at<P: Pages>(
        &mut self,
        pages: &mut P,
        caller: &Url,
        url: Url,
        function: &Text,
        count: u8,
        working: u32,
    ) -> Result<Found<Shared<Verified>>, RunErr>
        ensures serves { Serves
            (λ view. found_at (shelf_of view.pages) (externals_of view.pages)
            (unit_under view.pages) caller.now function.now count working (fresh view) (Ok url))
            self.old self.new (P.seen pages.old) (P.seen pages.new) result }
        ensures callable { IfOk result (IsCallable count working) }
    {
        let page = self.ask_for(pages, &url)?;
        Ok(self.found(caller, url, page, function, count, working)?)
    }

    /// A function of another script, by its URL as a reference to the caller's, and its name.
    pub(crate) fn find<P: Pages>(
        &mut self,
        pages: &mut P,
        caller: &Url,
        reference: &Text,
        function: &Text,
        count: u8,
        working: u32,
    ) -> Result<Found<Shared<Verified>>, RunErr>
        ensures serves { Serves
            (λ view. external_call (shelf_of view.pages) (externals_of view.pages)
            (unit_under view.pages) (fresh view) caller.now reference.now function.now count
            working)
            self.old self.new (P.seen pages.old) (P.seen pages.new) result }
        ensures callable { IfOk result (IsCallable count working) }
    {
        match target_from(self.alloc, caller, reference)? {
            Ok(url) => self.find_at(pages, caller, url, function, count, working),
            Err(_) => Ok(Found::Not(Fatal::NoUnit)),
        }
    }
}
