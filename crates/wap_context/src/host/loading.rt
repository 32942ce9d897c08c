//! What the library URL asks a browser (WAP-194, "URL Library").
ghost use Rattle.std.specs.Prelude.{◌≡◌, nat_eq, codes, if◌then◌else◌, IfOk, Ok};
ghost use Rattle.std.specs.Option.{option_copied};
ghost use Rattle.std.specs.List.{starts_with, ends_with};
ghost use Rattle.wap_url.specs.Calculation.{url_at};
ghost use Rattle.wap_execution.specs.declared.library.HostOut.TheVariants as out;
ghost use Rattle.wap_libs.specs.Row.{argument};
ghost use Rattle.wap_machine.specs.Hosts.{IsNoBudget};
ghost use Rattle.wap_world.specs.scripting.Loading.{text_in, loaded};
ghost use Rattle.wap_world.specs.scripting.Loading.{get_base, get_referer};
ghost use Rattle.wap_world.specs.scripting.Hosting.{within, load_call};
ghost use Rattle.wap_world.specs.scripting.UnitSites.{shelf_of};
ghost use Rattle.wap_world.specs.scripting.Views.{fresh};
ghost use Rattle.wap_context.specs.host.Finding.{shelved_page, loaded_text};
ghost use Rattle.wap_context.specs.host.Serving.{Gave, Serves};
ghost use Rattle.wap_context.specs.host.inside.Loading.{page_read, page_typed, loadable};

use crate::host::browsing::argument;
use crate::host::sight::Sight;
use std::alloc::Global;
use wap_base::{NoMemory, RunErr, Text};
use wap_execution::HostOut;
use wap_libs::texts::argument::characters;
use wap_state::requests::{page_text, page_url};
use wap_url::{Url, UrlFault, name_of, relative};
use wap_value::{Value, to_str};
use wap_world::site::{Page, Pages};

/// The page is no text.
const NOT_ACCEPTABLE: i32 = 406;

/// There is no page.
const NOT_FOUND: i32 = 404;

/// Whether a name is one of a text.
fn names_text(alloc: Global, name: &Text) -> Result<bool, NoMemory>
    ensures { IfOk result (λ is_so. is_so ≡ ends_with nat_eq name.now (codes ".txt")) }
{
    let name = characters(alloc, name)?;
    Ok(name.as_slice().ends_with(&['.', 't', 'x', 't']))
}

/// Whether a type is one of texts.
fn is_of_texts(alloc: Global, kind: &Text) -> Result<bool, NoMemory>
    ensures { IfOk result (λ is_so. is_so ≡ starts_with nat_eq kind.now (codes "text/")) }
{
    let kind = characters(alloc, kind)?;
    Ok(kind.as_slice().starts_with(&['t', 'e', 'x', 't', '/']))
}

/// What a page of a text's name gives.
fn text_in(alloc: Global, page: &Page) -> Result<Value, NoMemory>
    ensures { IfOk result (λ value. value ≡ text_in (shelved_page page.now)) }
{
    match page {
        Page::Words(text) => Ok(Value::Str(text.copy(alloc)?)),
        Page::Deck(_) | Page::Script(_) | Page::Refused => Ok(Value::Int(NOT_ACCEPTABLE)),
        Page::Missing => Ok(Value::Int(NOT_FOUND)),
    }
}

/// What a page of a name gives.
fn text_of_page(alloc: Global, name: &Text, page: &Page) -> Result<Value, NoMemory>
    ensures { IfOk result (λ value. value
        ≡ (if ends_with nat_eq name.now (codes ".txt") then text_in (shelved_page page.now)
        else Value.Int NOT_ACCEPTABLE)) }
{
    if names_text(alloc, name)? {
        return text_in(alloc, page);
    }
    Ok(Value::Int(NOT_ACCEPTABLE))
}

/// The URL that a text spells, where it is one of a page.
fn page_read(alloc: Global, text: &Text) -> Result<Option<Url>, NoMemory>
    ensures { IfOk result (λ url. url ≡ page_read (url_at text.now)) }
{
    match Url::read(alloc, text) {
        Ok(url) => match page_url(url) {
            Ok(url) => Ok(Some(url)),
            Err(_) => Ok(None),
        },
        Err(UrlFault::NoMemory) => Err(NoMemory),
        Err(UrlFault::BadChar { at: _ }) => Ok(None),
        Err(UrlFault::BadScheme | UrlFault::BadHost | UrlFault::BadPort) => Ok(None),
    }
}

/// The same, where the type is one of texts.
fn page_typed(alloc: Global, url: &Text, kind: &Text) -> Result<Option<Url>, NoMemory>
    ensures { IfOk result (λ found. found ≡ page_typed url.now kind.now) }
{
    if !is_of_texts(alloc, kind)? {
        return Ok(None);
    }
    page_read(alloc, url)
}

/// The same of values that become texts.
fn loadable(alloc: Global, url: &Value, kind: &Value) -> Result<Option<Url>, NoMemory>
    ensures { IfOk result (λ found. found ≡ loadable url.now kind.now) }
{
    let Some(url) = to_str(alloc, url)? else {
        return Ok(None);
    };
    match to_str(alloc, kind)? {
        Some(kind) => page_typed(alloc, &url, &kind),
        None => Ok(None),
    }
}

/// The same of the arguments of a call.
fn loadable_by(alloc: Global, arguments: &[Value]) -> Result<Option<Url>, NoMemory>
    ensures { IfOk result (λ found. found
        ≡ loadable (argument arguments.now 0) (argument arguments.now 1)) }
{
    let absent = Value::Invalid;
    let url = argument(arguments, 0, &absent);
    loadable(alloc, url, argument(arguments, 1, &absent))
}

impl Sight {
    /// WAP-194, "getBase".
    pub(crate) fn get_base(&mut self, base: &Url) -> Result<Value, NoMemory>
        ensures { IfOk result
            (λ value. Gave (get_base base.now) self.old self.new (out.Value value)) }
    {
        Ok(Value::Str(page_text(self.alloc, base)?))
    }

    /// WAP-194, "getReferer".
    pub(crate) fn get_referer(
        &mut self,
        base: &Url,
        referer: Option<&Url>,
    ) -> Result<Value, NoMemory>
        ensures { IfOk result (λ value.
            Gave (get_referer base.now (option_copied referer.entry)) self.old self.new
            (out.Value value)) }
    {
        match referer {
            Some(referer) => Ok(Value::Str(relative(self.alloc, base, referer)?)),
            None => Ok(self.nothing()),
        }
    }

    /// What a page of a URL gives, within the limit of Strings.
    fn loaded_text(&self, url: &Url, page: &Page) -> Result<HostOut, NoMemory>
        ensures is { IfOk result
            (λ out. out ≡ loaded_text self.now.world.limits.string url.now page.now) }
        ensures no_budget { IfOk result IsNoBudget }
    {
        let name = name_of(self.alloc, url)?;
        let value = text_of_page(self.alloc, &name, page)?;
        Ok(self.within(value))
    }

    /// Asks for the page of a URL, and gives its text.
    fn load_from<P: Pages>(&mut self, pages: &mut P, url: &Url) -> Result<HostOut, RunErr>
        ensures serves { Serves
            (λ view. within (loaded (shelf_of view.pages) url.now (fresh view)))
            self.old self.new (P.seen pages.old) (P.seen pages.new) result }
        ensures no_budget { IfOk result IsNoBudget }
    {
        let page = self.ask_for(pages, url)?;
        Ok(self.loaded_text(url, &page)?)
    }

    /// WAP-194, "loadString".
    pub(crate) fn load<P: Pages>(
        &mut self,
        pages: &mut P,
        arguments: &[Value],
    ) -> Result<HostOut, RunErr>
        ensures serves { Serves
            (λ view. within (load_call (shelf_of view.pages) arguments.now (fresh view)))
            self.old self.new (P.seen pages.old) (P.seen pages.new) result }
        ensures no_budget { IfOk result IsNoBudget }
    {
        match loadable_by(self.alloc, arguments)? {
            Some(url) => self.load_from(pages, &url),
            None => Ok(HostOut::Value(Value::Invalid)),
        }
    }
}
