//! Who may enter a page (WAP-191, section 11.3.1).
ghost use Rattle.std.specs.Prelude.{◌≡◌, [], ◌∷◌, unwrap_or, IfOk};
ghost use Rattle.wap_base.specs.Ascii.{slash};
ghost use Rattle.wap_base.specs.Cuts.{begins_with};
ghost use Rattle.wap_url.specs.Characters.{is_slash};
ghost use Rattle.wap_world.specs.Access.{access_text, path_reference, rooted_path};
ghost use Rattle.wap_world.specs.Access.{access_in, access_of, entrance_of, allows, may_enter};

use std::alloc::Global;
use std::marker::Model;
use wap_base::{NoMemory, Text};
use wap_cards::{first_with, value_if};
use wap_deck::good::{AttrName, GoodDeck, Tag, View};
use wap_url::{Access, Url, join};
use wap_vars::Vars;

/// Who may enter a page from another: the domain and the path of an access element, each where it
/// is given.
#[derive(Drop)]
pub struct Entrance {
    /// The end of the host of who enters.
    pub domain: Option<Text>,
    /// The beginning of the path of who enters.
    pub path: Option<Text>,
}

impl Model for Entrance {
    ghost use Rattle.wap_world.specs.Shelves.{Entrance as Shown};

    ghost Value = { Shown };

    ghost view = { λ entrance. record { domain = entrance.domain; path = entrance.path } };
}

/// The value of an attribute, to which references to variables add nothing.
fn access_text(alloc: Global, name: AttrName, node: &View<'_>) -> Result<Option<Text>, NoMemory>
    ensures { IfOk result (λ text. text ≡ access_text name node.now) }
{
    let vars = Vars::new(alloc);
    value_if(alloc, &vars, node, name)
}

/// A reference that is a path and nothing more.
fn path_reference(path: Text) -> Url
    ensures { result ≡ path_reference path }
{
    Url {
        scheme: None,
        host: None,
        port: None,
        path,
        query: None,
        fragment: None,
    }
}

/// Whether a path begins at the root.
fn begins_at_root(path: &Text) -> bool
    ensures { result ≡ begins_with is_slash path.now }
{
    match path.as_str().as_bytes() {
        [] => false,
        [first, ..] => *first == b'/',
    }
}

/// A path that doesn't begin at the root, joined to the page's.
fn rooted_path(alloc: Global, page: &Url, path: Text) -> Result<Text, NoMemory>
    ensures { IfOk result (λ whole. whole ≡ rooted_path page.now path) }
{
    if begins_at_root(&path) {
        return Ok(path);
    }
    let Url { path, .. } = join(alloc, page, &path_reference(path))?;
    Ok(path)
}

/// A domain that is given, or else that of the page.
fn domain_or(alloc: Global, page: &Url, given: Option<Text>) -> Result<Text, NoMemory>
    ensures { IfOk result (λ domain. domain ≡ unwrap_or given (unwrap_or page.now.host [])) }
{
    match given {
        Some(domain) => Ok(domain),
        None => match &page.host {
            Some(host) => host.copy(alloc),
            None => Ok(Text::new(alloc)),
        },
    }
}

/// A path that is given, or else the root.
fn path_or(alloc: Global, given: Option<Text>) -> Result<Text, NoMemory>
    ensures { IfOk result (λ path. path ≡ unwrap_or given (slash ∷ [])) }
{
    match given {
        Some(path) => Ok(path),
        None => {
            let mut root = Text::new(alloc);
            root.push('/')?;
            Ok(root)
        }
    }
}

/// Which domain and path the entrance of a page comes to.
fn access_in(alloc: Global, page: &Url, entrance: Entrance) -> Result<Access, NoMemory>
    ensures { IfOk result (λ access. access ≡ access_in page.now entrance) }
{
    let Entrance { domain, path } = entrance;
    let whole = path_or(alloc, path)?;
    Ok(Access {
        domain: domain_or(alloc, page, domain)?,
        path: rooted_path(alloc, page, whole)?,
    })
}

/// Whether a domain and a path let a caller enter.
fn allows(access: &Access, caller: &Url) -> bool
    ensures { result ≡ allows access.now caller.now }
{
    access.allows(caller)
}

/// The access element of a deck: the first of its first head.
fn access_of(deck: &GoodDeck) -> Option<View<'_>>
    ensures { result ≡ access_of deck.now }
{
    match first_with(&deck.root(), Tag::Head) {
        Some(head) => first_with(&head, Tag::Access),
        None => None,
    }
}

/// Who may enter a deck; without an access element anybody may.
pub fn entrance_of(alloc: Global, deck: &GoodDeck) -> Result<Option<Entrance>, NoMemory>
    ensures { IfOk result (λ entrance. entrance ≡ entrance_of deck.now) }
{
    match access_of(deck) {
        Some(node) => Ok(Some(Entrance {
            domain: access_text(alloc, AttrName::Domain, &node)?,
            path: access_text(alloc, AttrName::Path, &node)?,
        })),
        None => Ok(None),
    }
}

/// Whether a page may be entered from a URL. A user who opens its own URL, from none, always may.
pub fn may_enter(
    alloc: Global,
    page: &Url,
    entrance: Option<Entrance>,
    caller: &Option<Url>,
) -> Result<bool, NoMemory>
    ensures { IfOk result (λ may. may ≡ may_enter page.now entrance caller.now) }
{
    match (caller, entrance) {
        (Some(caller), Some(entrance)) => Ok(allows(&access_in(alloc, page, entrance)?, caller)),
        (Some(_), None) | (None, _) => Ok(true),
    }
}
