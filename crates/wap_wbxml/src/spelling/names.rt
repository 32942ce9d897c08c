//! The names that a document has in place of codes.
ghost use Rattle.std.specs.Prelude.{◌≡◌, [], fold, OnOk, OnErr, IfOk};
ghost use Rattle.wap_tokens.specs.markup.Grammar.{with_name};
ghost use Rattle.wap_wbxml.specs.spelling.Names.{with_token, with_attr, with_kid, with_element};
ghost use Rattle.wap_wbxml.specs.spelling.Names.{names_of};

use indexmap::IndexSet;
use std::alloc::Global;
use wap_base::{NoMemory, Text};
use wap_tokens::markup::{Attr, Document, Element, Kid, LEVEL_LIMIT, Token};

/// Adds a name after the others, if it isn't one of them. When out of memory the names stay.
pub fn add_name(alloc: Global, names: &mut IndexSet<Text>, name: &Text) -> Result<(), NoMemory>
    ensures ok { OnOk result (names.new.keys ≡ with_name names.old.keys name.now) }
    ensures kept { OnErr result (names.new.keys ≡ names.old.keys) }
{
    if names.contains(name) {
        return Ok(());
    }
    match names.insert(name.copy(alloc)?) {
        Ok(_) => Ok(()),
        Err(_) => Err(NoMemory),
    }
}

/// Adds the name of a token, if it is one.
fn add_token(alloc: Global, names: &mut IndexSet<Text>, token: &Token) -> Result<(), NoMemory>
    ensures { OnOk result (names.new.keys ≡ with_token names.old.keys token.now) }
{
    match token {
        Token::Code(_) => Ok(()),
        Token::Literal(name) => add_name(alloc, names, name),
    }
}

/// Adds the names of attributes.
fn add_attrs(alloc: Global, names: &mut IndexSet<Text>, attrs: &[Attr]) -> Result<(), NoMemory>
    ensures { OnOk result (names.new.keys ≡ fold with_attr names.old.keys attrs.now) }
{
    for attr in attrs {
        add_token(alloc, names, &attr.start)?;
    }
    Ok(())
}

/// Adds the names of an element of so many levels: its tag's, its attributes', its content's.
#[cycle(elements)]
#[tactic(auto, unfolding(crate::specs::spelling::Names::with_element))]
fn add_element(
    alloc: Global,
    names: &mut IndexSet<Text>,
    levels: u32,
    element: &Element,
) -> Result<(), NoMemory>
    ensures { OnOk result (names.new.keys ≡ with_element levels names.old.keys element.now) }
{
    if levels == 0 {
        return Ok(());
    }
    add_token(alloc, names, &element.tag)?;
    add_attrs(alloc, names, element.attrs.as_slice())?;
    add_kids(alloc, names, levels - 1, element.kids.as_slice())
}

/// Adds the names of content, its elements of so many levels.
#[cycle(elements)]
fn add_kids(
    alloc: Global,
    names: &mut IndexSet<Text>,
    levels: u32,
    kids: &[Kid],
) -> Result<(), NoMemory>
    ensures { let all = fold (with_kid (with_element levels)) names.old.keys kids.now in
        OnOk result (names.new.keys ≡ all) }
{
    for kid in kids {
        add_kid(alloc, names, levels, kid)?;
    }
    Ok(())
}

/// Adds the names of a part of content, an element of so many levels.
#[cycle(elements)]
fn add_kid(
    alloc: Global,
    names: &mut IndexSet<Text>,
    levels: u32,
    kid: &Kid,
) -> Result<(), NoMemory>
    ensures { OnOk result (names.new.keys ≡ with_kid (with_element levels) names.old.keys kid.now) }
{
    match kid {
        Kid::Element(element) => add_element(alloc, names, levels, element),
        Kid::Pi(attr) => add_token(alloc, names, &attr.start),
        Kid::Str(_) | Kid::Entity(_) | Kid::Var(_, _) | Kid::Ext(_) | Kid::Opaque(_) => Ok(()),
    }
}

/// The names of a document, each once, in the order of first use.
pub(crate) fn names_of(alloc: Global, document: &Document) -> Result<IndexSet<Text>, NoMemory>
    ensures { IfOk result (λ names. names.keys ≡ names_of document.now) }
{
    let mut names = IndexSet::new(alloc);
    add_element(alloc, &mut names, LEVEL_LIMIT, &document.root)?;
    Ok(names)
}
