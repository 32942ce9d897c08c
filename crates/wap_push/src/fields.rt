//! What the attributes of an indication say.
ghost use Rattle.std.specs.Prelude.{◌≡◌, IfOk};
ghost use Rattle.std.specs.Option.{option_copied};
ghost use Rattle.wap_push.specs.Fields.{is_named, first_of, text_of, action_in, action_of, if_any};
ghost use Rattle.wap_push.specs.Fields.{href_of, identifier_or, created_of};

use crate::codes::{action_named, start_in};
use crate::created::time_in;
use crate::indication::Action;
use crate::names::PushField;
use crate::values::value_text;
use std::alloc::Global;
use wap_base::{NoMemory, Text};
use wap_tokens::markup::Attr;

/// Whether an attribute is this one.
fn is_named(name: PushField, attr: &Attr) -> bool
    ensures { result ≡ is_named name attr.now }
{
    match start_in(attr.page, &attr.start) {
        Some((known, _)) => known == name,
        None => false,
    }
}

/// The first attribute of this name.
fn first_of(name: PushField, attrs: &[Attr]) -> Option<&Attr>
    ensures { option_copied result ≡ first_of name attrs.now }
{
    for attr in attrs {
        if is_named(name, attr) {
            return Some(attr);
        }
    }
    None
}

/// The text of the first attribute of this name; without one, nothing.
pub(crate) fn text_of(alloc: Global, name: PushField, attrs: &[Attr]) -> Result<Text, NoMemory>
    ensures { IfOk result (λ text. text ≡ text_of name attrs.now) }
{
    match first_of(name, attrs) {
        Some(attr) => value_text(alloc, attr),
        None => Ok(Text::new(alloc)),
    }
}

/// What the start of an attribute says of how an indication is to be met.
fn action_in(attr: &Attr) -> Option<Action>
    ensures { result ≡ action_in attr.now }
{
    match start_in(attr.page, &attr.start) {
        Some((_, text)) => action_named(text),
        None => action_named(""),
    }
}

/// How an indication is to be met.
pub(crate) fn action_of(attrs: &[Attr]) -> Action
    ensures { result ≡ action_of attrs.now }
{
    match first_of(PushField::Action, attrs) {
        Some(attr) => action_in(attr).unwrap_or(Action::Medium),
        None => Action::Medium,
    }
}

/// A text, if it has a character.
fn if_any(text: Text) -> Option<Text>
    ensures { result ≡ if_any text }
{
    if text.is_empty() { None } else { Some(text) }
}

/// The URL, as it is spelled, if there is one.
pub(crate) fn href_of(alloc: Global, attrs: &[Attr]) -> Result<Option<Text>, NoMemory>
    ensures { IfOk result (λ href. href ≡ href_of attrs.now) }
{
    Ok(if_any(text_of(alloc, PushField::Href, attrs)?))
}

/// A copy of a text, if there is one.
fn copied(alloc: Global, text: &Option<Text>) -> Result<Option<Text>, NoMemory>
    ensures { IfOk result (λ copy. copy ≡ text.now) }
{
    match text {
        Some(text) => Ok(Some(text.copy(alloc)?)),
        None => Ok(None),
    }
}

/// The identifier, or else the URL.
pub(crate) fn identifier_of(
    alloc: Global,
    attrs: &[Attr],
    href: &Option<Text>,
) -> Result<Option<Text>, NoMemory>
    ensures { IfOk result (λ id. id ≡ identifier_or href.now (text_of PushField.SiId attrs.now)) }
{
    let id = text_of(alloc, PushField::SiId, attrs)?;
    if id.is_empty() {
        copied(alloc, href)
    } else {
        Ok(Some(id))
    }
}

/// The time at which an indication was made, if attributes say one that can be.
pub(crate) fn created_of(attrs: &[Attr]) -> Option<u64>
    ensures { result ≡ created_of attrs.now }
{
    match first_of(PushField::Created, attrs) {
        Some(attr) => time_in(attr.value.as_slice()),
        None => Some(0),
    }
}
