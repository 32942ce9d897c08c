//! Ids and names that are taken.
ghost use Rattle.std.specs.Prelude.{◌≡◌, ◌++◌, ◌↔◌, [], true, false, IsTrue, IfOk, encode_utf8_all};
ghost use Rattle.std.specs.List.{list_any};
ghost use Rattle.std.specs.Str.{chars, all_scalars};
ghost use Rattle.wap_base.specs.Texts.{is_same_text};
ghost use Rattle.std.specs.Option.{option_to_list, option_copied};
ghost use Rattle.wap_tokens.specs.markup.Good.{name_of_do};
ghost use Rattle.wap_tokens.specs.markup.Trees.{value_of, plain_text, plain_value};
ghost use Rattle.wap_deckcheck.specs.Faults.{is_taken};
ghost use Rattle.wap_deckcheck.specs.Places.{own_id, own_name};

use indexmap::IndexSet;
use std::alloc::Global;
use std::hash::{Hash, Hasher};
use std::marker::Model;
use wap_base::{NoMemory, Part, Rows, Text};
use wap_tokens::markup::{AttrName, Node, Tag};

/// An id or a name that a deck has. A contract sees its text.
#[derive(Drop)]
pub struct Label<'a> {
    /// None where the value is empty.
    text: Option<&'a Text>,
}

impl<'a> Model for Label<'a> {
    ghost use Rattle.std.specs.Prelude.{List, ℕ, []};
    ghost use Rattle.std.specs.Option.{option_copied, unwrap_or};

    ghost Value = { List ℕ };

    ghost view = { λ label. unwrap_or (option_copied label.text) [] };
}

impl<'a> Label<'a> {
    /// The text's UTF-8.
    fn as_str(&self) -> &'a str
        ensures bytes { result.now ≡ encode_utf8_all self.now }
        ensures characters { chars result.now ≡ self.now }
        ensures scalars { all_scalars self.now ≡ true }
    {
        match self.text {
            Some(text) => text.as_str(),
            None => "",
        }
    }
}

impl<'a> PartialEq for Label<'a> {
    ghost use Rattle.std.specs.Cmp.{partial_equiv_from_equiv};
    ghost use Rattle.std.specs.Cmp.Lexicographic.{nat_list_eq_equiv};
    ghost use Rattle.wap_base.specs.Texts.{is_same_text};

    ghost eq = { is_same_text };

    ghost laws = { partial_equiv_from_equiv nat_list_eq_equiv };

    fn eq(&self, other: &Label<'a>) -> bool {
        self.as_str() == other.as_str()
    }
}

impl<'a> Eq for Label<'a> {
    ghost use Rattle.std.specs.Cmp.Lexicographic.{nat_list_eq_equiv};

    ghost laws = { nat_list_eq_equiv };
}

impl<'a> Hash for Label<'a> {
    ghost use Rattle.std.specs.Prelude.{encode_utf8_all};
    ghost use Rattle.std.specs.Hash as fed;
    ghost use Rattle.std.specs.Cmp.Lexicographic.{bytes_decides};
    ghost use Rattle.std.proofs.Common.{ap};

    ghost hash_input = { λ text. fed.str (encode_utf8_all text) };

    ghost respects_eq = { λ a b same.
        ap (λ text. fed.str (encode_utf8_all text)) ((bytes_decides a b).0 same) };

    fn hash<H: Hasher>(&self, state: &mut H) {
        self.as_str().hash(state);
    }
}

/// Ids or names, each of which stands once, in the order in which they came.
#[derive(Drop)]
pub struct Names<'a> {
    first: Option<Label<'a>>,
    others: IndexSet<Label<'a>>,
}

impl<'a> Model for Names<'a> {
    ghost use Rattle.std.specs.Prelude.{List, ℕ, ◌++◌};
    ghost use Rattle.std.specs.Option.{option_to_list};

    ghost Value = { List (List ℕ) };

    ghost view = { λ names. option_to_list names.first ++ names.others.keys };
}

impl<'a> Names<'a> {
    /// No name yet, and the allocator for those to come.
    pub fn new(alloc: Global) -> Names<'a>
        ensures { result ≡ [] }
    {
        Names {
            first: None,
            others: IndexSet::new(alloc),
        }
    }

    /// Whether there is none.
    fn is_empty(&self) -> bool
        ensures { IsTrue result ↔ (self.now ≡ []) }
    {
        self.first.is_none() && self.others.is_empty()
    }

    /// Adds an id or a name, if there is one. The answer is whether it is taken already, in which
    /// case none is added.
    pub fn take(&mut self, label: Option<Label<'a>>) -> Result<bool, NoMemory>
        ensures taken { IfOk result (λ taken. taken ≡ is_taken self.old label.entry) }
        ensures added { IfOk result (λ taken.
            taken ≡ false → self.new ≡ self.old ++ option_to_list label.entry) }
    {
        let Some(label) = label else {
            return Ok(false);
        };
        if self.is_empty() {
            self.first = Some(label);
            return Ok(false);
        }
        if is_this(&self.first, &label) {
            return Ok(true);
        }
        match self.others.insert(label) {
            Ok(added) => Ok(!added),
            Err(_) => Err(NoMemory),
        }
    }
}

/// Whether there is a text, and another is the same.
fn is_this(one: &Option<Label<'_>>, other: &Label<'_>) -> bool
    ensures { result ≡ list_any (is_same_text other.now) (option_to_list one.now) }
{
    match one {
        Some(one) => other == one,
        None => false,
    }
}

/// A value's text, where it has no reference and no two literals.
fn plain_text(parts: &[Part]) -> Option<Label<'_>>
    ensures { result ≡ plain_text parts.now }
{
    match parts {
        [] => Some(Label { text: None }),
        [Part::Lit(text)] => Some(Label { text: Some(text) }),
        _ => None,
    }
}

/// The value of a node's first attribute of this name.
fn value_of(name: AttrName, node: &Node) -> Option<&Rows<Part>>
    ensures { option_copied result ≡ value_of name node.now }
{
    node.attrs
        .as_slice()
        .iter()
        .find(|attr| attr.0 == name)
        .map(|attr| &attr.1)
}

/// The text of an attribute, if it is there and plain.
fn plain_value(name: AttrName, node: &Node) -> Option<Label<'_>>
    ensures { result ≡ plain_value name node.now }
{
    match value_of(name, node) {
        Some(value) => plain_text(value.as_slice()),
        None => None,
    }
}

/// The id of a card.
pub(crate) fn own_id(node: &Node) -> Option<Label<'_>>
    ensures { result ≡ own_id node.now }
{
    if node.tag == Tag::Card {
        plain_value(AttrName::Id, node)
    } else {
        None
    }
}

/// The name of a do, or else its type.
fn name_of_do(node: &Node) -> Option<Label<'_>>
    ensures { result ≡ name_of_do node.now }
{
    match value_of(AttrName::Name, node) {
        Some(value) => plain_text(value.as_slice()),
        None => plain_value(AttrName::Type, node),
    }
}

/// The name of a do, where names are told apart.
pub(crate) fn own_name(apart: bool, node: &Node) -> Option<Label<'_>>
    ensures { result ≡ own_name apart node.now }
{
    if apart && node.tag == Tag::Do {
        name_of_do(node)
    } else {
        None
    }
}
