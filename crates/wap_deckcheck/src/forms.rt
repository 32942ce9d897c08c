//! The values that attributes may have.
ghost use Rattle.std.specs.Prelude.{◌≡◌, ◌||◌, [], ◌∷◌, true, not, map, is_none, IfSome};
ghost use Rattle.std.specs.List.{list_any, list_all};
ghost use Rattle.std.specs.Str.{bytes_eq};
ghost use Rattle.wap_base.specs.Texts.{is_same_text};
ghost use Rattle.wap_tokens.specs.markup.Trees.{plain_text};
ghost use Rattle.wap_tokens.specs.markup.Tables.{is_same_attr};
ghost use Rattle.wap_tokens.specs.markup.Good.{text_has, value_has, all_have, names_of, has_forms};
ghost use Rattle.wap_deckcheck.specs.inside.Rows.{has_plain_words};
ghost use Rattle.wap_deckcheck.specs.Forms.{words_of, form_of, forms_of, IsWrong};
ghost use Rattle.wap_deckcheck.specs.Faults.{has_twice};

use wap_base::{Part, Rows, Text, is_name};
use wap_tokens::markup::{AttrName, Node, Tag};

/// What a value has to be.
#[derive(Clone, Copy)]
pub enum LentForm {
    /// One of these words.
    Words(&'static [&'static str]),
    /// The name of a variable.
    Variable,
    /// The name of a variable, or nothing.
    OptionalVariable,
    /// A text without references.
    Plain,
}

const BOOLEANS: LentForm = LentForm::Words(&["true", "false"]);

/// The name and the value of an attribute.
type Attribute = (AttrName, Rows<Part>);

/// An attribute that has a form.
type Row = (AttrName, LentForm);

static GO: [Row; 2] = [
    (AttrName::Method, LentForm::Words(&["get", "post"])),
    (AttrName::Sendreferer, BOOLEANS),
];

static P: [Row; 1] = [(AttrName::Mode, LentForm::Words(&["wrap", "nowrap"]))];

static CARD: [Row; 2] = [
    (AttrName::Newcontext, BOOLEANS),
    (AttrName::Id, LentForm::Plain),
];

static DO: [Row; 3] = [
    (AttrName::Optional, BOOLEANS),
    (AttrName::Name, LentForm::Plain),
    (AttrName::Type, LentForm::Plain),
];

static ONEVENT: [Row; 1] = [(AttrName::Type, LentForm::Plain)];

static INPUT: [Row; 2] = [
    (AttrName::Emptyok, BOOLEANS),
    (AttrName::Name, LentForm::Variable),
];

static TIMER: [Row; 1] = [(AttrName::Name, LentForm::OptionalVariable)];

static SELECT: [Row; 3] = [
    (AttrName::Multiple, BOOLEANS),
    (AttrName::Name, LentForm::OptionalVariable),
    (AttrName::Iname, LentForm::OptionalVariable),
];

/// The attributes of an element that have a form.
fn rows_of(tag: Tag) -> &'static [Row]
    ensures plain { list_all (λ row. has_plain_words row.1) result.now ≡ true }
    ensures rows { forms_of tag ≡ map (λ row. (row.0, form_of row.1)) result.now }
{
    match tag {
        Tag::Go => &GO,
        Tag::P => &P,
        Tag::Card => &CARD,
        Tag::Do => &DO,
        Tag::Onevent => &ONEVENT,
        Tag::Input => &INPUT,
        Tag::Timer => &TIMER,
        Tag::Select => &SELECT,
        _ => &[],
    }
}

/// Whether an attribute stands twice.
pub(crate) fn has_twice(attrs: &[Attribute]) -> bool
    ensures { result ≡ has_twice (map (λ a. a.0) attrs.now) }
{
    let mut left = attrs;
    while let Some((first, rest)) = left.split_first() {
        if has_name(rest, first.0) {
            return true;
        }
        left = rest;
    }
    false
}

/// Whether there is an attribute of this name.
pub(crate) fn has_name(attrs: &[Attribute], name: AttrName) -> bool
    ensures { result ≡ list_any (is_same_attr name) (map (λ a. a.0) attrs.now) }
{
    for attr in attrs {
        if name == attr.0 {
            return true;
        }
    }
    false
}

/// Whether a text is one of some words.
fn is_word(words: &[&str], text: &str) -> bool
    ensures { result ≡ list_any (bytes_eq text.now) (words_of words.now) }
{
    for word in words {
        if text == *word {
            return true;
        }
    }
    false
}

/// Whether one of some words is empty.
fn has_empty(words: &[&str]) -> bool
    ensures { result ≡ list_any (is_same_text []) (words_of words.now) }
{
    for word in words {
        if word.is_empty() {
            return true;
        }
    }
    false
}

/// Whether a text is of a form.
fn text_has(form: &LentForm, text: &Text) -> bool
    requires { has_plain_words form.now ≡ true }
    ensures { result ≡ text_has (form_of form.now) text.now }
{
    let bytes = text.as_str();
    match form {
        LentForm::Words(words) => is_word(words, bytes),
        LentForm::Variable => is_name(bytes.as_bytes()),
        LentForm::OptionalVariable => is_name(bytes.as_bytes()) || text.is_empty(),
        LentForm::Plain => true,
    }
}

/// Whether the empty text is of a form.
fn nothing_has(form: &LentForm) -> bool
    requires { has_plain_words form.now ≡ true }
    ensures { result ≡ text_has (form_of form.now) [] }
{
    match form {
        LentForm::Words(words) => has_empty(words),
        LentForm::Variable => false,
        LentForm::OptionalVariable | LentForm::Plain => true,
    }
}

/// Whether a value is of a form.
fn value_has(form: &LentForm, parts: &[Part]) -> bool
    requires { has_plain_words form.now ≡ true }
    ensures { result ≡ value_has (form_of form.now) (plain_text parts.now) }
{
    match parts {
        [] => nothing_has(form),
        [Part::Lit(text)] => text_has(form, text),
        _ => false,
    }
}

/// The first value of this name that isn't of a form, with its attribute.
fn wrong_of<'a>(name: AttrName, form: &LentForm, attrs: &'a [Attribute]) -> Option<&'a Attribute>
    requires { has_plain_words form.now ≡ true }
    ensures none { is_none result ≡ list_all (λ a. not (is_same_attr a.0 name)
        || value_has (form_of form.now) (plain_text a.1)) attrs.now }
    ensures wrong { IfSome result (λ found.
        IsWrong ((name, form_of form.now) ∷ []) attrs.now found.now (form_of form.now)) }
{
    for attr in attrs {
        if attr.0 == name && !value_has(form, attr.1.as_slice()) {
            return Some(attr);
        }
    }
    None
}

/// The first attribute of a node that has a form in some rows and isn't of it, by the order of the
/// rows, with that form.
fn wrong_in<'a>(rows: &[Row], node: &'a Node) -> Option<(&'a Attribute, LentForm)>
    requires { list_all (λ row. has_plain_words row.1) rows.now ≡ true }
    ensures none { is_none result
        ≡ list_all (λ row. all_have row.0 (form_of row.1) node.now) rows.now }
    ensures wrong { IfSome result (λ found. IsWrong (map (λ row. (row.0, form_of row.1)) rows.now)
        node.now.attrs found.0.now (form_of found.1)) }
{
    for row in rows {
        if let Some(attr) = wrong_of(row.0, &row.1, node.attrs.as_slice()) {
            return Some((attr, row.1));
        }
    }
    None
}

/// An attribute of an element whose value isn't of the form that it has to be of, and that form:
/// none where each value may stand there.
pub fn wrong_value(node: &Node) -> Option<(&Attribute, LentForm)>
    ensures none { is_none result ≡ has_forms node.now }
    ensures wrong { IfSome result (λ found.
        IsWrong (forms_of node.now.tag) node.now.attrs found.0.now (form_of found.1)) }
{
    wrong_in(rows_of(node.tag), node)
}
