//! What may stand in each element of a good deck (WAP-191, section 11). The profile is wider than
//! the document type of WML 1.3: `pre` may hold what `p` may; em, strong, b, i, u, big and small
//! may hold fields and fieldsets too, and td these and tables; alt and src of img, content of meta
//! and columns of table may be absent.
use crate::markup::{AttrName, Tag};

/// What a text may hold beside its characters.
const FLOW: &[Tag] = &[
    Tag::Em,
    Tag::Strong,
    Tag::B,
    Tag::I,
    Tag::U,
    Tag::Big,
    Tag::Small,
    Tag::Br,
    Tag::Img,
    Tag::Anchor,
    Tag::A,
    Tag::Table,
    Tag::Input,
    Tag::Select,
    Tag::Fieldset,
];

const DO: &[Tag] = &[Tag::Do];

const TASKS: &[Tag] = &[Tag::Go, Tag::Prev, Tag::Noop, Tag::Refresh];

const LINK_TASKS: &[Tag] = &[Tag::Go, Tag::Prev, Tag::Refresh];

const IMAGES: &[Tag] = &[Tag::Br, Tag::Img];

const META: &[Tag] = &[Tag::Access, Tag::Meta];

const ROWS: &[Tag] = &[Tag::Tr];

const CELLS: &[Tag] = &[Tag::Td];

const OPTIONS: &[Tag] = &[Tag::Optgroup, Tag::Option];

const EVENTS: &[Tag] = &[Tag::Onevent];

const TIMER: &[Tag] = &[Tag::Timer];

const PARTS: &[Tag] = &[Tag::Do, Tag::P, Tag::Pre];

const SETVARS: &[Tag] = &[Tag::Setvar];

const FIELDS: &[Tag] = &[Tag::Postfield, Tag::Setvar];

const HEAD: &[Tag] = &[Tag::Head];

const TEMPLATE: &[Tag] = &[Tag::Template];

const CARDS: &[Tag] = &[Tag::Card];

const NONE: &[Tag] = &[];

const HREF: &[AttrName] = &[AttrName::Href];

const TYPE: &[AttrName] = &[AttrName::Type];

const NAME: &[AttrName] = &[AttrName::Name];

const VALUE: &[AttrName] = &[AttrName::Value];

const BOTH: &[AttrName] = &[AttrName::Name, AttrName::Value];

const FREE: &[AttrName] = &[];

const IN_ORDER: bool = true;

const IN_ANY_ORDER: bool = false;

const TEXT: bool = true;

const NO_TEXT: bool = false;

/// A row, on one line.
macro_rules! rule {
    ($tag:ident, $groups:expr, $order:expr, $text:expr, $once:expr, $needs:expr, $attrs:expr) => {
        (Tag::$tag, $groups, $order, $text, $once, $needs, $attrs)
    };
}

/// Each element: the groups of elements that may stand in it, whether in this order, and whether
/// texts may; groups of which one element at most may stand in it; elements of which one at least
/// has to; and the attributes that it has to have. That a deck has a card is another rule.
pub static RULES: [(Tag, &[&[Tag]], bool, bool, &[&[Tag]], &[Tag], &[AttrName]); 36] = [
    rule! { Wml, &[HEAD, TEMPLATE, CARDS], IN_ORDER, NO_TEXT, &[HEAD, TEMPLATE], NONE, FREE },
    rule! { Head, &[META], IN_ANY_ORDER, NO_TEXT, &[], META, FREE },
    rule! { Template, &[DO, EVENTS], IN_ANY_ORDER, NO_TEXT, &[], NONE, FREE },
    rule! { Card, &[EVENTS, TIMER, PARTS], IN_ORDER, NO_TEXT, &[TIMER], NONE, FREE },
    rule! { Do, &[TASKS], IN_ANY_ORDER, NO_TEXT, &[TASKS], TASKS, TYPE },
    rule! { Onevent, &[TASKS], IN_ANY_ORDER, NO_TEXT, &[TASKS], TASKS, TYPE },
    rule! { Go, &[FIELDS], IN_ANY_ORDER, NO_TEXT, &[], NONE, HREF },
    rule! { Prev, &[SETVARS], IN_ANY_ORDER, NO_TEXT, &[], NONE, FREE },
    rule! { Refresh, &[SETVARS], IN_ANY_ORDER, NO_TEXT, &[], NONE, FREE },
    rule! { P, &[FLOW, DO], IN_ANY_ORDER, TEXT, &[], NONE, FREE },
    rule! { Pre, &[FLOW, DO], IN_ANY_ORDER, TEXT, &[], NONE, FREE },
    rule! { Fieldset, &[FLOW, DO], IN_ANY_ORDER, TEXT, &[], NONE, FREE },
    rule! { Em, &[FLOW], IN_ANY_ORDER, TEXT, &[], NONE, FREE },
    rule! { Strong, &[FLOW], IN_ANY_ORDER, TEXT, &[], NONE, FREE },
    rule! { B, &[FLOW], IN_ANY_ORDER, TEXT, &[], NONE, FREE },
    rule! { I, &[FLOW], IN_ANY_ORDER, TEXT, &[], NONE, FREE },
    rule! { U, &[FLOW], IN_ANY_ORDER, TEXT, &[], NONE, FREE },
    rule! { Big, &[FLOW], IN_ANY_ORDER, TEXT, &[], NONE, FREE },
    rule! { Small, &[FLOW], IN_ANY_ORDER, TEXT, &[], NONE, FREE },
    rule! { Td, &[FLOW], IN_ANY_ORDER, TEXT, &[], NONE, FREE },
    rule! { A, &[IMAGES], IN_ANY_ORDER, TEXT, &[], NONE, HREF },
    rule! { Anchor, &[IMAGES, LINK_TASKS], IN_ANY_ORDER, TEXT, &[LINK_TASKS], LINK_TASKS, FREE },
    rule! { Table, &[ROWS], IN_ANY_ORDER, NO_TEXT, &[], ROWS, FREE },
    rule! { Tr, &[CELLS], IN_ANY_ORDER, NO_TEXT, &[], CELLS, FREE },
    rule! { Select, &[OPTIONS], IN_ANY_ORDER, NO_TEXT, &[], OPTIONS, FREE },
    rule! { Optgroup, &[OPTIONS], IN_ANY_ORDER, NO_TEXT, &[], OPTIONS, FREE },
    rule! { Option, &[EVENTS], IN_ANY_ORDER, TEXT, &[], NONE, FREE },
    rule! { Postfield, &[], IN_ANY_ORDER, NO_TEXT, &[], NONE, BOTH },
    rule! { Setvar, &[], IN_ANY_ORDER, NO_TEXT, &[], NONE, BOTH },
    rule! { Input, &[], IN_ANY_ORDER, NO_TEXT, &[], NONE, NAME },
    rule! { Timer, &[], IN_ANY_ORDER, NO_TEXT, &[], NONE, VALUE },
    rule! { Access, &[], IN_ANY_ORDER, NO_TEXT, &[], NONE, FREE },
    rule! { Meta, &[], IN_ANY_ORDER, NO_TEXT, &[], NONE, FREE },
    rule! { Noop, &[], IN_ANY_ORDER, NO_TEXT, &[], NONE, FREE },
    rule! { Br, &[], IN_ANY_ORDER, NO_TEXT, &[], NONE, FREE },
    rule! { Img, &[], IN_ANY_ORDER, NO_TEXT, &[], NONE, FREE },
];
