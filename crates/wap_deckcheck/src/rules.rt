//! The rules of elements, as their table has them.
ghost use Rattle.std.specs.Prelude.{◌≡◌, ◌&&◌, ◌||◌, not, nat_le, [], ◌∷◌, ◌++◌, map};
ghost use Rattle.std.specs.Prelude.{is_some, IfSome};
ghost use Rattle.std.specs.Map.{lookup};
ghost use Rattle.std.specs.List.{list_any, list_all, position_from};
ghost use Rattle.std.specs.Str.{chars};
ghost use Rattle.wap_tokens.specs.markup.Good.{is_among, place_in, tags_of, rule_of, may_follow};
ghost use Rattle.wap_tokens.specs.markup.Good.{stands};
ghost use Rattle.wap_tokens.specs.markup.Good.{is_blank, is_blank_text, has_attribute};
ghost use Rattle.wap_tokens.specs.markup.Good.{has_needs, holds_dos};
ghost use Rattle.wap_tokens.specs.markup.Tables.{is_same_tag};
ghost use Rattle.wap_tokens.specs.markup.Trees.{node_of, words_of};
ghost use Rattle.wap_deckcheck.specs.inside.Rows.{groups_of, rule_row};
ghost use Rattle.wap_deckcheck.specs.Reached.{is_used_with, HasReached, IsReachedBy};

use std::marker::Model;
use wap_base::Part;
use wap_tokens::markup::{AttrName, Item, Node, RULES, Tag};

/// What may stand in an element. A contract sees the rule.
#[derive(Drop)]
pub struct Rule {
    groups: &'static [&'static [Tag]],
    in_order: bool,
    text: bool,
    once: &'static [&'static [Tag]],
    needs: &'static [Tag],
    attributes: &'static [AttrName],
}

impl Model for Rule {
    ghost use Rattle.wap_tokens.specs.markup.Good.{Rule as Told};
    ghost use Rattle.wap_deckcheck.specs.inside.Rows.{groups_of};

    ghost Value = { Told };

    ghost view = { λ rule. record {
      groups = groups_of rule.groups.now;
      in_order = rule.in_order;
      text = rule.text;
      once = groups_of rule.once.now;
      needs = rule.needs.now;
      attributes = rule.attributes.now;
    } };
}

/// A row of the table.
type Row = (
    Tag,
    &'static [&'static [Tag]],
    bool,
    bool,
    &'static [&'static [Tag]],
    &'static [Tag],
    &'static [AttrName],
);

/// The rule beside a tag.
fn rule_beside(rows: &[Row], tag: Tag) -> Option<Rule>
    ensures { result ≡ lookup (is_same_tag tag) (map rule_row rows.now) }
{
    for row in rows {
        if tag == row.0 {
            return Some(Rule {
                groups: row.1,
                in_order: row.2,
                text: row.3,
                once: row.4,
                needs: row.5,
                attributes: row.6,
            });
        }
    }
    None
}

/// Whether a tag is among some.
fn is_among(group: &[Tag], tag: Tag) -> bool
    ensures { result ≡ is_among group.now tag }
{
    group.iter().any(|one| tag == *one)
}

/// The number of the group in which a tag is.
fn place_in(groups: &[&[Tag]], tag: Tag) -> Option<usize>
    ensures { result ≡ position_from (λ group. is_among group tag) 0 (groups_of groups.now) }
{
    for (place, group) in groups.iter().enumerate() {
        if is_among(group, tag) {
            return Some(place);
        }
    }
    None
}

/// Whether an element among items has a tag of a group.
#[tactic(auto, using(wap_deck::proofs::GoodLemmas::Layers::out_node, wap_deck::proofs::GoodLemmas::Layers::out_text))]
fn is_used(group: &[Tag], items: &[Item]) -> bool
    ensures { result ≡ list_any (is_among group.now) (tags_of items.now) }
{
    for item in items {
        if let Item::Node(node) = item {
            if is_among(group, node.tag) {
                return true;
            }
        }
    }
    false
}

/// Whether a group that holds a tag is used among items.
fn is_used_with(groups: &[&[Tag]], items: &[Item], tag: Tag) -> bool
    ensures { result ≡ is_used_with (groups_of groups.now) tag (tags_of items.now) }
{
    for group in groups {
        if is_among(group, tag) {
            if is_used(group, items) {
                return true;
            }
        }
    }
    false
}

/// Whether a character is a blank.
fn is_blank(c: char) -> bool
    ensures { result ≡ is_blank c }
{
    (c == ' ' || c == '\t') || (c == '\r' || c == '\n')
}

/// Whether a text has blanks alone.
fn are_blanks(text: &str) -> bool
    ensures { result ≡ list_all is_blank (chars text.now) }
{
    text.chars().all(|c| is_blank(c))
}

/// Whether a text is one literal of blanks, which may stand anywhere.
pub fn is_blank_text(parts: &[Part]) -> bool
    ensures { result ≡ is_blank_text parts.now }
{
    match parts {
        [Part::Lit(text)] => are_blanks(text.as_str()),
        _ => false,
    }
}

impl Rule {
    /// The rule of an element.
    pub fn of(tag: Tag) -> Rule
        ensures { result ≡ rule_of tag }
    {
        match rule_beside(&RULES, tag) {
            Some(rule) => rule,
            None => Rule {
                groups: &[],
                in_order: false,
                text: false,
                once: &[],
                needs: &[],
                attributes: &[],
            },
        }
    }

    /// Whether its groups of elements come in their order.
    pub fn is_in_order(&self) -> bool
        ensures { result ≡ self.now.in_order }
    {
        self.in_order
    }

    /// Whether texts may stand in it.
    pub fn has_text(&self) -> bool
        ensures { result ≡ self.now.text }
    {
        self.text
    }

    /// The attributes that it has to have.
    pub fn needed_attributes(&self) -> &'static [AttrName]
        ensures { result.now ≡ self.now.attributes }
    {
        self.attributes
    }

    /// The elements of which one at least has to stand in it, if there are any.
    pub fn needed(&self) -> &'static [Tag]
        ensures { result.now ≡ self.now.needs }
    {
        self.needs
    }

    /// The number of the group in which a tag is.
    pub fn place_of(&self, tag: Tag) -> Option<usize>
        ensures { result ≡ place_in self.now.groups tag }
    {
        place_in(self.groups, tag)
    }

    /// Whether an element of a group may stand after items.
    fn admits(&self, place: usize, reached: usize, earlier: &[Item], tag: Tag) -> bool
        ensures { result ≡ ((not self.now.in_order || nat_le reached place)
            && not (is_used_with self.now.once tag (tags_of earlier.now))) }
    {
        if self.in_order && place < reached {
            return false;
        }
        !is_used_with(self.once, earlier, tag)
    }

    /// The place that is reached with an element after items, if it may stand there.
    pub fn reach(&self, reached: usize, earlier: &[Item], tag: Tag) -> Option<usize>
        requires { HasReached self.now earlier.now reached }
        ensures follows { is_some result ≡ may_follow self.now (tags_of earlier.now) tag }
        ensures reached { IfSome result (λ next. IsReachedBy self.now reached tag next) }
    {
        let Some(place) = self.place_of(tag) else {
            return None;
        };
        if self.admits(place, reached, earlier, tag) {
            Some(place.max(reached))
        } else {
            None
        }
    }

    /// The place that is reached with an item after others, if it may stand there.
    pub fn reach_item(&self, reached: usize, earlier: &[Item], item: &Item) -> Option<usize>
        requires { HasReached self.now earlier.now reached }
        ensures stands { is_some result
            ≡ stands self.now earlier.now (node_of item.now) (words_of item.now) }
        ensures reached { IfSome result (HasReached self.now (earlier.now ++ item.now ∷ [])) }
    {
        match item {
            Item::Node(node) => self.reach(reached, earlier, node.tag),
            Item::Text(parts) => {
                if self.text || is_blank_text(parts.as_slice()) {
                    Some(reached)
                } else {
                    None
                }
            }
        }
    }
}

/// Whether a node has an attribute of this name.
fn has_attribute(node: &Node, name: AttrName) -> bool
    ensures { result ≡ has_attribute node.now name }
{
    for attr in node.attrs.as_slice() {
        if attr.0 == name {
            return true;
        }
    }
    false
}

/// Whether a node has all these attributes.
fn has_all(node: &Node, names: &[AttrName]) -> bool
    ensures { result ≡ list_all (has_attribute node.now) names.now }
{
    for name in names {
        if !has_attribute(node, *name) {
            return false;
        }
    }
    true
}

/// Whether a node has all that its rule asks for.
pub fn has_needs(rule: &Rule, node: &Node) -> bool
    ensures { result ≡ has_needs rule.now node.now }
{
    has_all(node, rule.attributes)
        && (rule.needs.is_empty() || is_used(rule.needs, node.kids.as_slice()))
}

/// Whether the names of the dos in an element are told apart.
pub(crate) fn holds_dos(tag: Tag) -> bool
    ensures { result ≡ holds_dos tag }
{
    tag == Tag::Card || tag == Tag::Template
}
