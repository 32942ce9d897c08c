//! What goes with a change: texts, elements and attributes.
ghost use Rattle.std.specs.Prelude.{◌≡◌, ◌++◌, ◌∷◌, [], map, IfOk, OnOk};
ghost use Rattle.wap_mend.specs.Accounts.{signs_of};
ghost use Rattle.wap_mend.specs.inside.Frames.{nothing, both, text_load, rows_load, load_lost};
ghost use Rattle.wap_mend.specs.inside.Frames.{given_items, given_node, IsSame};

use crate::change::{Attribute, Lost};
use crate::values::{copied, copied_part};
use std::alloc::Global;
use wap_base::{NoMemory, Part, Rows};
use wap_tokens::markup::{AttrName, Item, Node, Tag};

/// Adds items, of so many levels.
#[cycle(lost)]
#[tactic(auto, using(crate::proofs::Collecting::item_more))]
fn add_items(alloc: Global, levels: u32, items: &[Item], lost: &mut Lost) -> Result<(), NoMemory>
    ensures { OnOk result
        (IsSame (load_lost lost.new) (both (load_lost lost.old) (given_items levels items.now))) }
{
    for item in items {
        add_item(alloc, levels, item, lost)?;
    }
    Ok(())
}

/// Adds an item, of so many levels.
#[cycle(lost)]
#[tactic(auto, using(crate::proofs::Collecting::text_more, crate::proofs::Collecting::one_more))]
fn add_item(alloc: Global, levels: u32, item: &Item, lost: &mut Lost) -> Result<(), NoMemory>
    ensures { OnOk result
        (IsSame (load_lost lost.new)
        (both (load_lost lost.old) (given_items levels (item.now ∷ [])))) }
{
    match item {
        Item::Text(parts) => add_parts(alloc, parts.as_slice(), &mut lost.texts),
        Item::Node(node) => add_node(alloc, levels, node, lost),
    }
}

/// Adds a node, of so many levels.
#[cycle(lost)]
#[tactic(auto, using(crate::proofs::Collecting::dressed_more))]
fn add_node(alloc: Global, levels: u32, node: &Node, lost: &mut Lost) -> Result<(), NoMemory>
    ensures { OnOk result
        (IsSame (load_lost lost.new) (both (load_lost lost.old) (given_node levels node.now))) }
{
    add_attributes(alloc, node.tag, node.attrs.as_slice(), &mut lost.attributes)?;
    add_bare(alloc, levels, node, lost)
}

/// Adds a node, of so many levels, without its own attributes.
#[cycle(lost)]
#[tactic(auto, using(crate::proofs::Collecting::node_alone, crate::proofs::Collecting::node_more))]
fn add_bare(alloc: Global, levels: u32, node: &Node, lost: &mut Lost) -> Result<(), NoMemory>
    ensures { OnOk result (IsSame (load_lost lost.new)
        (both (load_lost lost.old) (given_node levels (record node.now { attrs = [] })))) }
{
    lost.elements.add(node.tag)?;
    if levels == 0 {
        return Ok(());
    }
    add_items(alloc, levels - 1, node.kids.as_slice(), lost)
}

/// Adds attributes of an element of a tag, as copies.
fn add_attributes(
    alloc: Global,
    tag: Tag,
    rows: &[(AttrName, Rows<Part>)],
    attributes: &mut Rows<Attribute>,
) -> Result<(), NoMemory>
    ensures { OnOk result
        (attributes.new ≡ attributes.old ++ map (λ row. (tag, row.0, row.1)) rows.now) }
{
    for row in rows {
        attributes.add((tag, row.0, copied(alloc, row.1.as_slice())?))?;
    }
    Ok(())
}

/// Adds parts, as copies.
fn add_parts(alloc: Global, parts: &[Part], texts: &mut Rows<Part>) -> Result<(), NoMemory>
    ensures { OnOk result (signs_of texts.new ≡ signs_of texts.old ++ signs_of parts.now) }
{
    for part in parts {
        texts.add(copied_part(alloc, part)?)?;
    }
    Ok(())
}

impl Lost {
    /// Nothing.
    pub(crate) fn new(alloc: Global) -> Lost
        ensures { load_lost result ≡ nothing }
    {
        Lost {
            texts: Rows::new(alloc),
            elements: Rows::new(alloc),
            attributes: Rows::new(alloc),
        }
    }

    /// A text.
    pub(crate) fn of_text(alloc: Global, parts: &[Part]) -> Result<Lost, NoMemory>
        ensures { IfOk result (λ lost. load_lost lost ≡ text_load parts.now) }
    {
        Ok(Lost {
            texts: copied(alloc, parts)?,
            elements: Rows::new(alloc),
            attributes: Rows::new(alloc),
        })
    }

    /// Attributes of an element of a tag.
    #[tactic(auto, using(crate::proofs::Collecting::rows_lost))]
    pub(crate) fn of_attributes(
        alloc: Global,
        tag: Tag,
        rows: &[(AttrName, Rows<Part>)],
    ) -> Result<Lost, NoMemory>
        ensures { IfOk result (λ lost. load_lost lost ≡ rows_load tag rows.now) }
    {
        let mut lost = Lost::new(alloc);
        add_attributes(alloc, tag, rows, &mut lost.attributes)?;
        Ok(lost)
    }

    /// A node of so many levels, with all that is in it.
    #[tactic(auto, using(crate::proofs::Collecting::same_alone))]
    pub(crate) fn of_node(alloc: Global, levels: u32, node: &Node) -> Result<Lost, NoMemory>
        ensures { IfOk result (λ lost. IsSame (load_lost lost) (given_node levels node.now)) }
    {
        let mut lost = Lost::new(alloc);
        add_node(alloc, levels, node, &mut lost)?;
        Ok(lost)
    }

    /// The same without its own attributes.
    #[tactic(auto, using(crate::proofs::Collecting::same_alone))]
    pub(crate) fn of_bare(alloc: Global, levels: u32, node: &Node) -> Result<Lost, NoMemory>
        ensures { IfOk result (λ lost.
            IsSame (load_lost lost) (given_node levels (record node.now { attrs = [] }))) }
    {
        let mut lost = Lost::new(alloc);
        add_bare(alloc, levels, node, &mut lost)?;
        Ok(lost)
    }
}
