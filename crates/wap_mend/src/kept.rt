//! Attributes of an element as they are put together: of a kind that documents can mean, each once
//! and with a value that it may have.
ghost use Rattle.std.specs.Prelude.{◌≡◌, [], ◌∷◌, ◌++◌, false, not, filter, IfOk, OnOk};
ghost use Rattle.std.specs.Option.{option_copied};
ghost use Rattle.wap_tokens.specs.markup.Normal.{IsAttribute};
ghost use Rattle.wap_mend.specs.inside.Building.{Kept, IsKept, Suits, is_named, value_among};
ghost use Rattle.wap_mend.specs.inside.Building.{has_name};
ghost use Rattle.wap_mend.specs.inside.Frames.{load_lost, rows_load};

use crate::change::Lost;
use crate::values::copied;
use std::alloc::Global;
use std::marker::Model;
use wap_base::{NoMemory, Part, Rows};
use wap_tokens::markup::{AttrName, Tag};

/// Attributes of an element. A contract sees its tag and them.
#[derive(Drop)]
pub(crate) struct Attributes {
    tag: Tag,
    rows: Rows<(AttrName, Rows<Part>)>,
}

impl Model for Attributes {
    ghost use Rattle.wap_mend.specs.inside.Building.{Kept, IsKept};

    ghost Value = { Kept };

    ghost view = { λ attributes. record { tag = attributes.tag; rows = attributes.rows } };

    ghost invariant = { λ attributes. IsKept attributes.tag attributes.rows };
}

impl Attributes {
    /// None yet.
    pub(crate) fn new(alloc: Global, tag: Tag) -> Attributes
        ensures { result ≡ record { tag = tag; rows = [] } }
    {
        Attributes {
            tag,
            rows: Rows::new(alloc),
        }
    }

    /// The tag of the element.
    pub(crate) fn tag(&self) -> Tag
        ensures { result ≡ self.now.tag }
    {
        self.tag
    }

    /// The attributes.
    pub(crate) fn into_rows(self) -> Rows<(AttrName, Rows<Part>)>
        ensures rows { result ≡ self.rows }
        ensures kept { IsKept self.tag result }
    {
        let Attributes { rows, .. } = self;
        rows
    }

    /// The value of an attribute.
    pub(crate) fn value_of(&self, name: AttrName) -> Option<&Rows<Part>>
        ensures { option_copied result ≡ value_among name self.now.rows }
    {
        self.rows
            .as_slice()
            .iter()
            .find(|attribute| attribute.0 == name)
            .map(|attribute| &attribute.1)
    }

    /// Whether there is an attribute of a name.
    pub(crate) fn has(&self, name: AttrName) -> bool
        ensures { result ≡ has_name name self.now.rows }
    {
        self.rows
            .as_slice()
            .iter()
            .any(|attribute| attribute.0 == name)
    }

    /// Adds an attribute that isn't there.
    pub(crate) fn add(&mut self, attribute: (AttrName, Rows<Part>)) -> Result<(), NoMemory>
        requires fits { IsAttribute attribute }
        requires suits { Suits self.old.tag attribute }
        requires free { has_name attribute.0 self.old.rows ≡ false }
        ensures { OnOk result (self.new
            ≡ record { tag = self.old.tag; rows = self.old.rows ++ attribute ∷ [] }) }
    {
        self.rows.add(attribute)
    }

    /// A copy, without the attribute of a name.
    pub(crate) fn copy_without(&self, alloc: Global, name: AttrName) -> Result<Attributes, NoMemory>
        ensures { IfOk result (λ copy. copy ≡ record {
          tag = self.now.tag;
          rows = filter (λ attribute. not (is_named name attribute)) self.now.rows;
        }) }
    {
        let mut rows = Rows::new(alloc);
        for attribute in self.rows.as_slice() {
            if attribute.0 != name {
                rows.add((attribute.0, copied(alloc, attribute.1.as_slice())?))?;
            }
        }
        Ok(Attributes {
            tag: self.tag,
            rows,
        })
    }

    /// Those of a name, as copies.
    fn copy_of(
        &self,
        alloc: Global,
        name: AttrName,
    ) -> Result<Rows<(AttrName, Rows<Part>)>, NoMemory>
        ensures { IfOk result (λ rows. rows ≡ filter (is_named name) self.now.rows) }
    {
        let mut rows = Rows::new(alloc);
        for attribute in self.rows.as_slice() {
            if attribute.0 == name {
                rows.add((attribute.0, copied(alloc, attribute.1.as_slice())?))?;
            }
        }
        Ok(rows)
    }

    /// What goes with those of a name.
    pub(crate) fn lost_of(&self, alloc: Global, name: AttrName) -> Result<Lost, NoMemory>
        ensures { IfOk result (λ lost. load_lost lost
            ≡ rows_load self.now.tag (filter (is_named name) self.now.rows)) }
    {
        let rows = self.copy_of(alloc, name)?;
        Lost::of_attributes(alloc, self.tag, rows.as_slice())
    }

    /// What goes with all of them.
    pub(crate) fn lost(&self, alloc: Global) -> Result<Lost, NoMemory>
        ensures { IfOk result (λ lost. load_lost lost ≡ rows_load self.now.tag self.now.rows) }
    {
        Lost::of_attributes(alloc, self.tag, self.rows.as_slice())
    }

    /// A copy.
    pub(crate) fn copy(&self, alloc: Global) -> Result<Attributes, NoMemory>
        ensures { IfOk result (λ copy. copy ≡ self.now) }
    {
        let mut rows = Rows::new(alloc);
        for attribute in self.rows.as_slice() {
            rows.add((attribute.0, copied(alloc, attribute.1.as_slice())?))?;
        }
        Ok(Attributes {
            tag: self.tag,
            rows,
        })
    }
}
