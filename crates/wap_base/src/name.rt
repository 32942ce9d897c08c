//! Names of variables, and the parts of a value in which they are referred to.
ghost use Rattle.std.specs.Prelude.{◌≡◌, ◌↔◌, true, false, IfOk, IsErrOf};
ghost use Rattle.std.specs.List.{list_all};
ghost use Rattle.wap_base.specs.Names.{begins_name, continues_name, is_name};

use crate::{NoMemory, Text};
use std::alloc::Global;
use std::cmp::Ordering;
use std::marker::Model;

/// The name of a variable: an ASCII letter or `_`, and then ASCII letters, digits and `_`
/// (WAP-191, section 10.3.1).
#[derive(Debug, Drop)]
pub struct Name {
    text: Text,
}

impl Model for Name {
    ghost use Rattle.std.specs.Prelude.{◌≡◌, List, ℕ, true};
    ghost use Rattle.wap_base.specs.Names.{is_name};

    ghost Value = { List ℕ };

    ghost view = { λ name. name.text };

    ghost invariant = { λ name. is_name name.text ≡ true };
}

/// Why a text became no name.
#[derive(Clone, Copy, Debug, PartialEq, Eq)]
pub enum NameFault {
    /// The text isn't one that a name may be.
    BadName,
    /// Memory ran out.
    NoMemory,
}

impl From<NoMemory> for NameFault {
    ghost use Rattle.std.specs.Prelude.{◌≡◌};
    ghost use Rattle.wap_base.specs.declared.name.NameFault.TheVariants.{NoMemory};

    ghost from_gives = { λ _ fault. fault ≡ NoMemory };

    fn from(_error: NoMemory) -> NameFault {
        NameFault::NoMemory
    }
}

fn begins_name(byte: u8) -> bool
    ensures { result ≡ begins_name byte }
{
    byte.is_ascii_alphabetic() || byte == b'_'
}

fn continues_name(byte: u8) -> bool
    ensures { result ≡ continues_name byte }
{
    begins_name(byte) || byte.is_ascii_digit()
}

fn all_continue(bytes: &[u8]) -> bool
    ensures { result ≡ list_all continues_name bytes.now }
{
    bytes.iter().all(|byte| continues_name(*byte))
}

/// Whether the bytes are those of a name (WAP-191, section 10.3.1).
pub fn is_name(bytes: &[u8]) -> bool
    ensures { result ≡ is_name bytes.now }
{
    match bytes {
        [first, rest @ ..] => begins_name(*first) && all_continue(rest),
        [] => false,
    }
}

impl Name {
    /// A copy of the text, as a name.
    pub fn of(alloc: Global, text: &Text) -> Result<Name, NameFault>
        ensures ok { IfOk result (λ name. name ≡ text.now) }
        ensures bad { IsErrOf result NameFault.BadName ↔ (is_name text.now ≡ false) }
    {
        if !is_name(text.as_str().as_bytes()) {
            return Err(NameFault::BadName);
        }
        Ok(Name {
            text: text.copy(alloc)?,
        })
    }

    /// The name as a text.
    pub fn text(&self) -> &Text
        ensures same { result.now ≡ self.now }
        ensures name { is_name self.now ≡ true }
    {
        &self.text
    }

    /// A copy of the name.
    pub fn copy(&self, alloc: Global) -> Result<Name, NoMemory>
        ensures { IfOk result (λ copy. copy ≡ self.now) }
    {
        Ok(Name {
            text: self.text.copy(alloc)?,
        })
    }
}

impl PartialEq for Name {
    ghost use Rattle.std.specs.Cmp.{partial_equiv_from_equiv};
    ghost use Rattle.std.specs.Cmp.Lexicographic.{nat_list_eq_equiv};
    ghost use Rattle.wap_base.specs.Texts.{is_same_text};

    ghost eq = { is_same_text };

    ghost laws = { partial_equiv_from_equiv nat_list_eq_equiv };

    fn eq(&self, other: &Name) -> bool {
        self.text == other.text
    }
}

impl Eq for Name {
    ghost use Rattle.std.specs.Cmp.Lexicographic.{nat_list_eq_equiv};

    ghost laws = { nat_list_eq_equiv };
}

impl PartialOrd for Name {
    ghost use Rattle.std.specs.Prelude.{Some};
    ghost use Rattle.std.specs.Cmp.Lexicographic.{texts_po};
    ghost use Rattle.wap_base.specs.Texts.{text_cmp};

    ghost partial_cmp = { λ a b. Some (text_cmp a b) };

    ghost laws = { texts_po };

    fn partial_cmp(&self, other: &Name) -> Option<Ordering> {
        Some(self.cmp(other))
    }
}

impl Ord for Name {
    ghost use Rattle.std.specs.Prelude.{refl};
    ghost use Rattle.std.specs.Cmp.Lexicographic.{nat_list_cmp_total, texts_ties};
    ghost use Rattle.wap_base.specs.Texts.{text_cmp};

    ghost cmp = { text_cmp };

    ghost total = { nat_list_cmp_total };

    ghost matches_partial_cmp = { λ a b. refl };

    ghost matches_eq = { λ a b. texts_ties a b };

    fn cmp(&self, other: &Name) -> Ordering {
        self.text.cmp(&other.text)
    }
}

/// How a reference to a variable is written out (WAP-191, section 10.3.1).
#[derive(Clone, Copy)]
pub enum Conv {
    /// With escapes of URLs in place of characters that need them.
    Escape,
    /// With characters in place of the escapes of URLs.
    Unescape,
    /// As the variable's text stands.
    Plain,
}

/// A part of a value: text as it stands, or a reference to a variable.
#[derive(Drop)]
pub enum Part {
    /// A text as it stands.
    Lit(Text),
    /// The text of a variable, written out so.
    Var(Name, Conv),
}
