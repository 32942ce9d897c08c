//! `Text`, UTF-8 that contracts see as the list of its characters.
ghost use Rattle.std.specs.Prelude.{◌≡◌, [], ◌∷◌, ◌++◌, length, true, IsTrue, ◌↔◌, IfOk, OnOk};
ghost use Rattle.std.specs.Prelude.{OnErr, string_bytes, encode_utf8_all, decimal};
ghost use Rattle.std.specs.Str.{chars, all_scalars};
ghost use Rattle.wap_base.specs.Utf8.{utf8_len};

use crate::NoMemory;
use itoa::Buffer;
use std::alloc::Global;
use std::cmp::Ordering;
use std::hash::{Hash, Hasher};
use std::marker::Model;

/// A text. A contract sees the list of its characters, each as its number; inside it is UTF-8.
#[derive(Debug, Drop)]
pub struct Text {
    inner: String,
}

impl Model for Text {
    ghost use Rattle.std.specs.Prelude.{List, ℕ, string_bytes};
    ghost use Rattle.std.specs.Str.{chars};

    ghost Value = { List ℕ };

    ghost view = { λ text. chars (string_bytes text.inner) };
}

impl Text {
    /// The empty text, and the allocator for what is to come.
    pub fn new(alloc: Global) -> Text
        ensures { result ≡ [] }
    {
        Text {
            inner: String::new(alloc),
        }
    }

    /// A copy of the text.
    pub fn of(alloc: Global, text: &str) -> Result<Text, NoMemory>
        ensures { IfOk result (λ copy. copy ≡ chars text.now) }
    {
        Ok(Text {
            inner: String::from_str(alloc, text)?,
        })
    }

    /// The text whose characters have the numbers of these bytes (ISO-8859-1).
    pub fn from_latin1(alloc: Global, bytes: &[u8]) -> Result<Text, NoMemory>
        ensures { IfOk result (λ text. text ≡ bytes.now) }
    {
        let mut text = Text::new(alloc);
        for byte in bytes {
            text.push(char::from(*byte))?;
        }
        Ok(text)
    }

    /// The text of a string, which takes no memory.
    pub fn from_string(text: String) -> Text
        ensures { result ≡ chars (string_bytes text) }
    {
        Text { inner: text }
    }

    /// The text as a string, which takes no memory.
    pub fn into_string(self) -> String
        ensures bytes { string_bytes result ≡ encode_utf8_all self }
        ensures characters { chars (string_bytes result) ≡ self }
    {
        let Text { inner } = self;
        inner
    }

    /// The text's UTF-8.
    pub fn as_str(&self) -> &str
        ensures bytes { result.now ≡ encode_utf8_all self.now }
        ensures characters { chars result.now ≡ self.now }
        ensures scalars { all_scalars self.now ≡ true }
    {
        self.inner.as_str()
    }

    /// The number of bytes in UTF-8.
    pub fn len(&self) -> usize
        ensures { result ≡ utf8_len self.now }
    {
        self.as_str().len()
    }

    /// Whether it has no character.
    pub fn is_empty(&self) -> bool
        ensures { IsTrue result ↔ (self.now ≡ []) }
    {
        self.inner.as_str().is_empty()
    }

    /// A copy of the text.
    pub fn copy(&self, alloc: Global) -> Result<Text, NoMemory>
        ensures { IfOk result (λ copy. copy ≡ self.now) }
    {
        Text::of(alloc, self.as_str())
    }

    /// Appends a text. When out of memory nothing is added.
    pub fn add(&mut self, text: &str) -> Result<(), NoMemory>
        ensures ok { OnOk result (self.new ≡ self.old ++ chars text.now) }
        ensures err { OnErr result (self.new ≡ self.old) }
    {
        self.inner.push_str(text)?;
        Ok(())
    }

    /// Appends a character. When out of memory nothing is added.
    pub fn push(&mut self, character: char) -> Result<(), NoMemory>
        ensures ok { OnOk result (self.new ≡ self.old ++ character ∷ []) }
        ensures err { OnErr result (self.new ≡ self.old) }
    {
        self.inner.push(character)?;
        Ok(())
    }

    /// Appends a number in decimal digits. When out of memory nothing is added.
    pub fn add_number(&mut self, number: u64) -> Result<(), NoMemory>
        ensures ok { OnOk result (self.new ≡ self.old ++ decimal number) }
        ensures err { OnErr result (self.new ≡ self.old) }
    {
        let mut digits = Buffer::new();
        self.add(digits.format(number))
    }
}

impl PartialEq for Text {
    ghost use Rattle.std.specs.Cmp.{partial_equiv_from_equiv};
    ghost use Rattle.std.specs.Cmp.Lexicographic.{nat_list_eq_equiv};
    ghost use Rattle.wap_base.specs.Texts.{is_same_text};

    ghost eq = { is_same_text };

    ghost laws = { partial_equiv_from_equiv nat_list_eq_equiv };

    fn eq(&self, other: &Text) -> bool {
        self.as_str() == other.as_str()
    }
}

impl Eq for Text {
    ghost use Rattle.std.specs.Cmp.Lexicographic.{nat_list_eq_equiv};

    ghost laws = { nat_list_eq_equiv };
}

impl PartialOrd for Text {
    ghost use Rattle.std.specs.Prelude.{Some};
    ghost use Rattle.std.specs.Cmp.Lexicographic.{texts_po};
    ghost use Rattle.wap_base.specs.Texts.{text_cmp};

    ghost partial_cmp = { λ a b. Some (text_cmp a b) };

    ghost laws = { texts_po };

    fn partial_cmp(&self, other: &Text) -> Option<Ordering> {
        Some(self.cmp(other))
    }
}

impl Ord for Text {
    ghost use Rattle.std.specs.Prelude.{refl};
    ghost use Rattle.std.specs.Cmp.Lexicographic.{nat_list_cmp_total, texts_ties};
    ghost use Rattle.wap_base.specs.Texts.{text_cmp};

    ghost cmp = { text_cmp };

    ghost total = { nat_list_cmp_total };

    ghost matches_partial_cmp = { λ a b. refl };

    ghost matches_eq = { λ a b. texts_ties a b };

    fn cmp(&self, other: &Text) -> Ordering {
        self.as_str().cmp(other.as_str())
    }
}

impl Hash for Text {
    ghost use Rattle.std.specs.Prelude.{encode_utf8_all};
    ghost use Rattle.std.specs.Hash as fed;
    ghost use Rattle.std.specs.Cmp.Lexicographic.{bytes_decides};
    ghost use Rattle.std.proofs.Common.{ap};

    ghost hash_input = { λ text. fed.str (encode_utf8_all text) };

    ghost respects_eq = { λ a b same.
        ap (λ text. fed.str (encode_utf8_all text)) ((bytes_decides a b).0 same) };

    fn hash<H: Hasher>(&self, state: &mut H) {
        self.as_str().hash(state);
    }
}
