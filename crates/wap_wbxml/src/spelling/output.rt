//! Bytes that are written, and the pages of codes on which they end.
ghost use Rattle.std.specs.Prelude.{◌≡◌, ◌+◌, ◌<◌, ◌^◌, ◌++◌, ◌∷◌, [], length, OnOk, OnErr};
ghost use Rattle.std.specs.Io.{StartsWith};
ghost use Rattle.wap_base.specs.Numbers.{mb_spelling};
ghost use Rattle.wap_wbxml.specs.spelling.Writings.{plain, on_tag_page, on_attribute_page};
ghost use Rattle.wap_wbxml.specs.spelling.Names.{string};
ghost use Rattle.wap_wbxml.specs.spelling.Left.{Begins};
ghost use Rattle.wap_wbxml.specs.spelling.Spelling.{sized, variable};
ghost use Rattle.wap_wbxml.specs.spelling.Written.{written};

use wap_base::{Bytes, Conv, NoMemory, Text, write_mb};
use wap_tokens::markup::{ENTITY, EXT_0, EXT_I_0, EXT_I_1, EXT_I_2, OPAQUE, STR_I, SWITCH_PAGE};

/// The pages of codes, of tags and of attributes.
#[derive(Clone, Copy)]
pub struct Pages {
    /// The page on which tags stand.
    pub tag: u8,
    /// The page on which starts and values of attributes stand.
    pub attribute: u8,
}

/// Bytes, and the pages on which they end.
#[derive(Drop)]
pub struct Output {
    /// What is written so far.
    pub bytes: Bytes,
    /// The pages that a reader is on after it.
    pub pages: Pages,
}

/// Adds a text and the 0 that ends it.
pub(crate) fn add_string(bytes: &mut Bytes, text: &Text) -> Result<(), NoMemory>
    ensures ok { OnOk result (bytes.new ≡ bytes.old ++ string text.now) }
    ensures left { OnErr result (StartsWith bytes.new bytes.old) }
{
    bytes.add(text.as_str().as_bytes())?;
    bytes.push(0)
}

/// Adds how many bytes there are, and the bytes.
pub(crate) fn add_sized(bytes: &mut Bytes, content: &[u8]) -> Result<(), NoMemory>
    requires { length content.now < 2 ^ 32 }
    ensures ok { OnOk result (bytes.new ≡ bytes.old ++ sized content.now) }
    ensures left { OnErr result (StartsWith bytes.new bytes.old) }
{
    write_mb(bytes, content.len() as u32)?;
    bytes.add(content)
}

/// The byte of a reference to a variable.
fn variable(conv: Conv) -> u8
    ensures { result ≡ variable conv }
{
    match conv {
        Conv::Escape => EXT_I_0,
        Conv::Unescape => EXT_I_1,
        Conv::Plain => EXT_I_2,
    }
}

impl Output {
    /// Writes a byte.
    pub fn push(&mut self, byte: u8) -> Result<(), NoMemory>
        ensures ok { OnOk result (self.new ≡ written (plain (byte ∷ [])) self.old) }
        ensures kept { OnErr result (self.new ≡ self.old) }
    {
        self.bytes.push(byte)
    }

    /// Writes a byte and a number after it.
    pub fn write_number(&mut self, byte: u8, number: u32) -> Result<(), NoMemory>
        ensures ok { OnOk result (self.new ≡ written (plain (byte ∷ mb_spelling number)) self.old) }
        ensures left { OnErr result (Begins self.old self.new) }
    {
        self.bytes.push(byte)?;
        write_mb(&mut self.bytes, number)
    }

    /// Writes a byte and a string after it.
    fn write_string(&mut self, byte: u8, text: &Text) -> Result<(), NoMemory>
        ensures ok { OnOk result (self.new ≡ written (plain (byte ∷ string text.now)) self.old) }
        ensures left { OnErr result (Begins self.old self.new) }
    {
        self.bytes.push(byte)?;
        add_string(&mut self.bytes, text)
    }

    /// Writes a string in place.
    pub fn write_text(&mut self, text: &Text) -> Result<(), NoMemory>
        ensures ok { OnOk result (self.new ≡ written (plain (STR_I ∷ string text.now)) self.old) }
        ensures left { OnErr result (Begins self.old self.new) }
    {
        self.write_string(STR_I, text)
    }

    /// Writes a character by its number.
    pub fn write_entity(&mut self, number: u32) -> Result<(), NoMemory>
        ensures ok { let bytes = ENTITY ∷ mb_spelling number in
            OnOk result (self.new ≡ written (plain bytes) self.old) }
        ensures left { OnErr result (Begins self.old self.new) }
    {
        self.write_number(ENTITY, number)
    }

    /// Writes a reference to a variable.
    pub fn write_variable(&mut self, name: &Text, conv: Conv) -> Result<(), NoMemory>
        ensures ok { let bytes = variable conv ∷ string name.now in
            OnOk result (self.new ≡ written (plain bytes) self.old) }
        ensures left { OnErr result (Begins self.old self.new) }
    {
        self.write_string(variable(conv), name)
    }

    /// Writes an extension that stands alone, one of three.
    pub fn write_extension(&mut self, number: u8) -> Result<(), NoMemory>
        requires { number < 3 }
        ensures ok { OnOk result (self.new ≡ written (plain ((EXT_0 + number) ∷ [])) self.old) }
        ensures kept { OnErr result (self.new ≡ self.old) }
    {
        self.push(EXT_0 + number)
    }

    /// Writes bytes that aren't looked at.
    pub fn write_opaque(&mut self, bytes: &[u8]) -> Result<(), NoMemory>
        requires { length bytes.now < 2 ^ 32 }
        ensures ok { OnOk result (self.new ≡ written (plain (OPAQUE ∷ sized bytes.now)) self.old) }
        ensures left { OnErr result (Begins self.old self.new) }
    {
        self.bytes.push(OPAQUE)?;
        add_sized(&mut self.bytes, bytes)
    }

    /// Writes a switch to the page, if it is another one.
    pub fn go_to_tag_page(&mut self, page: u8) -> Result<(), NoMemory>
        ensures ok { OnOk result (self.new ≡ written (on_tag_page page) self.old) }
        ensures kept { OnErr result (self.new ≡ self.old) }
    {
        if page != self.pages.tag {
            self.bytes.add(&[SWITCH_PAGE, page])?;
        }
        self.pages.tag = page;
        Ok(())
    }

    /// Writes a switch to the page, if it is another one.
    pub fn go_to_attribute_page(&mut self, page: u8) -> Result<(), NoMemory>
        ensures ok { OnOk result (self.new ≡ written (on_attribute_page page) self.old) }
        ensures kept { OnErr result (self.new ≡ self.old) }
    {
        if page != self.pages.attribute {
            self.bytes.add(&[SWITCH_PAGE, page])?;
        }
        self.pages.attribute = page;
        Ok(())
    }
}
