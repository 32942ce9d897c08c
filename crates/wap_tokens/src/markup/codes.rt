//! The numbers of WBXML (WAP-192, section 7): version, public identifiers and character set of what
//! is written, and the codes of global tokens, which mean the same on every page. Any other byte is
//! a code of its page: of a tag the low six bits are it, of an attribute's start and of a part of
//! its value the whole byte is.

/// The version byte of WBXML 1.3, the last that is read, and the one that is written.
pub const VERSION: u8 = 3;
/// The public identifier of WML 1.1.
pub const WML_1_1: u32 = 4;
/// The public identifier of WML 1.2.
pub const WML_1_2: u32 = 9;
/// The public identifier of WML 1.3, which is written for a deck.
pub const WML_1_3: u32 = 10;
/// The number of the character set that is written: UTF-8 (IANA's MIBenum).
pub const CHARSET: u32 = 106;
/// The byte after it is the page from here on.
pub const SWITCH_PAGE: u8 = 0x00;
/// The end of attributes, of content or of a processing instruction; at 0 a string ends.
pub const END: u8 = 0x01;
/// A character by its number.
pub const ENTITY: u8 = 0x02;
/// A string in place.
pub const STR_I: u8 = 0x03;
/// A name of the string table, of an attribute, or of an element by the low six bits of its tag.
pub const LITERAL: u8 = 0x04;
/// An extension with a string in place: a reference to a variable, to be escaped.
pub const EXT_I_0: u8 = 0x40;
/// An extension with a string in place: a reference to a variable, to be unescaped.
pub const EXT_I_1: u8 = 0x41;
/// An extension with a string in place: a reference to a variable, as it is.
pub const EXT_I_2: u8 = 0x42;
/// A processing instruction.
pub const PI: u8 = 0x43;
/// An extension with a string of the string table: a reference to a variable, to be escaped.
pub const EXT_T_0: u8 = 0x80;
/// An extension with a string of the string table: a reference to a variable, to be unescaped.
pub const EXT_T_1: u8 = 0x81;
/// An extension with a string of the string table: a reference to a variable, as it is.
pub const EXT_T_2: u8 = 0x82;
/// A string of the string table.
pub const STR_T: u8 = 0x83;
/// An extension that stands alone, the first of three; WML gives them no meaning.
pub const EXT_0: u8 = 0xC0;
/// The second of these.
pub const EXT_1: u8 = 0xC1;
/// The third of these.
pub const EXT_2: u8 = 0xC2;
/// Bytes that aren't looked at.
pub const OPAQUE: u8 = 0xC3;
