//! Decks as texts of WML, and the bytes of their documents.
use crate::{CaseFault, number, split_by};
use std::alloc::Global;
use wap_base::{Bytes, NoMemory};
use wap_tokens::markup::{
    ATTR_NAMES, ATTR_STARTS, AttrName, END, EXT_I_0, EXT_I_1, EXT_I_2, STR_I, TAGS,
};

/// What a document begins with: WBXML 1.3, WML 1.3, UTF-8, no string table, and the root.
static HEAD: &[u8] = b"\x03\x0a\x6a\x00\xff\x01";

/// The code of an element.
fn tag_code(name: &[u8]) -> Option<u8> {
    for (code, _, known) in &TAGS {
        if known.as_bytes() == name {
            return Some(*code);
        }
    }
    None
}

/// The attribute of a name.
fn attribute_of(name: &[u8]) -> Option<AttrName> {
    let mut found = None;
    for (attribute, known) in &ATTR_NAMES {
        if known.as_bytes() == name {
            found = Some(*attribute);
        }
    }
    found
}

/// Whether a rest of a value is shorter than the one found before.
fn is_shorter(rest: &[u8], found: Option<(u8, &[u8])>) -> bool {
    match found {
        Some((_, before)) => rest.len() < before.len(),
        None => true,
    }
}

/// The code that an attribute of this name and value begins with, and what it leaves of the value.
fn start_of<'a>(name: &[u8], value: &'a [u8]) -> Option<(u8, &'a [u8])> {
    let attribute = attribute_of(name)?;
    let mut found = None;
    for (code, known, prefix) in &ATTR_STARTS {
        if *known != attribute {
            continue;
        }
        if let Some(rest) = value.strip_prefix(prefix.as_bytes()) {
            if is_shorter(rest, found) {
                found = Some((*code, rest));
            }
        }
    }
    found
}

/// The byte of a number.
fn numbered(digits: &[u8]) -> Option<u8> {
    match number(digits) {
        Ok(number) => u8::try_from(number).ok(),
        Err(_) => None,
    }
}

/// The byte of a name between `&` and `;`, which may also be its number, as in `&#10;`.
fn entity(name: &[u8]) -> Option<u8> {
    match name {
        b"amp" => Some(b'&'),
        b"lt" => Some(b'<'),
        b"quot" => Some(b'"'),
        [b'#', digits @ ..] => numbered(digits),
        _ => None,
    }
}

/// The name that a text begins with, up to a blank, `/` or `>`, and what follows it.
fn split_name(text: &[u8]) -> (&[u8], &[u8]) {
    let mut rest = text;
    for at in 0..text.len() {
        match rest {
            [b' ' | b'/' | b'>', ..] => return (text.split_at(at).0, rest),
            [_, others @ ..] => rest = others,
            [] => break,
        }
    }
    (text, rest)
}

/// The bytes of a document, as far as they are written. The first fault is kept, and reported in
/// the end.
#[derive(Drop)]
struct Writing {
    bytes: Bytes,
    /// Whether a string is open.
    is_open: bool,
    fault: Option<CaseFault>,
}

impl Writing {
    /// Keeps a fault, if it is the first.
    fn fail(&mut self, fault: CaseFault) {
        if self.fault.is_none() {
            self.fault = Some(fault);
        }
    }

    /// Appends bytes.
    fn add(&mut self, bytes: &[u8]) {
        if let Err(NoMemory) = self.bytes.add(bytes) {
            self.fail(CaseFault::NoMemory);
        }
    }

    /// Appends a byte of a string, which it begins where none is open.
    fn add_byte(&mut self, byte: u8) {
        if !self.is_open {
            self.add(&[STR_I]);
        }
        self.is_open = true;
        self.add(&[byte]);
    }

    /// Ends the string that is open, if one is.
    fn end_string(&mut self) {
        if self.is_open {
            self.add(&[0]);
        }
        self.is_open = false;
    }

    /// Appends a reference to a variable: `name`, `name:e`, `name:u` or `name:n`.
    fn add_variable(&mut self, variable: &[u8]) {
        let (name, conversion) = split_by(b':', variable);
        self.end_string();
        match conversion {
            b"e" => self.add(&[EXT_I_0]),
            b"u" => self.add(&[EXT_I_1]),
            b"" | b"n" => self.add(&[EXT_I_2]),
            _ => self.fail(CaseFault::Spelling),
        }
        self.add(name);
        self.add(&[0]);
    }

    /// Appends the character whose name stands after a `&`, and gives what follows it. A `&` that
    /// begins no character's name is a byte as any other.
    fn add_character<'a>(&mut self, text: &'a [u8]) -> &'a [u8] {
        let (name, rest) = split_by(b';', text);
        match entity(name) {
            Some(byte) => {
                self.add_byte(byte);
                rest
            }
            None => {
                self.add_byte(b'&');
                text
            }
        }
    }

    /// Appends what a text begins with, a byte of a string or a variable, and gives what follows.
    fn add_part<'a>(&mut self, text: &'a [u8]) -> &'a [u8] {
        match text {
            [] => text,
            [b'$', b'$', rest @ ..] => {
                self.add_byte(b'$');
                rest
            }
            [b'$', b'(', rest @ ..] => {
                let (variable, rest) = split_by(b')', rest);
                self.add_variable(variable);
                rest
            }
            [b'&', rest @ ..] => self.add_character(rest),
            [byte, rest @ ..] => {
                self.add_byte(*byte);
                rest
            }
        }
    }

    /// Appends a text, with its variables.
    fn add_text(&mut self, text: &[u8]) {
        let mut rest = text;
        for _ in 0..text.len() {
            rest = self.add_part(rest);
        }
        self.end_string();
    }

    /// Appends an attribute of this name and value.
    fn add_named(&mut self, name: &[u8], value: &[u8]) {
        match start_of(name, value) {
            Some((code, value)) => {
                self.add(&[code]);
                self.add_text(value);
            }
            None => self.fail(CaseFault::Spelling),
        }
    }

    /// Appends the attribute that a text begins with, and gives what follows it.
    fn add_attribute<'a>(&mut self, text: &'a [u8]) -> &'a [u8] {
        let (name, quoted) = split_by(b'=', text);
        let [b'"', quoted @ ..] = quoted else {
            self.fail(CaseFault::Spelling);
            return b"";
        };
        let (value, rest) = split_by(b'"', quoted);
        self.add_named(name, value);
        rest
    }

    /// Appends the attributes of an element, and its end where it has no content, and gives what
    /// follows its `>`.
    fn add_attributes<'a>(&mut self, text: &'a [u8]) -> &'a [u8] {
        let mut rest = text;
        for _ in 0..text.len() {
            match rest {
                [b' ', others @ ..] => rest = others,
                [b'/', b'>', others @ ..] => {
                    self.add(&[END, END]);
                    return others;
                }
                [b'>', others @ ..] => {
                    self.add(&[END]);
                    return others;
                }
                _ => rest = self.add_attribute(rest),
            }
        }
        self.fail(CaseFault::Spelling);
        rest
    }

    /// Appends what stands after a `<`: an element's code, which has attributes and content, though
    /// there may be none, or the end of one. It gives what follows.
    fn add_element<'a>(&mut self, text: &'a [u8]) -> &'a [u8] {
        if let [b'/', rest @ ..] = text {
            self.add(&[END]);
            return split_by(b'>', rest).1;
        }
        let (name, rest) = split_name(text);
        match tag_code(name) {
            Some(code) => self.add(&[code | 0xc0]),
            None => self.fail(CaseFault::Spelling),
        }
        self.add_attributes(rest)
    }

    /// Appends content: texts and elements.
    fn add_content(&mut self, content: &[u8]) {
        let mut rest = content;
        for _ in 0..content.len() {
            let (text, element) = split_by(b'<', rest);
            self.add_text(text);
            if element.is_empty() {
                break;
            }
            rest = self.add_element(element);
        }
    }
}

/// The bytes of the document whose root has this content, as a text of WML: elements, attributes in
/// `"`, texts, `$(name:e)`, `$$`, `&amp;`, `&lt;`, `&quot;` and `&#10;`. That it is a good deck
/// isn't looked at.
pub fn deck_bytes(alloc: Global, text: &[u8]) -> Result<Bytes, CaseFault> {
    let mut writing = Writing {
        bytes: Bytes::new(alloc),
        is_open: false,
        fault: None,
    };
    writing.add(HEAD);
    writing.add_content(text);
    writing.add(&[END]);
    match writing.fault {
        Some(fault) => Err(fault),
        None => Ok(writing.bytes),
    }
}
