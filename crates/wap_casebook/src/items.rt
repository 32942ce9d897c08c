//! Items of a line, byte by byte.
use crate::words::{range, split_word};
use crate::{CaseFault, Pieces};
use std::alloc::Global;
use wap_base::{Bytes, NoMemory};

/// Where the next byte stands.
#[derive(Clone, Copy)]
enum Place {
    /// Between items.
    Between,
    /// After the first of two digits, which has this number.
    Digit(u8),
    /// In a text.
    Text,
    /// After a backslash in a text.
    Escape,
    /// In the number of a character, which is this so far.
    Character(u32),
    /// In the name of a piece.
    Name,
    /// After `#`.
    Number,
}

/// What a byte spells, with those before it.
#[derive(Clone, Copy)]
enum Spelled {
    Nothing,
    Byte(u8),
    /// The character of this number.
    Character(u32),
    /// The next byte of a piece's name.
    NameByte(u8),
    /// The piece whose name is read.
    Piece,
    /// The number that `#` stands for, in so many digits.
    Number(u8),
    /// Nothing is spelled so.
    Fault,
}

/// The number of a hexadecimal digit.
fn digit(byte: u8) -> Option<u8> {
    match byte {
        b'0'..=b'9' => Some(byte - b'0'),
        b'A'..=b'F' => Some(byte - b'A' + 10),
        b'a'..=b'f' => Some(byte - b'a' + 10),
        _ => None,
    }
}

/// What the first byte of an item spells, and where the next one stands.
fn begin(byte: u8) -> (Place, Spelled) {
    let place = match byte {
        b' ' => Place::Between,
        b'"' => Place::Text,
        b'[' => Place::Name,
        b'#' => Place::Number,
        _ => match digit(byte) {
            Some(high) => Place::Digit(high),
            None => return (Place::Between, Spelled::Fault),
        },
    };
    (place, Spelled::Nothing)
}

/// What a byte of a text spells.
fn in_text(byte: u8) -> (Place, Spelled) {
    match byte {
        b'"' => (Place::Between, Spelled::Nothing),
        b'\\' => (Place::Escape, Spelled::Nothing),
        _ => (Place::Text, Spelled::Byte(byte)),
    }
}

/// What a byte after a backslash spells.
fn in_escape(byte: u8) -> (Place, Spelled) {
    match byte {
        b'u' => (Place::Character(0), Spelled::Nothing),
        b'n' => (Place::Text, Spelled::Byte(b'\n')),
        b'r' => (Place::Text, Spelled::Byte(b'\r')),
        b't' => (Place::Text, Spelled::Byte(b'\t')),
        b'\\' | b'"' => (Place::Text, Spelled::Byte(byte)),
        _ => (Place::Text, Spelled::Fault),
    }
}

/// What a digit of a character's number spells, or one of the braces around it.
fn in_character(number: u32, byte: u8) -> (Place, Spelled) {
    match byte {
        b'{' => (Place::Character(0), Spelled::Nothing),
        b'}' => (Place::Text, Spelled::Character(number)),
        _ => match digit(byte) {
            Some(digit) => {
                let number = number.wrapping_mul(16).wrapping_add(u32::from(digit));
                (Place::Character(number), Spelled::Nothing)
            }
            None => (Place::Text, Spelled::Fault),
        },
    }
}

/// What a digit spells after another, or after `#` the one that says how many digits there are.
fn in_digits(high: Option<u8>, byte: u8) -> (Place, Spelled) {
    let spelled = match (high, digit(byte)) {
        (Some(high), Some(low)) => Spelled::Byte(high.wrapping_mul(16).wrapping_add(low)),
        (None, Some(digits)) => Spelled::Number(digits),
        (_, None) => Spelled::Fault,
    };
    (Place::Between, spelled)
}

/// What a byte at a place spells, and where the next one stands.
fn step(place: Place, byte: u8) -> (Place, Spelled) {
    match place {
        Place::Between => begin(byte),
        Place::Digit(high) => in_digits(Some(high), byte),
        Place::Text => in_text(byte),
        Place::Escape => in_escape(byte),
        Place::Character(number) => in_character(number, byte),
        Place::Name if byte == b']' => (Place::Between, Spelled::Piece),
        Place::Name => (Place::Name, Spelled::NameByte(byte)),
        Place::Number => in_digits(None, byte),
    }
}

/// The bytes that items spell. The first fault is kept, and reported in the end.
#[derive(Drop)]
pub struct Items {
    alloc: Global,
    bytes: Bytes,
    place: Place,
    /// The name of a piece, as far as it is read.
    name: Bytes,
    /// What `#` stands for.
    number: Option<u32>,
    fault: Option<CaseFault>,
}

impl Items {
    /// No items yet.
    pub fn new(alloc: Global, number: Option<u32>) -> Items {
        Items {
            alloc,
            bytes: Bytes::new(alloc),
            place: Place::Between,
            name: Bytes::new(alloc),
            number,
            fault: None,
        }
    }

    /// Whether the next byte begins an item.
    pub fn is_between(&self) -> bool {
        matches!(self.place, Place::Between)
    }

    /// The bytes, once each item has its end.
    pub fn finish(self) -> Result<Bytes, CaseFault> {
        if !self.is_between() {
            return Err(CaseFault::Spelling);
        }
        match self.fault {
            Some(fault) => Err(fault),
            None => Ok(self.bytes),
        }
    }

    /// Takes the items of a group, once for each number of its range.
    pub fn take_group(&mut self, pieces: &Pieces, group: &[u8]) {
        let (numbers, items) = split_word(group);
        let (from, to) = match range(numbers) {
            Ok(numbers) => numbers,
            Err(fault) => return self.fail(fault),
        };
        let outer = self.number;
        for number in from..to {
            self.take_numbered(pieces, items, number);
        }
        self.number = outer;
    }

    /// Takes items in which `#` stands for a number.
    fn take_numbered(&mut self, pieces: &Pieces, items: &[u8], number: u32) {
        self.number = Some(number);
        for byte in items {
            self.take(pieces, *byte);
        }
        if !self.is_between() {
            self.fail(CaseFault::Spelling);
        }
    }

    /// Takes the next byte.
    pub fn take(&mut self, pieces: &Pieces, byte: u8) {
        let (place, spelled) = step(self.place, byte);
        self.place = place;
        match spelled {
            Spelled::Nothing => {}
            Spelled::Byte(byte) => self.add(&[byte]),
            Spelled::Character(number) => self.add_character(number),
            Spelled::NameByte(byte) => self.add_to_name(byte),
            Spelled::Piece => self.add_piece(pieces),
            Spelled::Number(digits) => self.add_number(digits),
            Spelled::Fault => self.fail(CaseFault::Spelling),
        }
    }

    /// Keeps a fault, if it is the first.
    fn fail(&mut self, fault: CaseFault) {
        if self.fault.is_none() {
            self.fault = Some(fault);
        }
    }

    /// Adds bytes.
    fn add(&mut self, bytes: &[u8]) {
        if let Err(NoMemory) = self.bytes.add(bytes) {
            self.fail(CaseFault::NoMemory);
        }
    }

    /// Adds a byte of a piece's name.
    fn add_to_name(&mut self, byte: u8) {
        if let Err(NoMemory) = self.name.push(byte) {
            self.fail(CaseFault::NoMemory);
        }
    }

    /// Adds the piece whose name is read.
    fn add_piece(&mut self, pieces: &Pieces) {
        match pieces.find(self.name.as_slice()) {
            Some(bytes) => self.add(bytes),
            None => self.fail(CaseFault::Spelling),
        }
        self.name = Bytes::new(self.alloc);
    }

    /// Adds the character of a number, in UTF-8.
    fn add_character(&mut self, number: u32) {
        let mut buffer = [0; 4];
        match char::from_u32(number) {
            Some(character) => self.add(character.encode_utf8(&mut buffer).as_bytes()),
            None => self.fail(CaseFault::Spelling),
        }
    }

    /// Adds the number that `#` stands for, in at least so many digits.
    fn add_number(&mut self, digits: u8) {
        let Some(number) = self.number else {
            return self.fail(CaseFault::Spelling);
        };
        let mut unit: u32 = 1_000_000_000;
        for place in 0..10_u8 {
            if unit <= number || 10 - place <= digits {
                let digit = number / unit.max(1) % 10;
                self.add(&[b'0' + digit as u8]);
            }
            unit /= 10;
        }
    }
}
