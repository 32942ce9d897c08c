//! What the format of `String.format` is made of.

/// How a specifier writes its value.
#[derive(Clone, Copy)]
pub enum Conversion {
    /// `d`, an Integer in decimal.
    Decimal,
    /// `f`, which would be of a Float.
    Float,
    /// `s`, a String.
    String,
}

/// A place where a value is written.
#[derive(Clone, Copy)]
pub struct Specifier {
    /// How many characters are written at least.
    pub width: u16,
    /// Of an Integer, how many digits are written at least; of a String, how many characters at
    /// most.
    pub precision: Option<u16>,
    /// As what the value is written.
    pub conversion: Conversion,
}

/// A piece of a format.
#[derive(Clone, Copy)]
pub enum Piece {
    /// A character that stands for itself.
    Character(char),
    Specifier(Specifier),
}
