//! Compiled units (WAP-193, section 9): numbers and texts as they are spelled, nothing yet of what
//! they mean.
use wap_base::{Bytes, Rows, Text};

/// A compiled unit.
#[derive(Drop)]
pub struct Unit {
    /// The version byte: the major number minus one, and the minor number, in four bits each.
    pub version: u8,
    /// The number of the character set, as IANA counts them (MIBenum): 106 is UTF-8.
    pub charset: u32,
    /// The constants that instructions and pragmas name by their index.
    pub constants: Rows<Constant>,
    /// What the source says of access and to the user agent.
    pub pragmas: Rows<Pragma>,
    /// The names by which functions are called from outside, each with its function's index.
    pub names: Rows<(u8, Text)>,
    /// The functions, each known by its index.
    pub functions: Rows<Code>,
}

/// A constant of the pool.
#[derive(Drop)]
pub enum Constant {
    Int8(i8),
    Int16(i16),
    Int32(i32),
    /// A floating-point number, by its bits.
    Float(u32),
    /// A string in UTF-8.
    Utf8(Text),
    /// The empty string.
    Empty,
    /// A string in the unit's character set.
    Coded(Bytes),
}

/// A pragma. Its texts are constants, named by their indexes.
#[derive(Clone, Copy)]
pub enum Pragma {
    /// The domain of an access rule.
    Domain(u32),
    /// The path of an access rule.
    Path(u32),
    /// A name and a content for the user agent.
    Property(u32, u32),
    /// A name, a content and a scheme for the user agent.
    Scheme(u32, u32, u32),
}

/// A function: how many arguments it takes, how many variables it has besides, and its
/// instructions.
#[derive(Drop)]
pub struct Code {
    /// How many arguments it takes; they are its first variables.
    pub args: u8,
    /// How many variables it has besides.
    pub locals: u8,
    /// Its instructions, as they are spelled.
    pub code: Bytes,
}
