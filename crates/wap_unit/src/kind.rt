//! The kinds of constants and pragmas, and the byte with which one of each kind begins (WAP-193,
//! section 9).
ghost use Rattle.std.specs.Prelude.{◌≡◌};
ghost use Rattle.wap_unit.specs.Kinds.{constant_kind, pragma_kind};

/// A constant of one byte, with a sign.
pub const INT8: u8 = 0;
/// A constant of two bytes, with a sign.
pub const INT16: u8 = 1;
/// A constant of four bytes, with a sign.
pub const INT32: u8 = 2;
/// A floating-point number of four bytes.
pub const FLOAT: u8 = 3;
/// A string in UTF-8, after the number of its bytes.
pub const UTF8: u8 = 4;
/// The empty string.
pub const EMPTY: u8 = 5;
/// A string in the character set of the pool, after the number of its bytes.
pub const CODED: u8 = 6;

/// An access rule's domain, by the index of a string.
pub const DOMAIN: u8 = 0;
/// An access rule's path, by the index of a string.
pub const PATH: u8 = 1;
/// A name and a content for the user agent, by the indexes of strings.
pub const PROPERTY: u8 = 2;
/// A name, a content and a scheme for the user agent, by the indexes of strings.
pub const SCHEME: u8 = 3;

/// What a constant is.
#[derive(Clone, Copy)]
pub enum ConstantKind {
    Int8,
    Int16,
    Int32,
    Float,
    Utf8,
    Empty,
    Coded,
}

/// What a pragma is.
#[derive(Clone, Copy)]
pub enum PragmaKind {
    Domain,
    Path,
    Property,
    Scheme,
}

/// The kind of a constant with this first byte.
pub(crate) fn constant_kind(byte: u8) -> Option<ConstantKind>
    ensures { result ≡ constant_kind byte }
{
    match byte {
        INT8 => Some(ConstantKind::Int8),
        INT16 => Some(ConstantKind::Int16),
        INT32 => Some(ConstantKind::Int32),
        FLOAT => Some(ConstantKind::Float),
        UTF8 => Some(ConstantKind::Utf8),
        EMPTY => Some(ConstantKind::Empty),
        CODED => Some(ConstantKind::Coded),
        _ => None,
    }
}

/// The kind of a pragma with this first byte.
pub(crate) fn pragma_kind(byte: u8) -> Option<PragmaKind>
    ensures { result ≡ pragma_kind byte }
{
    match byte {
        DOMAIN => Some(PragmaKind::Domain),
        PATH => Some(PragmaKind::Path),
        PROPERTY => Some(PragmaKind::Property),
        SCHEME => Some(PragmaKind::Scheme),
        _ => None,
    }
}
