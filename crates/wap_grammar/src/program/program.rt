//! Programs: pragmas and functions (WAP-193, sections 6.7 and 6.4).
use crate::program::statement::Stmt;
use wap_base::{Rows, Text};

/// A program of one unit.
#[derive(Drop)]
pub struct Program {
    /// The pragmas, which stand before the functions.
    pub uses: Rows<Use>,
    /// The functions, in the order of the source.
    pub functions: Rows<Function>,
}

/// A pragma.
#[derive(Drop)]
pub enum Use {
    /// A name for the unit of a URL, whose functions it makes known.
    Url(Id, Text),
    /// Who may call the unit, by a domain, a path or both, and where the pragma stands.
    Access(Option<Text>, Option<Text>, Span),
    /// A property for the browser: its name, what it is, and its scheme.
    Agent(Text, Text, Option<Text>),
    /// A property for anybody else, which the unit doesn't keep.
    Note,
}

/// A function of a unit.
#[derive(Drop)]
pub struct Function {
    /// How it is called.
    pub name: Id,
    /// Whether other units may call it.
    pub external: bool,
    /// The names of its parameters.
    pub params: Rows<Id>,
    /// Its statements.
    pub body: Rows<Stmt>,
}

/// A name, and where it stands.
#[derive(Drop)]
pub struct Id {
    /// The name as it is written.
    pub name: Text,
    /// Where it stands.
    pub span: Span,
}

/// A part of a source.
#[derive(Clone, Copy, Debug, PartialEq, Eq)]
pub struct Span {
    /// The place of its first byte.
    pub from: u32,
    /// The place after its last byte.
    pub to: u32,
}
