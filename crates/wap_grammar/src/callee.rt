//! What a call names.
use crate::program::Id;

/// What a call names (WAP-193, section 6.4): a function of the unit, a unit and a function of it,
/// or a library and a function of it.
#[derive(Drop)]
pub enum Callee {
    Local(Id),
    External(Id, Id),
    Library(Id, Id),
}
