//! The names of an indication's elements and attributes (WAP-167, section 8.3).

/// An element's name.
#[derive(Clone, Copy, PartialEq, Eq)]
pub enum PushTag {
    Si,
    Indication,
    Info,
    Item,
}

/// An attribute's name.
#[derive(Clone, Copy, PartialEq, Eq)]
pub enum PushField {
    Action,
    Created,
    Href,
    SiExpires,
    SiId,
    Class,
}
