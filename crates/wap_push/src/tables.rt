//! The names and codes of indications (WAP-167, section 8.3). The codes are those of page 0.
use crate::indication::Action;
use crate::names::{PushField, PushTag};

/// The public identifier of indications: Service Indication 1.0 (WAP-192, section 7.2).
pub const SI_1_0: u32 = 5;

/// Each element with its code. Codes ascend.
pub static PUSH_TAGS: [(u8, PushTag); 4] = [
    (0x05, PushTag::Si),
    (0x06, PushTag::Indication),
    (0x07, PushTag::Info),
    (0x08, PushTag::Item),
];

/// Each start of an attribute: its code, the attribute, and the text with which the value begins.
/// Codes ascend.
pub static PUSH_STARTS: [(u8, PushField, &str); 14] = [
    (0x05, PushField::Action, "signal-none"),
    (0x06, PushField::Action, "signal-low"),
    (0x07, PushField::Action, "signal-medium"),
    (0x08, PushField::Action, "signal-high"),
    (0x09, PushField::Action, "delete"),
    (0x0a, PushField::Created, ""),
    (0x0b, PushField::Href, ""),
    (0x0c, PushField::Href, "http://"),
    (0x0d, PushField::Href, "http://www."),
    (0x0e, PushField::Href, "https://"),
    (0x0f, PushField::Href, "https://www."),
    (0x10, PushField::SiExpires, ""),
    (0x11, PushField::SiId, ""),
    (0x12, PushField::Class, ""),
];

/// Each part of an attribute's value that has a code: the code and its text. Codes ascend.
pub static PUSH_VALUES: [(u8, &str); 4] = [
    (0x85, ".com/"),
    (0x86, ".edu/"),
    (0x87, ".net/"),
    (0x88, ".org/"),
];

/// Each value of the attribute `action`, with what it says.
pub static PUSH_ACTIONS: [(&str, Action); 5] = [
    ("signal-none", Action::Quiet),
    ("signal-low", Action::Low),
    ("signal-medium", Action::Medium),
    ("signal-high", Action::High),
    ("delete", Action::Delete),
];
