//! What constants hold.
use wap_base::Text;

/// What a constant holds: an integer or a text.
#[derive(Drop, PartialEq, Eq, Hash)]
pub(crate) enum Content {
    Integer(i32),
    Text(Text),
}
