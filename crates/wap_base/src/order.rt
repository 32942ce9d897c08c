//! The order of texts, and whether one stands twice.
ghost use Rattle.std.specs.Prelude.{IsTrue, ◌↔◌};
ghost use Rattle.wap_base.specs.Texts.{AreAscending, AreDistinct};

use crate::Text;

/// Whether each text comes before the next, by their UTF-8 bytes.
pub fn are_ascending(texts: &[Text]) -> bool
    ensures { IsTrue result ↔ AreAscending texts.now }
{
    for next in 1..texts.len() {
        if !texts[next - 1].cmp(&texts[next]).is_lt() {
            return false;
        }
    }
    true
}

/// Whether no text stands twice. It sorts them, which takes no memory.
pub fn are_distinct(mut texts: Vec<Text>) -> bool
    ensures { IsTrue result ↔ AreDistinct texts.items }
{
    texts.sort_unstable();
    are_ascending(&texts)
}
