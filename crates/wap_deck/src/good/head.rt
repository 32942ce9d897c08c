//! Where the content of a node begins.
ghost use Rattle.wap_deck.specs.good.Readers.{IsBehind};
ghost use Rattle.wap_deck.specs.good.inside.Nodes.{IsContent};

use crate::good::front::first;
use crate::good::skip::after_head;
use wap_wbxml::has_content;

/// The content of the node that bytes begin with, and what follows it; nothing where it has none.
pub(crate) fn kids_begin(bytes: &[u8]) -> &[u8]
    ensures exact { IsContent bytes.now result.now }
    ensures behind { IsBehind result.now bytes.now }
{
    match first(bytes) {
        Some((mark, rest)) => {
            if has_content(mark) {
                after_head(mark, rest)
            } else {
                &[]
            }
        }
        None => &[],
    }
}
