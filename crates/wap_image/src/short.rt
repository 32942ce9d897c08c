//! Whether lengths and numbers are written in four bytes.
ghost use Rattle.std.specs.Prelude.{◌≡◌};
ghost use Rattle.std.specs.List.{list_all};
ghost use Rattle.wap_image.specs.Rules.{is_short_number, is_short_text, is_short_variable};
ghost use Rattle.wap_image.specs.Rules.{is_short_entry, are_short};

use crate::context_parts::ContextParts;
use wap_base::Text;

/// Whether each name, each URL and each number of a card is written in four bytes.
pub(crate) fn are_short(parts: &ContextParts) -> bool
    ensures { result ≡ are_short parts.now }
{
    are_short_variables(parts.vars.as_slice()) && are_short_entries(parts.history.as_slice())
}

fn are_short_variables(variables: &[(Text, Text)]) -> bool
    ensures { result ≡ list_all is_short_variable variables.now }
{
    variables.iter().all(|variable| is_short_text(&variable.0))
}

fn are_short_entries(entries: &[(Text, usize)]) -> bool
    ensures { result ≡ list_all is_short_entry entries.now }
{
    entries.iter().all(|entry| is_short_text(&entry.0) && is_short_number(entry.1))
}

fn is_short_text(text: &Text) -> bool
    ensures { result ≡ is_short_text text.now }
{
    is_short_number(text.as_str().len())
}

fn is_short_number(number: usize) -> bool
    ensures { result ≡ is_short_number number }
{
    number < 0x1_0000_0000
}
