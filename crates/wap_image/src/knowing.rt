//! What is known of values because programs have them: texts are of characters, and numbers have
//! so many bits.
ghost use Rattle.std.specs.Prelude.{◌<◌, ◌^◌};
ghost use Rattle.std.specs.List.{AllByRecursion};
ghost use Rattle.wap_image.specs.inside.Fitting.{FitsTimer, OfVariable, OfEntry};

use crate::context_parts::SavedTimer;
use wap_base::Text;

/// A number of 32 bits is below their power.
pub(crate) fn know_number(number: u32)
    ensures { number < 2 ^ 32 }
{
    let _known = number;
}

/// So is the time that is left to a timer.
pub(crate) fn know_timer(timer: SavedTimer)
    ensures { FitsTimer timer }
{
    if let SavedTimer::Running(tenths) = timer {
        know_number(tenths);
    }
}

/// The texts of a variable are of characters.
fn know_variable(variable: &(Text, Text))
    ensures { OfVariable variable.now }
{
    let _name = variable.0.as_str();
    let _value = variable.1.as_str();
}

/// The texts of variables are of characters.
pub(crate) fn know_variables(variables: &[(Text, Text)])
    ensures { AllByRecursion OfVariable variables.now }
{
    for variable in variables {
        know_variable(variable);
    }
}

/// The URL of an entry is of characters.
fn know_entry(entry: &(Text, usize))
    ensures { OfEntry entry.now }
{
    let _url = entry.0.as_str();
}

/// The URLs of entries are of characters.
pub(crate) fn know_entries(entries: &[(Text, usize)])
    ensures { AllByRecursion OfEntry entries.now }
{
    for entry in entries {
        know_entry(entry);
    }
}
