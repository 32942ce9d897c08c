//! Setting variables, of which some may refuse their text (WAP-191, section 10.3).
ghost use Rattle.std.specs.Prelude.{◌≡◌, ◌++◌, OnOk, OnErr};
ghost use Rattle.std.specs.Option.{option_to_list};
ghost use Rattle.wap_cardrules.specs.Setting.{set_one, set_all};

use wap_base::{NoMemory, Rows, Text};
use wap_vars::{VarFault, Vars};

/// Sets a variable, or notes why it is refused. Without memory the variables and the refusals stay.
pub fn set_one(
    vars: &mut Vars,
    name: &Text,
    text: Text,
    refused: &mut Rows<VarFault>,
) -> Result<(), NoMemory>
    ensures set { OnOk result (vars.new ≡ (set_one vars.old (name.now, text)).vars) }
    ensures refused { OnOk result
        (refused.new ≡ refused.old ++ (set_one vars.old (name.now, text)).refused) }
    ensures kept { OnErr result (vars.new ≡ vars.old) }
    ensures refused_kept { OnErr result (refused.new ≡ refused.old) }
{
    match vars.set(name, text) {
        Ok(()) => Ok(()),
        Err(VarFault::BadName) => refused.add(VarFault::BadName),
        Err(VarFault::TooLong { bytes }) => refused.add(VarFault::TooLong { bytes }),
        Err(VarFault::Full) => refused.add(VarFault::Full),
        Err(VarFault::NoMemory) => Err(NoMemory),
    }
}

/// Does the same where there is a name and a text.
pub(crate) fn set_if(
    vars: &mut Vars,
    set: Option<(Text, Text)>,
    refused: &mut Rows<VarFault>,
) -> Result<(), NoMemory>
    ensures set { OnOk result (vars.new ≡ (set_all vars.old (option_to_list set)).vars) }
    ensures refused { OnOk result
        (refused.new ≡ refused.old ++ (set_all vars.old (option_to_list set)).refused) }
    ensures kept { OnErr result (vars.new ≡ vars.old) }
{
    match set {
        Some((name, text)) => set_one(vars, &name, text, refused),
        None => Ok(()),
    }
}
