//! Forms as lines have them: each label has its place in the list as its number.
use crate::chains::{add_chain, add_label, add_pops};
use wap_asm::Form;
use wap_casebook::{Call, CaseFault};
use wap_unit::OpName;

/// What stands in a list of forms.
#[derive(Clone, Copy)]
enum Item {
    /// A jump: its name and the place of its label.
    Jump,
    /// A label.
    Label,
    /// So many instructions of one byte.
    Pops,
    /// So many jumps with this name, each over so many of the others, or at the end over so many
    /// instructions of one byte.
    Chain,
}

/// What stands in a list of forms, by its name.
static ITEMS: [(&str, Item); 4] = [
    ("jump", Item::Jump),
    ("label", Item::Label),
    ("pops", Item::Pops),
    ("chain", Item::Chain),
];

/// The jumps.
static JUMPS: [(&str, OpName); 4] = [
    ("JUMP_FW", OpName::JumpFw),
    ("JUMP_BW", OpName::JumpBw),
    ("TJUMP_FW", OpName::TjumpFw),
    ("TJUMP_BW", OpName::TjumpBw),
];

/// Adds the jump that the next arguments say.
fn add_jump(call: &mut Call, forms: &mut Vec<Form>) -> Result<(), CaseFault> {
    let name = call.meaning(&JUMPS)?;
    forms.push(Form::Jump(name, call.number32()))?;
    Ok(())
}

/// Adds the jumps that the next arguments say.
fn add_jumps(call: &mut Call, forms: &mut Vec<Form>) -> Result<(), CaseFault> {
    let name = call.meaning(&JUMPS)?;
    let (count, span) = (call.number32(), call.number32());
    add_chain(forms, name, count, span, call.number32())?;
    Ok(())
}

/// Adds what the next arguments say.
fn add_item(call: &mut Call, forms: &mut Vec<Form>) -> Result<(), CaseFault> {
    match call.meaning(&ITEMS)? {
        Item::Jump => add_jump(call, forms),
        Item::Label => Ok(add_label(forms)?),
        Item::Pops => Ok(add_pops(forms, call.number32())?),
        Item::Chain => add_jumps(call, forms),
    }
}

/// The forms that the arguments say.
pub fn forms(call: &mut Call) -> Result<Vec<Form>, CaseFault> {
    let mut forms = Vec::new(call.alloc());
    for _ in 0..u64::MAX {
        if !call.has_more() {
            break;
        }
        add_item(call, &mut forms)?;
    }
    Ok(forms)
}
