//! The labels of loops whose code isn't complete yet.
ghost use Rattle.std.specs.Prelude.{◌≡◌, ◌<◌, ◌≤◌, ◌+◌, ◌++◌, List, length, map};
ghost use Rattle.std.specs.Prelude.{slice_set, slice_index_or};
ghost use Rattle.wap_asm.specs.declared.form.Form.{Form};
ghost use Rattle.wap_codegen.specs.emission.inside.Exits.{redirected};

use wap_asm::Form;

/// The label of `break` in a loop whose end isn't known yet.
pub(crate) const BREAK: u32 = 4294967295;

/// The label of `continue` in a loop whose end isn't known yet. No other label comes up to it.
pub(crate) const CONTINUE: u32 = 4294967294;

/// A form as it is where the labels of the loop around it are known.
fn redirected(form: Form, end: u32, again: u32) -> Form
    ensures { result ≡ redirected end again form }
{
    match form {
        Form::Jump(name, BREAK) => Form::Jump(name, end),
        Form::Jump(name, CONTINUE) => Form::Jump(name, again),
        Form::Jump(name, label) => Form::Jump(name, label),
        Form::Op(instr) => Form::Op(instr),
        Form::Label(label) => Form::Label(label),
    }
}

/// Gives the jump at an index its label, if it is one of `break` or `continue`.
fn redirect_at(forms: &mut Vec<Form>, at: usize, end: u32, again: u32)
    requires { at < length forms.now.items }
    ensures redirected { (form : Form) → form ≡ slice_index_or forms.old.items at form
        → forms.new.items ≡ slice_set forms.old.items at (redirected end again form) }
    ensures same_length { length forms.new.items ≡ length forms.old.items }
{
    forms[at] = redirected(forms[at], end, again);
}

/// Gives the jumps of `break` and `continue` from one index up to another their labels.
pub(crate) fn redirect(forms: &mut Vec<Form>, from: usize, to: usize, end: u32, again: u32)
    requires { to ≤ length forms.now.items }
    ensures { (before items after : List Form) → forms.old.items ≡ before ++ (items ++ after)
        → from ≡ length before → to ≡ length before + length items
        → forms.new.items ≡ before ++ (map (redirected end again) items ++ after) }
{
    for at in from..to {
        redirect_at(forms, at, end, again);
    }
}
