//! The library Dialogs (WAP-194, "Dialogs Library"): a dialog shows its line, and then waits for its
//! answer.
ghost use Rattle.std.specs.Prelude.{◌≡◌, IfOk, codes};
ghost use Rattle.wap_world.specs.scripting.Dialogs.{dialog_line};
ghost use Rattle.wap_world.specs.scripting.Browsing.{asks, label_or};
ghost use Rattle.wap_world.specs.scripting.Browsing.{dialogs_prompt, dialogs_confirm};
ghost use Rattle.wap_world.specs.scripting.Browsing.{dialogs_alert};
ghost use Rattle.wap_world.specs.scripting.Browsing.{dialogs};
ghost use Rattle.wap_context.specs.host.Serving.{Gave};

use crate::host::browsing::argument;
use crate::host::sight::Sight;
use std::alloc::Global;
use wap_base::{NoMemory, Text};
use wap_execution::{Dialog, HostOut};
use wap_value::{Value, to_str};

/// The line of a dialog.
#[tactic(auto, using(wap_base::proofs::Plain::words))]
fn dialog_line(alloc: Global, dialog: &Dialog) -> Result<Text, NoMemory>
    ensures { IfOk result (λ line. line ≡ dialog_line dialog.now) }
{
    let mut line = Text::new(alloc);
    match dialog {
        Dialog::Prompt(message, first) => {
            line.add("? prompt ")?;
            line.add(message.as_str())?;
            line.add(" | ")?;
            line.add(first.as_str())?;
        }
        Dialog::Confirm(message, first, second) => {
            line.add("? confirm ")?;
            line.add(message.as_str())?;
            line.add(" | ")?;
            line.add(first.as_str())?;
            line.add(" | ")?;
            line.add(second.as_str())?;
        }
        Dialog::Alert(message) => {
            line.add("? alert ")?;
            line.add(message.as_str())?;
        }
    }
    Ok(line)
}

/// The label of the first answer; an empty one stands for the usual one.
#[tactic(auto, using(wap_base::proofs::Plain::words))]
fn first_label(alloc: Global, label: Text) -> Result<Text, NoMemory>
    ensures { IfOk result (λ whole. whole ≡ label_or label (codes "OK")) }
{
    if label.is_empty() {
        return Text::of(alloc, "OK");
    }
    Ok(label)
}

/// The label of the second answer; an empty one stands for the usual one.
#[tactic(auto, using(wap_base::proofs::Plain::words))]
fn second_label(alloc: Global, label: Text) -> Result<Text, NoMemory>
    ensures { IfOk result (λ whole. whole ≡ label_or label (codes "Cancel")) }
{
    if label.is_empty() {
        return Text::of(alloc, "Cancel");
    }
    Ok(label)
}

impl Sight {
    /// Shows the line of a dialog, which then waits for its answer.
    fn ask(&mut self, dialog: Dialog) -> Result<HostOut, NoMemory>
        ensures { IfOk result (Gave (asks dialog) self.old self.new) }
    {
        let line = dialog_line(self.alloc, &dialog)?;
        self.lines.add(line.as_str())?;
        Ok(HostOut::Asks(dialog))
    }

    /// Asks for one of two answers, by their labels.
    fn ask_to_confirm(
        &mut self,
        message: Text,
        first: Text,
        second: Text,
    ) -> Result<HostOut, NoMemory>
        ensures { IfOk result (Gave (asks (Dialog.Confirm message (label_or first (codes "OK"))
            (label_or second (codes "Cancel")))) self.old self.new) }
    {
        let first = first_label(self.alloc, first)?;
        let second = second_label(self.alloc, second)?;
        self.ask(Dialog::Confirm(message, first, second))
    }

    /// WAP-194, "prompt".
    fn prompt(&mut self, message: &Value, first: &Value) -> Result<HostOut, NoMemory>
        ensures { IfOk result (Gave (dialogs_prompt message.now first.now) self.old self.new) }
    {
        let Some(message) = to_str(self.alloc, message)? else {
            return Ok(HostOut::Value(Value::Invalid));
        };
        match to_str(self.alloc, first)? {
            Some(first) => self.ask(Dialog::Prompt(message, first)),
            None => Ok(HostOut::Value(Value::Invalid)),
        }
    }

    /// WAP-194, "confirm".
    fn confirm(
        &mut self,
        message: &Value,
        first: &Value,
        second: &Value,
    ) -> Result<HostOut, NoMemory>
        ensures { IfOk result
            (Gave (dialogs_confirm message.now first.now second.now) self.old self.new) }
    {
        let Some(message) = to_str(self.alloc, message)? else {
            return Ok(HostOut::Value(Value::Invalid));
        };
        let Some(first) = to_str(self.alloc, first)? else {
            return Ok(HostOut::Value(Value::Invalid));
        };
        match to_str(self.alloc, second)? {
            Some(second) => self.ask_to_confirm(message, first, second),
            None => Ok(HostOut::Value(Value::Invalid)),
        }
    }

    /// WAP-194, "alert".
    fn alert(&mut self, message: &Value) -> Result<HostOut, NoMemory>
        ensures { IfOk result (Gave (dialogs_alert message.now) self.old self.new) }
    {
        match to_str(self.alloc, message)? {
            Some(message) => self.ask(Dialog::Alert(message)),
            None => Ok(HostOut::Value(Value::Invalid)),
        }
    }

    /// A function of the library by its number.
    pub(crate) fn dialogs(&mut self, function: u8, arguments: &[Value]) -> Result<HostOut, NoMemory>
        ensures { IfOk result (Gave (dialogs function arguments.now) self.old self.new) }
    {
        let absent = Value::Invalid;
        let first = argument(arguments, 0, &absent);
        let second = argument(arguments, 1, &absent);
        match function {
            0 => self.prompt(first, second),
            1 => self.confirm(first, second, argument(arguments, 2, &absent)),
            2 => self.alert(first),
            _ => Ok(HostOut::Value(Value::Invalid)),
        }
    }
}
