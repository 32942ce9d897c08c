//! Functions at work.
ghost use Rattle.std.specs.Prelude.{◌≡◌, [], ◌++◌, replicate, ◌+◌, ◌<◌, ◌≤◌, length, take, drop};
ghost use Rattle.std.specs.Prelude.{reverse, slice_get, Some, IfOk, OnOk, OnErr};
ghost use Rattle.std.specs.Prelude.{MatchOption};
ghost use Rattle.wap_execution.specs.Frames.{code_of, pushed};
ghost use Rattle.wap_base.specs.Limits.{IsStringLimit};
ghost use Rattle.wap_base.specs.Outcome.{Meets};
ghost use Rattle.wap_value.specs.declared.value.Value.{Value as TheValue};
ghost use Rattle.wap_value.specs.declared.value.Value.TheVariants.{Str};
ghost use Rattle.wap_value.specs.Binary.{TakesBoth, binary_of};
ghost use Rattle.wap_value.specs.TooLong.{kept_within};
ghost use Rattle.wap_machine.specs.Seen.{function_of, moved, with_variable, with_operands};
ghost use Rattle.wap_machine.specs.Standing.{CanEnter};
ghost use Rattle.wap_machine.specs.Standing.{IsReached, IsBegun};

use crate::script::Script;
use std::alloc::Global;
use std::marker::Model;
use std::mem;
use wap_base::{NoMemory, Shared, Text};
use wap_value::{BinOp, Value, ValueFault, binary};
use wap_verify::Verified;

/// A function at work. A contract sees its operands with the topmost first.
#[derive(Drop)]
pub struct Frame {
    script: Shared<Script>,
    index: u8,
    place: usize,
    variables: Vec<Value>,
    /// They have room for as many as there ever are.
    operands: Vec<Value>,
}

impl Model for Frame {
    ghost use Rattle.std.specs.Prelude.{vec_capacity};
    ghost use Rattle.wap_execution.specs.Frames.{Frame};
    ghost use Rattle.wap_machine.specs.Seen.{function_of, frame_of};
    ghost use Rattle.wap_machine.specs.Standing.{HasRoom};

    ghost Value = { Frame };

    ghost view = { λ frame. frame_of (function_of frame.script frame.index)
        frame.place frame.variables.items frame.operands.items };

    ghost invariant = { λ frame. HasRoom
        (function_of frame.script frame.index) (vec_capacity frame.operands) };
}

impl Frame {
    /// A function at its beginning.
    pub fn begin(
        alloc: Global,
        script: Shared<Script>,
        index: u8,
        arguments: Vec<Value>,
    ) -> Result<Frame, NoMemory>
        requires { CanEnter (function_of script index) arguments.items }
        ensures { IfOk result (IsBegun (function_of script index) arguments.items) }
    {
        let Some(function) = script.unit.unit().functions.get(index as usize) else {
            unreachable!()
        };
        let variables = with_empty(alloc, arguments, function.locals)?;
        let operands = Vec::with_capacity(alloc, script.unit.room(index))?;
        Ok(Frame {
            script,
            index,
            place: 0,
            variables,
            operands,
        })
    }

    /// The unit with its URLs.
    pub fn script(&self) -> &Shared<Script>
        ensures { function_of result.now self.now.function.index ≡ self.now.function }
    {
        &self.script
    }

    /// Its index in the unit.
    pub fn index(&self) -> u8
        ensures { result ≡ self.now.function.index }
    {
        self.index
    }

    /// Puts a value on top.
    pub fn push(&mut self, value: Value)
        requires { IsReached self.old.function (length self.old.operands + 1) }
        ensures { self.new ≡ pushed value self.old }
    {
        self.operands.push_reserved(value);
    }

    /// Takes the value on top.
    pub(crate) fn pop(&mut self) -> Option<Value>
        ensures { MatchOption result ((self.old.operands ≡ []) × (self.new ≡ self.old))
            (λ value. self.old ≡ pushed value self.new) }
    {
        self.operands.pop()
    }

    /// The unit.
    pub(crate) fn unit(&self) -> &Verified
        ensures { result.now ≡ self.now.function.unit }
    {
        &self.script.unit
    }

    /// The function's instructions.
    pub(crate) fn code(&self) -> &[u8]
        ensures { result.now ≡ code_of self.now.function }
    {
        self.script.code(self.index)
    }

    /// The place where it goes on.
    pub(crate) fn place(&self) -> usize
        ensures { result ≡ self.now.place }
    {
        self.place
    }

    /// Goes on at this place.
    pub(crate) fn go(&mut self, place: usize)
        ensures { self.new ≡ moved place self.old }
    {
        self.place = place;
    }

    /// A copy of a variable's value.
    pub(crate) fn variable(&self, alloc: Global, index: u32) -> Result<Value, NoMemory>
        requires { index < length self.now.variables }
        ensures { IfOk result (λ value. slice_get self.now.variables index ≡ Some value) }
    {
        self.variables[index as usize].copy(alloc)
    }

    /// Puts a value into a variable, and answers the one that was there.
    pub(crate) fn replace(&mut self, index: u32, value: Value) -> Value
        requires { index < length self.old.variables }
        ensures old { slice_get self.old.variables index ≡ Some result }
        ensures new { self.new ≡ with_variable index value self.old }
    {
        mem::replace(&mut self.variables[index as usize], value)
    }

    /// What an operator makes of a variable's value and another one.
    pub(crate) fn combine(
        &self,
        alloc: Global,
        op: BinOp,
        index: u32,
        right: &Value,
        string: u32,
    ) -> Result<Value, ValueFault>
        requires index { index < length self.now.variables }
        requires operator { TakesBoth op }
        requires limit { IsStringLimit string }
        ensures { (old : TheValue) → slice_get self.now.variables index ≡ Some old
            → Meets ValueFault.NoMemory (λ value. value) result
            (kept_within string (binary_of op old right.now)) }
    {
        binary(alloc, op, &self.variables[index as usize], right, string)
    }

    /// Takes so many arguments, the last of which is on top.
    pub(crate) fn take_arguments(&mut self, count: usize) -> Result<Vec<Value>, NoMemory>
        requires { count ≤ length self.old.operands }
        ensures arguments { IfOk result
            (λ arguments. arguments.items ≡ reverse (take count self.old.operands)) }
        ensures rest { OnOk result
            (self.new ≡ with_operands (drop count self.old.operands) self.old) }
        ensures kept { OnErr result (self.new ≡ self.old) }
    {
        let rest = self.operands.len() - count;
        Ok(self.operands.split_off(rest)?)
    }
}

/// Arguments, and as many empty Strings more.
fn with_empty(alloc: Global, arguments: Vec<Value>, count: u8) -> Result<Vec<Value>, NoMemory>
    ensures { IfOk result
        (λ variables. variables.items ≡ arguments.items ++ replicate count (Str [])) }
{
    let mut variables = arguments;
    for _ in 0..count {
        variables.push(Value::Str(Text::new(alloc)))?;
    }
    Ok(variables)
}
