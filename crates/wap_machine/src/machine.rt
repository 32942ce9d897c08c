//! Machines, and machines that wait.
ghost use Rattle.std.specs.Prelude.{◌≡◌, [], ◌∷◌, ◌<◌, ◌≤◌, length, reverse, IfOk};
ghost use Rattle.std.specs.List.{AllByRecursion};
ghost use Rattle.wap_base.specs.declared.limits.TheConstants.{MOST_DEPTH};
ghost use Rattle.wap_base.specs.Limits.{AreInRange};
ghost use Rattle.wap_machine.specs.Seen.{function_in, function_of};
ghost use Rattle.wap_machine.specs.Standing.{CanEnter};
ghost use Rattle.wap_machine.specs.Stacks.{stack, answered, IsEntered};
ghost use Rattle.wap_machine.specs.Standing.{Stands};
ghost use Rattle.wap_machine.specs.inside.Innermost.{IsInnermost};
ghost use Rattle.wap_machine.specs.inside.Weights.{weight, heavy};
ghost use Rattle.wap_machine.specs.Doing.{StandsFor};
ghost use Rattle.wap_machine.specs.inside.Advances.{gives, wanted_for};
ghost use Rattle.wap_machine.specs.inside.Rounds.{ComesTo};

use crate::going::go_round;
use crate::{Callee, Frame, Host, Next, Script};
use std::alloc::Global;
use std::marker::Model;
use wap_base::{Limits, NoMemory, Shared};
use wap_execution::{Dialog, Fatal};
use wap_url::Url;
use wap_value::Value;
use wap_verify::Verified;

/// A machine that goes on. A contract sees its limits and its frames, the innermost first.
#[derive(Drop)]
pub struct Machine {
    alloc: Global,
    limits: Limits,
    frame: Frame,
    /// The frames outside the innermost, the outermost first.
    outer: Vec<Frame>,
}

impl Model for Machine {
    ghost use Rattle.std.specs.Prelude.{◌∷◌, reverse};
    ghost use Rattle.wap_machine.specs.Stacks.{Stack, stack};
    ghost use Rattle.wap_machine.specs.inside.Stacked.{AreStacked};

    ghost Value = { Stack };

    ghost view = { λ machine. stack machine.limits (machine.frame ∷ reverse machine.outer.items) };

    ghost invariant = { λ machine.
        AreStacked machine.limits machine.frame 0 (reverse machine.outer.items) };
}

/// A machine that waits for the value of a call, which may be the answer to a dialog.
#[derive(Drop)]
pub struct Waiting {
    alloc: Global,
    limits: Limits,
    frame: Frame,
    /// The frames outside the innermost, the outermost first.
    outer: Vec<Frame>,
}

impl Model for Waiting {
    ghost use Rattle.std.specs.Prelude.{◌∷◌, reverse};
    ghost use Rattle.wap_machine.specs.Stacks.{Stack, stack};
    ghost use Rattle.wap_machine.specs.inside.Stacked.{AreStacked};

    ghost Value = { Stack };

    ghost view = { λ waiting. stack waiting.limits (waiting.frame ∷ reverse waiting.outer.items) };

    ghost invariant = { λ waiting.
        AreStacked waiting.limits waiting.frame 1 (reverse waiting.outer.items) };
}

/// What a run comes to.
#[derive(Drop)]
pub enum Outcome {
    /// The function gave a value.
    Done(Value),
    /// The script ended itself with a value.
    Exited(Value),
    /// The script ended abnormally.
    Fatal(Fatal),
    /// The script asks its user, and goes on with the answer.
    Asks(Dialog, Waiting),
}

/// What one instruction leaves to do.
#[derive(Drop)]
pub enum Step {
    Goes(Machine),
    Ends(Outcome),
}

/// What has to be asked of the host before a machine goes on.
#[derive(Drop)]
pub enum Wanted {
    Nothing(Step),
    /// A turn.
    Turn(Machine),
    /// A turn, and then a call.
    Call(Waiting, Callee, Vec<Value>),
}

/// Goes on outside a function that gave a value, if it was called.
fn give(alloc: Global, limits: Limits, outer: Vec<Frame>, value: Value) -> Step
    requires limits { AreInRange limits }
    requires others { AllByRecursion (λ frame. Stands frame 1) (reverse outer.items) }
    requires few { length outer.items < MOST_DEPTH }
    ensures { result ≡ gives limits (reverse outer.items) value }
{
    let mut outer = outer;
    match outer.pop() {
        Some(frame) => {
            let waiting = Waiting {
                alloc,
                limits,
                frame,
                outer,
            };
            Step::Goes(waiting.go_on(value))
        }
        None => Step::Ends(Outcome::Done(value)),
    }
}

/// What is wanted after an instruction.
fn want_for(alloc: Global, limits: Limits, frame: Frame, outer: Vec<Frame>, next: Next) -> Wanted
    requires limits { AreInRange limits }
    requires innermost { StandsFor frame next }
    requires others { AllByRecursion (λ frame. Stands frame 1) (reverse outer.items) }
    requires few { length outer.items < MOST_DEPTH }
    ensures { result ≡ wanted_for limits frame (reverse outer.items) next }
{
    match next {
        Next::Onward => Wanted::Nothing(Step::Goes(Machine {
            alloc,
            limits,
            frame,
            outer,
        })),
        Next::Back => Wanted::Turn(Machine {
            alloc,
            limits,
            frame,
            outer,
        }),
        Next::Call(callee, arguments) => {
            let waiting = Waiting {
                alloc,
                limits,
                frame,
                outer,
            };
            Wanted::Call(waiting, callee, arguments)
        }
        Next::Return(value) => Wanted::Nothing(give(alloc, limits, outer, value)),
        Next::End(why) => Wanted::Nothing(Step::Ends(Outcome::Fatal(why))),
    }
}

impl Machine {
    /// Does instructions up to one that asks for more than to go on with a turn for each jump back,
    /// or ends the innermost function.
    // In `run`, as `go_round` is.
    #[inline(always)]
    pub(crate) fn advance<P, H: Host<P>>(self, host: &mut H) -> Result<Wanted, NoMemory>
        ensures comes { IfOk result (ComesTo H.meaning self.limits
            (H.turns host.old) (H.turns host.new) self.frames) }
        ensures turns { H.turns host.new ≤ H.turns host.old }
        ensures state { (pages : P) (under : H.Under)
            → H.state host.new pages under ≡ H.state host.old pages under }
    {
        let Machine {
            alloc,
            limits,
            mut frame,
            outer,
        } = self;
        let next = go_round(alloc, &mut frame, limits, host)?;
        Ok(want_for(alloc, limits, frame, outer, next))
    }

    /// A function of a unit at its beginning.
    pub fn start(
        alloc: Global,
        unit: Shared<Verified>,
        base: Url,
        referer: Option<Url>,
        function: u8,
        args: Vec<Value>,
        limits: Limits,
    ) -> Result<Machine, NoMemory>
        requires function { CanEnter
            (function_in unit base referer function) args.items }
        requires limits { AreInRange limits }
        ensures { IfOk result (IsEntered limits
            (function_in unit base referer function) args.items []) }
    {
        let script = Script {
            unit,
            base,
            referer,
        };
        let script = Shared::new(alloc, script)?;
        let frame = Frame::begin(alloc, script, function, args)?;
        Ok(Machine {
            alloc,
            limits,
            frame,
            outer: Vec::new(alloc),
        })
    }
}

impl Waiting {
    /// The machine that goes on with a value.
    pub fn answer(self, v: Value) -> Machine
        ensures { result ≡ stack self.limits (answered v self.frames) }
    {
        self.go_on(v)
    }

    /// The machine that goes on with a value, which is as light as all machines.
    pub(crate) fn go_on(self, v: Value) -> Machine
        ensures is { result ≡ stack self.limits (answered v self.frames) }
        ensures light { weight result.frames < heavy }
    {
        let Waiting {
            alloc,
            limits,
            mut frame,
            outer,
        } = self;
        frame.push(v);
        Machine {
            alloc,
            limits,
            frame,
            outer,
        }
    }

    /// The machine that goes into a function.
    pub(crate) fn enter(
        self,
        script: Shared<Script>,
        index: u8,
        arguments: Vec<Value>,
    ) -> Result<Machine, NoMemory>
        requires few { length self.frames < MOST_DEPTH }
        requires function { CanEnter (function_of script index) arguments.items }
        ensures is { IfOk result (IsEntered self.limits
            (function_of script index) arguments.items self.frames) }
        ensures light { IfOk result (λ machine. weight machine.frames < heavy) }
    {
        let Waiting {
            alloc,
            limits,
            frame,
            mut outer,
        } = self;
        let inner = Frame::begin(alloc, script, index, arguments)?;
        outer.push(frame)?;
        Ok(Machine {
            alloc,
            limits,
            frame: inner,
            outer,
        })
    }

    /// The frame that waits innermost.
    pub(crate) fn frame(&self) -> &Frame
        ensures { IsInnermost result.now self.now.frames }
    {
        &self.frame
    }

    /// How many functions are at work.
    pub(crate) fn depth(&self) -> usize
        ensures depth { result ≡ length self.now.frames }
        ensures few { result ≤ MOST_DEPTH }
    {
        self.outer.len() + 1
    }

    pub(crate) fn limits(&self) -> Limits
        ensures limits { result ≡ self.now.limits }
        ensures range { AreInRange self.now.limits }
    {
        self.limits
    }

    pub(crate) fn alloc(&self) -> Global {
        self.alloc
    }
}
