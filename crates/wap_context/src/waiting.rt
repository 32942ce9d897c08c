//! What calls leave to do.
ghost use Rattle.std.specs.Prelude.{◌≡◌, None, IfOk};
ghost use Rattle.std.specs.Option.{option_map};
ghost use Rattle.wap_world.specs.Steps.{then_task};
ghost use Rattle.wap_machine.specs.Stacks.{stack};
ghost use Rattle.wap_context.specs.inside.Moving.{next_in, waits_in};

use std::alloc::Global;
use std::marker::Model;
use wap_base::NoMemory;
use wap_cardrules::Task;
use wap_execution::Dialog;
use wap_layout::buffer::Lines;
use wap_machine::Waiting as Machine;
use wap_state::page_urls::PageUrl;

/// What is held of a script that waits.
#[derive(Drop)]
struct Held {
    machine: Machine,
    base: PageUrl,
}

/// A script that waits for the answer to its dialog, which stands in memory of its own, so that
/// what a key comes to stays small. A contract sees its limits, its frames and the URL of the
/// script that was started.
#[derive(Drop)]
pub struct Waiting {
    held: Box<Held>,
}

impl Model for Waiting {
    ghost use Rattle.wap_context.specs.Pausing.{Paused};

    ghost Value = { Paused };

    ghost view = { λ waiting. record {
      limits = waiting.held.value.machine.limits;
      frames = waiting.held.value.machine.frames;
      base = waiting.held.value.base;
    } };
}

impl Waiting {
    /// A machine that waits, with the URL of the script that was started.
    pub(crate) fn of(alloc: Global, machine: Machine, base: PageUrl) -> Result<Waiting, NoMemory>
        ensures { IfOk result (λ waiting. waiting
            ≡ record { limits = machine.limits; frames = machine.frames; base = base }) }
    {
        let held = Box::new(alloc, Held { machine, base })?;
        Ok(Waiting { held })
    }

    /// The machine that waits, and the URL of the script that was started.
    pub(crate) fn into_parts(self) -> (Machine, PageUrl)
        ensures machine { result.0 ≡ stack self.limits self.frames }
        ensures base { result.1 ≡ self.base }
    {
        let Held { machine, base } = Box::into_inner(self.held);
        (machine, base)
    }
}

/// What a call comes to, with the lines that it shows.
#[derive(Drop)]
pub enum Step {
    /// Nothing is left to do.
    Settled(Lines),
    /// A script asks its user, and goes on with the answer.
    Asks(Lines, Dialog, Waiting),
}

/// What time that passes in a dialog comes to.
#[derive(Drop)]
pub enum Ticked {
    /// No timer runs, and nothing is changed.
    NotRunning,
    /// The timer counted it, with the lines that this shows.
    Counted(Lines),
}

/// What one navigation leaves to do.
#[derive(Drop)]
pub enum Went {
    /// Nothing.
    Settled,
    /// A task; where there is no card, from the URL of the script that asked for it.
    Leads(Task, Option<PageUrl>),
    /// A script asks its user, and goes on with the answer.
    Asks(Dialog, Waiting),
}

/// What a task of the current card leaves to do, if there is one.
pub(crate) fn went_to(next: Option<Task>) -> Went
    ensures next { next_in result ≡ option_map then_task next }
    ensures none { waits_in result ≡ None }
{
    match next {
        Some(task) => Went::Leads(task, None),
        None => Went::Settled,
    }
}
