//! Navigations, and all that they lead to.
ghost use Rattle.wap_context.specs.inside.Moving.{Pursues, pursued};

use crate::context::Context;
use crate::waiting::{Step, Went};
use std::alloc::Global;
use wap_base::RunErr;
use wap_layout::buffer::Lines;
use wap_world::site::Pages;

impl Context {
    /// Takes what is left to do and all that it leads to, until nothing is, or a script asks its
    /// user.
    pub(crate) fn follow<P: Pages>(
        &mut self,
        alloc: Global,
        pages: &mut P,
        first: Went,
        lines: Lines,
    ) -> Result<Step, RunErr>
        ensures { Pursues (pursued first)
            (P.seen pages.old) (P.seen pages.new) self.old self.new lines result }
    {
        let mut shown = lines;
        let mut went = first;
        loop {
            match went {
                Went::Settled => return Ok(Step::Settled(shown)),
                Went::Asks(dialog, waiting) => return Ok(Step::Asks(shown, dialog, waiting)),
                Went::Leads(task, from) => {
                    went = self.task_once(alloc, pages, task, from, &mut shown)?;
                }
            }
        }
    }
}
