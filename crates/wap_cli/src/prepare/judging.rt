//! Judging pages side by side.
ghost use Rattle.std.specs.Prelude.{◌≡◌, ◌<◌, ◌^◌, Some, Ok, map, length, IfOk};
ghost use Rattle.wap_devices.specs.Pages.{IsSmall};
ghost use Rattle.wap_cli.specs.prepare.Reports.{IsVerdict, IsForFault};
ghost use Rattle.wap_cli.specs.Answers.{page_of};
ghost use Rattle.wap_cli.specs.prepare.inside.Jobs.{IsRight};

use crate::prepare::job::Job;
use std::alloc::Global;
use wap_base::{NoMemory, Text};
use wap_devices::Fetched;
use wap_folder::Work;
use wap_pages::{PageErr, PageFault, judge};

/// The fault for which a page with these bytes is refused, or none.
fn judge_bytes(alloc: Global, name: &Text, bytes: &[u8]) -> Result<Option<PageFault>, NoMemory>
    requires { length bytes.now < 2 ^ 31 }
    ensures verdict { IfOk result (IsVerdict name.now (Some bytes.now)) }
    ensures for_fault { IfOk result IsForFault }
{
    match judge(alloc, name, bytes) {
        Ok(_) => Ok(None),
        Err(PageErr::Refused(fault)) => Ok(Some(fault)),
        Err(PageErr::NoMemory) => Err(NoMemory),
    }
}

/// The fault for which what a store answered is refused, or none.
fn judge_page(alloc: Global, name: &Text, page: &Fetched) -> Result<Option<PageFault>, NoMemory>
    requires { IsSmall page.now }
    ensures verdict { IfOk result (IsVerdict name.now (page_of page.now)) }
    ensures for_fault { IfOk result IsForFault }
{
    match page {
        Fetched::Found(bytes) => judge_bytes(alloc, name, bytes.as_slice()),
        Fetched::Missing => Ok(Some(PageFault::Missing)),
    }
}

/// Pages are judged, each by itself.
#[derive(Drop)]
pub(crate) struct Judging {
    /// Where memory is taken.
    pub(crate) alloc: Global,
}

impl Work for Judging {
    type Job = Job;

    type Answer = Result<(Text, Option<PageFault>), NoMemory>;

    ghost right = { λ _ job answer. IfOk answer (IsRight job) };

    fn work(&self, job: &Job) -> Result<(Text, Option<PageFault>), NoMemory> {
        let name = job.name().copy(self.alloc)?;
        let verdict = judge_page(self.alloc, job.name(), job.page())?;
        Ok((name, verdict))
    }
}

/// What jobs came to, if memory sufficed for all.
pub fn all_answers<A: Drop>(
    alloc: Global,
    answers: Vec<Result<A, NoMemory>>,
) -> Result<Vec<A>, NoMemory>
    ensures { IfOk result (λ all. map Ok all.items ≡ answers.items) }
{
    let mut all = Vec::new(alloc);
    for answer in answers {
        all.push(answer?)?;
    }
    Ok(all)
}
