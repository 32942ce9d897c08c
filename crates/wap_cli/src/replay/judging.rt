//! Judging the pages of a folder.
ghost use Rattle.std.specs.Prelude.{◌≡◌, ◌<◌, ◌^◌, length, IfOk};
ghost use Rattle.wap_devices.specs.Pages.{IsSmall};
ghost use Rattle.wap_pages.specs.Judged.{page_of_bytes, page_where};
ghost use Rattle.wap_cli.specs.Answers.{page_of};
ghost use Rattle.wap_cli.specs.replay.inside.Jobs.{IsJudged};

use crate::prepare::Job;
use std::alloc::Global;
use wap_base::{NoMemory, Text};
use wap_devices::Fetched;
use wap_folder::Work;
use wap_pages::{PageErr, judge, refused_pages_have_faults};
use wap_world::site::Page;

/// The page of a name with these bytes.
fn judge_bytes(alloc: Global, name: &Text, bytes: &[u8]) -> Result<Page, NoMemory>
    requires { length bytes.now < 2 ^ 31 }
    ensures { IfOk result (λ page. page ≡ page_of_bytes name.now bytes.now) }
{
    refused_pages_have_faults();
    match judge(alloc, name, bytes) {
        Ok(page) => Ok(page),
        Err(PageErr::Refused(_)) => Ok(Page::Refused),
        Err(PageErr::NoMemory) => Err(NoMemory),
    }
}

/// What a store answered for a name, as it is judged.
fn judge_page(alloc: Global, name: &Text, page: &Fetched) -> Result<Page, NoMemory>
    requires { IsSmall page.now }
    ensures { IfOk result (λ judged. judged ≡ page_where name.now (page_of page.now)) }
{
    match page {
        Fetched::Found(bytes) => judge_bytes(alloc, name, bytes.as_slice()),
        Fetched::Missing => Ok(Page::Missing),
    }
}

/// Pages are judged, each by itself.
#[derive(Drop)]
pub(crate) struct Judging {
    /// Where memory is taken.
    pub(crate) alloc: Global,
}

impl Work for Judging {
    type Job = Job;

    type Answer = Result<(Text, Page), NoMemory>;

    ghost right = { λ _ job answer. IfOk answer (IsJudged job) };

    fn work(&self, job: &Job) -> Result<(Text, Page), NoMemory> {
        let name = job.name().copy(self.alloc)?;
        let page = judge_page(self.alloc, job.name(), job.page())?;
        Ok((name, page))
    }
}
