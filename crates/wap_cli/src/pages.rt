//! Commands on one page.
ghost use Rattle.std.specs.Prelude.{◌≡◌, ◌<◌, ◌^◌, ℕ, List, Some, length};
ghost use Rattle.wap_devices.specs.Pages.{IsSmall};
ghost use Rattle.wap_keys.specs.declared.words.words.PageCommand.{PageCommand};
ghost use Rattle.wap_cli.specs.Answers.{Finds, Answers, page_of};
ghost use Rattle.wap_cli.specs.Answers.{refused_by, written_so};
ghost use Rattle.wap_cli.specs.Headline.{Serves};

use crate::Status;
use crate::inspect::{
    PageErr, PageFault, canonical, check_line, compiled_bytes, unit_in, verify_line,
};
use std::alloc::Global;
use wap_base::{Bytes, Text};
use wap_devices::{Failed, Fetched, Sink, Store, StoreErr, write_all};
use wap_dis::listing;
use wap_keys::words::PageCommand;

/// How a command ends that writes nothing.
fn refused_by(error: PageErr) -> Status
    ensures { result ≡ refused_by error }
{
    match error {
        PageErr::Refused(fault) => Status::Refused(fault),
        PageErr::NoMemory => Status::NoMemory,
    }
}

/// How a command ends that wrote its text, or failed to.
fn written_so(wrote: Result<(), Failed>) -> Status
    ensures { result ≡ written_so wrote }
{
    match wrote {
        Ok(()) => Status::Done,
        Err(Failed) => Status::WriteFault,
    }
}

/// Writes the text that was found for a command.
fn write_found<O: Sink>(found: Result<Bytes, PageErr>, out: &mut O) -> Status
    ensures { (command : PageCommand) (bytes : List ℕ) → Finds command bytes found
        → Answers command (Some bytes) (O.seen out.old) (O.seen out.new) result }
{
    match found {
        Ok(text) => written_so(write_all(out, text.as_slice())),
        Err(error) => refused_by(error),
    }
}

/// Writes the listing of a unit.
fn list<O: Sink>(alloc: Global, bytes: &[u8], out: &mut O) -> Status
    requires { length bytes.now < 2 ^ 31 }
    ensures { Answers PageCommand.List (Some bytes.now) (O.seen out.old) (O.seen out.new)
        result }
{
    match unit_in(alloc, bytes) {
        Ok(unit) => written_so(listing(&unit, out)),
        Err(error) => refused_by(error),
    }
}

/// Does a command on a page with these bytes.
fn answer_bytes<O: Sink>(alloc: Global, command: PageCommand, bytes: &[u8], out: &mut O) -> Status
    requires { length bytes.now < 2 ^ 31 }
    ensures { Answers command (Some bytes.now) (O.seen out.old) (O.seen out.new)
        result }
{
    match command {
        PageCommand::Verify => write_found(verify_line(alloc, bytes), out),
        PageCommand::List => list(alloc, bytes, out),
        PageCommand::Check => write_found(check_line(alloc, bytes), out),
        PageCommand::Canon => write_found(canonical(alloc, bytes), out),
        PageCommand::Compile => write_found(compiled_bytes(alloc, bytes), out),
    }
}

/// Does a command on what the store answered.
fn answer_page<O: Sink>(alloc: Global, command: PageCommand, page: &Fetched, out: &mut O) -> Status
    requires { IsSmall page.now }
    ensures { Answers command (page_of page.now) (O.seen out.old) (O.seen out.new)
        result }
{
    match page {
        Fetched::Missing => Status::Refused(PageFault::Missing),
        Fetched::Found(bytes) => answer_bytes(alloc, command, bytes.as_slice(), out),
    }
}

/// Does a command on the page of a name.
pub(crate) fn answer<S: Store, O: Sink>(
    alloc: Global,
    command: PageCommand,
    name: &Text,
    store: &mut S,
    out: &mut O,
) -> Status
    ensures { Serves command name.now (S.seen store.old) (S.seen store.new) (O.seen out.old)
        (O.seen out.new) result }
{
    match store.fetch(name) {
        Ok(page) => answer_page(alloc, command, &page, out),
        Err(StoreErr::Failed) => Status::StoreFault,
        Err(StoreErr::NoMemory) => Status::NoMemory,
    }
}
