//! How a run of the program ended.
ghost use Rattle.std.specs.Prelude.{◌≡◌, ◌++◌, codes};
ghost use Rattle.wap_devices.specs.Sinks.{Puts};
ghost use Rattle.wap_cli.specs.Statuses.{number_of, fault_name, fixed_line, status_line};

use itoa::Buffer;
use wap_devices::{Failed, Sink, write_all};
use wap_keys::KeyFault;
use wap_pages::PageFault;

/// How a run ended.
#[derive(Debug, Drop, PartialEq, Eq)]
pub enum Status {
    Done,
    /// The words aren't those of a command.
    Usage,
    /// The one page of a command is missing or refused.
    Refused(PageFault),
    /// The store failed.
    StoreFault,
    /// The source of the keys failed.
    KeyReadFault,
    /// The sink failed.
    WriteFault,
    NoMemory,
    /// A line is no key line; lines are counted from 1.
    BadKey { line: u32, fault: KeyFault },
    /// The keys ended while a script waited in a dialog.
    OpenDialog,
    /// There are more bytes of key lines than are read.
    TooManyKeys,
}

/// The end of the line of a line that is no key line: why it is none.
fn fault_end(fault: KeyFault) -> &'static [u8]
    ensures { result.now ≡ codes " " ++ (fault_name fault ++ codes "\n") }
{
    match fault {
        KeyFault::TooLong => b" TooLong\n",
        KeyFault::NotText => b" NotText\n",
        KeyFault::UnknownWord => b" UnknownWord\n",
        KeyFault::Missing => b" Missing\n",
        KeyFault::BadNumber => b" BadNumber\n",
        KeyFault::Surplus => b" Surplus\n",
        KeyFault::NoMemory => b" NoMemory\n",
    }
}

/// Writes the line of a line that is no key line.
fn print_bad_key<O: Sink>(out: &mut O, line: u32, fault: KeyFault) -> Result<(), Failed>
    ensures { Puts (status_line (Status.BadKey line fault)) (O.seen out.old) (O.seen out.new)
        result }
{
    let mut buffer = Buffer::new();
    write_all(out, b"wap: line ")?;
    write_all(out, buffer.format(line).as_bytes())?;
    write_all(out, fault_end(fault))
}

/// Writes the line of a page that is refused.
fn print_refused<O: Sink>(out: &mut O, fault: &PageFault) -> Result<(), Failed>
    ensures { Puts (status_line (Status.Refused fault.now)) (O.seen out.old) (O.seen out.new)
        result }
{
    write_all(out, b"wap: refused ")?;
    fault.print(out)?;
    write_all(out, b"\n")
}

impl Status {
    /// The number with which the program ends.
    pub fn number(&self) -> u8
        ensures { result ≡ number_of self.now }
    {
        match self {
            Status::Done => 0,
            Status::Usage => 1,
            Status::Refused(_) => 2,
            Status::StoreFault => 3,
            Status::KeyReadFault => 4,
            Status::WriteFault => 5,
            Status::NoMemory => 6,
            Status::BadKey { .. } => 7,
            Status::OpenDialog => 8,
            Status::TooManyKeys => 9,
        }
    }

    /// The line that tells of it, where it is the same each time, and else nothing.
    fn line(&self) -> &'static [u8]
        ensures { result.now ≡ fixed_line self.now }
    {
        match self {
            Status::Done | Status::Refused(_) | Status::BadKey { .. } => b"",
            Status::Usage => b"wap: usage\n",
            Status::StoreFault => b"wap: store fault\n",
            Status::KeyReadFault => b"wap: key read fault\n",
            Status::WriteFault => b"wap: write fault\n",
            Status::NoMemory => b"wap: no memory\n",
            Status::OpenDialog => b"wap: open dialog\n",
            Status::TooManyKeys => b"wap: too many keys\n",
        }
    }

    /// Writes the line that tells of it, and nothing where all went well.
    pub fn print<O: Sink>(&self, out: &mut O) -> Result<(), Failed>
        ensures { Puts (status_line self.now) (O.seen out.old) (O.seen out.new) result }
    {
        match self {
            Status::Refused(fault) => print_refused(out, fault),
            Status::BadKey { line, fault } => print_bad_key(out, *line, *fault),
            Status::Done
            | Status::Usage
            | Status::StoreFault
            | Status::KeyReadFault
            | Status::WriteFault
            | Status::NoMemory
            | Status::OpenDialog
            | Status::TooManyKeys => write_all(out, self.line()),
        }
    }
}
