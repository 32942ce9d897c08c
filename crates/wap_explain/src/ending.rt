//! How a run of the program ended.
ghost use Rattle.std.specs.Prelude.{◌≡◌};
ghost use Rattle.wap_explain.specs.Explaining.{number_of};

use wap_devices::{Failed, Sink, write_all};
use wap_pages::PageFault;

/// How a run ended. The numbers are those of `wap`.
#[derive(Debug, Drop, PartialEq, Eq)]
pub enum Ending {
    /// The page is good.
    Good,
    /// The words aren't a folder and the name of a page.
    Usage,
    /// The page is missing or refused.
    Refused(PageFault),
    /// The store failed.
    StoreFault,
    /// The sink failed.
    WriteFault,
    NoMemory,
}

impl Ending {
    /// The number with which the program ends.
    pub fn number(&self) -> u8
        ensures { result ≡ number_of self.now }
    {
        match self {
            Ending::Good => 0,
            Ending::Usage => 1,
            Ending::Refused(_) => 2,
            Ending::StoreFault => 3,
            Ending::WriteFault => 5,
            Ending::NoMemory => 6,
        }
    }

    /// The line of standard error that tells of it. What is to be said of a page stands in standard
    /// output.
    fn line(&self) -> &'static [u8] {
        match self {
            Ending::Good | Ending::Refused(_) => b"",
            Ending::Usage => b"wap_explain: usage: FOLDER NAME, or mend FOLDER NAME\n",
            Ending::StoreFault => b"wap_explain: store fault\n",
            Ending::WriteFault => b"wap_explain: write fault\n",
            Ending::NoMemory => b"wap_explain: no memory\n",
        }
    }

    /// Writes that line.
    pub fn print<O: Sink>(&self, out: &mut O) -> Result<(), Failed> {
        write_all(out, self.line())
    }
}
