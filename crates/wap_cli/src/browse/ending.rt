//! How a session ends whose keys came to their end.
ghost use Rattle.std.specs.Prelude.{◌≡◌};
ghost use Rattle.wap_cli.specs.browse.Endings.{at_end, ended};

use crate::Status;
use wap_keys::Ending;

/// How a session ends at the end of its keys, by whether a dialog is open then.
pub fn at_end(is_open: bool) -> Status
    ensures { result ≡ at_end is_open }
{
    if is_open {
        return Status::OpenDialog;
    }
    Status::Done
}

/// How a session ends whose keys came to this end, by whether a dialog is open then.
pub(crate) fn status_of(is_open: bool, ending: Ending) -> Status
    ensures { result ≡ ended is_open ending }
{
    match ending {
        Ending::End => at_end(is_open),
        Ending::BadKey { line, fault } => Status::BadKey { line, fault },
        Ending::TooManyKeys => Status::TooManyKeys,
        Ending::ReadFault => Status::KeyReadFault,
    }
}
