//! Abnormal ends.
use wap_base::Text;

/// Why a script ended abnormally (WAP-193, section 12, as far as there is such an end here).
#[derive(Debug, Drop, PartialEq, Eq)]
pub enum Fatal {
    /// No turn was left.
    Budget,
    /// So many functions were at work that no further one may be called.
    Depth,
    /// There is no page with the called unit's URL.
    NoUnit,
    /// The page is none that may be run.
    UnitRefused,
    /// The unit has no external function with this name.
    NoFunction,
    /// The function takes another number of arguments.
    Arguments,
    /// The unit may not be called from here.
    Denied,
    /// The script ended itself, with this message.
    Aborted(Text),
    /// A String would have had more bytes than the limit.
    TooLong,
    /// The user ended the script.
    Stopped,
}
