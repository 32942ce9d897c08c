//! Why a text is no URL.
ghost use Rattle.std.specs.Prelude.{◌≡◌};

use thiserror::Error;
use wap_base::NoMemory;

/// Why a text is not read as a URL. Where several faults apply, the one that is listed first is
/// reported.
#[derive(Clone, Copy, Debug, PartialEq, Eq, Error)]
pub enum UrlFault {
    /// The character at byte `at` may not stand before the fragment.
    #[error("a character at byte {at} may not stand in a URL")]
    BadChar { at: usize },
    /// A `:` stands before any `/`, `?` and `#`, and what precedes it is no scheme.
    #[error("the scheme is not a letter and then letters, digits, `+`, `-` and `.`")]
    BadScheme,
    /// The host is empty or has a character that is no letter, digit, `-` or `.`.
    #[error("the host is not letters, digits, `-` and `.`")]
    BadHost,
    /// The port is neither empty nor one to five digits up to 65535.
    #[error("the port is not one to five digits up to 65535")]
    BadPort,
    #[error("out of memory")]
    NoMemory,
}

impl From<NoMemory> for UrlFault {
    ghost use Rattle.wap_url.specs.declared.fault.UrlFault.TheVariants as fault_variants;

    ghost from_gives = { λ _ fault. fault ≡ fault_variants.NoMemory };

    fn from(_error: NoMemory) -> UrlFault {
        UrlFault::NoMemory
    }
}
