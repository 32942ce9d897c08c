//! `Url`, a URL in its parts.
ghost use Rattle.std.specs.Prelude.{◌≡◌, IfOk};

use std::alloc::Global;
use wap_base::{NoMemory, Text};

/// A URL in its parts, or a reference that is to be joined to one (RFC 2396, section 4).
///
/// A URL that is read has its scheme and host in lower case; no part is unescaped.
#[derive(Debug, PartialEq, Eq, Drop)]
pub struct Url {
    /// The scheme, without its `:`. A reference may lack it.
    pub scheme: Option<Text>,
    /// The host. A reference may lack it.
    pub host: Option<Text>,
    /// A given port, also where it is 80. A port that is given as empty is none.
    pub port: Option<u16>,
    /// The path with its leading `/`, if it has one.
    pub path: Text,
    /// What follows the `?`.
    pub query: Option<Text>,
    /// What follows the `#`: in a deck, the name of a card.
    pub fragment: Option<Text>,
}

impl Url {
    /// A copy of the URL.
    pub fn copy(&self, alloc: Global) -> Result<Url, NoMemory>
        ensures { IfOk result (λ copy. copy ≡ self.now) }
    {
        Ok(Url {
            scheme: copy_of(alloc, &self.scheme)?,
            host: copy_of(alloc, &self.host)?,
            port: self.port,
            path: self.path.copy(alloc)?,
            query: copy_of(alloc, &self.query)?,
            fragment: copy_of(alloc, &self.fragment)?,
        })
    }
}

/// A copy of a part of a URL.
pub(crate) fn copy_of(alloc: Global, part: &Option<Text>) -> Result<Option<Text>, NoMemory>
    ensures { IfOk result (λ copy. copy ≡ part.now) }
{
    match part {
        Some(text) => Ok(Some(text.copy(alloc)?)),
        None => Ok(None),
    }
}
