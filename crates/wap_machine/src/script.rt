//! Units at work.
ghost use Rattle.std.specs.Prelude.{◌≡◌};
ghost use Rattle.wap_execution.specs.Frames.{code_of};
ghost use Rattle.wap_machine.specs.Seen.{function_of};

use wap_base::Shared;
use wap_url::Url;
use wap_verify::Verified;

/// A unit with its URL and that of the unit that called it, if one did.
#[derive(Drop)]
pub struct Script {
    /// What runs; functions that are at work share it.
    pub unit: Shared<Verified>,
    /// The unit's URL, to which its references are joined.
    pub base: Url,
    /// The URL of the unit that called it, if one did.
    pub referer: Option<Url>,
}

impl Script {
    /// The instructions of the function with this index.
    pub(crate) fn code(&self, index: u8) -> &[u8]
        ensures { result.now ≡ code_of (function_of self.now index) }
    {
        match self.unit.unit().functions.get(index as usize) {
            Some(function) => function.code.as_slice(),
            None => &[],
        }
    }
}
