//! `Draft`, a String that is being made under a limit.
ghost use Rattle.std.specs.Prelude.{◌≡◌, ◌+◌, [], OnOk};
ghost use Rattle.std.specs.Str.{chars};
ghost use Rattle.wap_base.specs.Utf8.{utf8_len};
ghost use Rattle.wap_libs.specs.Outcome.{counted};

use crate::LibFault;
use std::alloc::Global;
use wap_base::{NoMemory, Text};
use wap_value::Value;

/// A String that is being made: how many bytes it has, and its text as long as that keeps within
/// the limit. So it never takes more room than the limit.
#[derive(Drop)]
pub struct Draft {
    text: Option<Text>,
    bytes: usize,
    limit: u32,
}

/// A number of bytes and those of a text, as far as they are counted.
fn bytes_with(bytes: usize, more: &str) -> usize
    ensures { result ≡ counted (bytes + utf8_len (chars more.now)) }
{
    let added = more.len();
    bytes.saturating_add(added)
}

impl Draft {
    ghost use Rattle.std.specs.Prelude.{◌≡◌, [], OnOk, ℕ, List};
    ghost use Rattle.wap_libs.specs.Outcome.{kept_within};
    ghost use Rattle.wap_libs.specs.texts.Draft.{draft_of, grown};

    /// The empty String.
    pub fn new(alloc: Global, limit: u32) -> Draft
        ensures { result ≡ draft_of limit [] }
    {
        Draft {
            text: Some(Text::new(alloc)),
            bytes: 0,
            limit,
        }
    }

    /// Adds a text at the end.
    pub fn add(&mut self, more: &str) -> Result<(), NoMemory>
        ensures { OnOk result (self.new ≡ grown self.old (chars more.now)) }
    {
        self.bytes = bytes_with(self.bytes, more);
        if self.bytes > self.limit as usize {
            self.text = None;
        } else if let Some(text) = &mut self.text {
            text.add(more)?;
        }
        Ok(())
    }

    /// The String, unless it is past the limit.
    pub fn finish(self) -> Result<Value, LibFault>
        ensures { (limit : ℕ) (text : List ℕ) → self ≡ draft_of limit text
            → result ≡ kept_within limit (Value.Str text) }
    {
        match self.text {
            Some(text) => Ok(Value::Str(text)),
            None => Err(LibFault::TooLong { bytes: self.bytes }),
        }
    }
}
