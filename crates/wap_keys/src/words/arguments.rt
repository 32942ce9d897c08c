//! Reading the words after a command's name: a positional and options, each at most once.
ghost use Rattle.std.specs.Prelude.{◌≡◌, IfOk, map, option_map, encode_utf8_all};
ghost use Rattle.std.specs.List.{before_first};
ghost use Rattle.wap_keys.specs.Forms.{behind_first};
ghost use Rattle.wap_keys.specs.words.Arguments.{is_option, is_equals, is_dashed, after_dashes};
ghost use Rattle.wap_keys.specs.words.Arguments.{with_use, with_option, with_text, with_word};
ghost use Rattle.wap_keys.specs.words.Arguments.{uses_of, text_of};
ghost use Rattle.wap_keys.specs.words.inside.Reading.{form_by, use_by, read_by, Comes};

use std::alloc::Global;
use wap_base::{NoMemory, Text};

/// What words may be given for: the name of the positional, and those of the options.
#[derive(Clone, Copy)]
pub(crate) struct Form {
    pub(crate) positional: &'static str,
    pub(crate) options: &'static [&'static str],
}

/// A name, and the text that was given for it.
#[derive(Clone, Copy)]
pub(crate) struct Use<'a> {
    name: &'a str,
    text: &'a str,
}

/// What was given so far.
#[derive(Drop)]
struct Read<'a> {
    uses: Vec<Use<'a>>,
    /// The option that waits for its text.
    waits: Option<&'a str>,
    /// Whether `--` ended the options.
    ended: bool,
}

#[tactic(auto, using(crate::proofs::WordsLemmas::any_mapped))]
fn is_option(form: Form, name: &str) -> bool
    ensures { result ≡ is_option (form_by form) name.now }
{
    form.options.contains(&name)
}

/// The name of an option, and what stands after its `=`, if it has one.
fn split_option(bytes: &str) -> (&str, Option<&str>)
    ensures name { result.0.now ≡ before_first is_equals bytes.now }
    ensures text { option_map (λ text. text.now) result.1 ≡ behind_first is_equals bytes.now }
{
    match bytes.split_once('=') {
        Some((name, text)) => (name, Some(text)),
        None => (bytes, None),
    }
}

/// Whether a word begins with `-`, and more follows.
fn is_dashed(word: &str) -> bool
    ensures { result ≡ is_dashed word.now }
{
    matches!(word.as_bytes(), [b'-', _, ..])
}

/// What follows `--`.
fn after_dashes(word: &str) -> Option<&str>
    ensures { option_map (λ rest. rest.now) result ≡ after_dashes word.now }
{
    match word.as_bytes() {
        [b'-', b'-', ..] => Some(word.split_at(2).1),
        _ => None,
    }
}

impl<'a> Read<'a> {
    /// Takes a text for a name, unless one was given before.
    fn give(&mut self, name: &'a str, text: &'a str) -> Result<bool, NoMemory>
        ensures { IfOk result (Comes (with_use (read_by self.old) name.now text.now) self.new) }
    {
        if text_of(&self.uses, name).is_some() {
            return Ok(false);
        }
        self.uses.push(Use { name, text })?;
        self.waits = None;
        Ok(true)
    }

    /// Takes `name` or `name=text`, after `--`.
    fn take_option(&mut self, form: Form, bytes: &'a str) -> Result<bool, NoMemory>
        ensures { IfOk result (Comes (with_option (form_by form) (read_by self.old) bytes.now)
            self.new) }
    {
        let (name, text) = split_option(bytes);
        if !is_option(form, name) {
            return Ok(false);
        }
        match text {
            Some(text) => self.give(name, text),
            None => {
                self.waits = Some(name);
                Ok(true)
            }
        }
    }

    /// Takes a text for a name, which may not begin as an option does.
    fn take_text(&mut self, name: &'a str, word: &'a str) -> Result<bool, NoMemory>
        ensures { IfOk result (Comes (with_text (read_by self.old) name.now word.now) self.new) }
    {
        Ok(!is_dashed(word) && self.give(name, word)?)
    }

    /// Takes one word more.
    fn take_word(&mut self, form: Form, word: &'a str) -> Result<bool, NoMemory>
        ensures { IfOk result (Comes (with_word (form_by form) (read_by self.old) word.now)
            self.new) }
    {
        if self.ended {
            return self.give(form.positional, word);
        }
        if let Some(name) = self.waits {
            return self.take_text(name, word);
        }
        match after_dashes(word) {
            Some("") => {
                self.ended = true;
                Ok(true)
            }
            Some(bytes) => self.take_option(form, bytes),
            None => self.take_text(form.positional, word),
        }
    }
}

/// All that words give, in their order; or none, where they aren't of the form.
pub(crate) fn uses_of<'a>(
    alloc: Global,
    form: Form,
    words: &'a [Text],
) -> Result<Option<Vec<Use<'a>>>, NoMemory>
    ensures { IfOk result (λ uses. option_map (λ uses. map use_by uses.items) uses
        ≡ uses_of (form_by form) (map encode_utf8_all words.entry.now)) }
{
    let mut read = Read {
        uses: Vec::new(alloc),
        waits: None,
        ended: false,
    };
    for word in words {
        if !read.take_word(form, word.as_str())? {
            return Ok(None);
        }
    }
    match read.waits {
        Some(_) => Ok(None),
        None => Ok(Some(read.uses)),
    }
}

/// The text that was given for a name.
pub(crate) fn text_of<'a>(uses: &[Use<'a>], name: &str) -> Option<&'a str>
    ensures { option_map (λ text. text.now) result ≡ text_of name.now (map use_by uses.now) }
{
    for one in uses {
        if one.name == name {
            return Some(one.text);
        }
    }
    None
}
