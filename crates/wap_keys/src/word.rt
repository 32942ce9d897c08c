//! The words that key lines begin with.
ghost use Rattle.std.specs.Prelude.{◌≡◌};
ghost use Rattle.wap_base.specs.Texts.{is_same_text};
ghost use Rattle.wap_keys.specs.Forms.{words_with_arguments, words_alone, word_among, word_named};

/// The word of a form.
#[derive(Clone, Copy)]
pub(crate) enum Word {
    Open,
    Do,
    Pick,
    Type,
    Choose,
    Back,
    Tick,
    Ok,
    Cancel,
    Answer,
    Stop,
    Vars,
    Push,
    Inbox,
    Follow,
}

/// Whether a name is that of a word.
fn is_word(name: &[u8], word: &str) -> bool
    ensures { result ≡ is_same_text name.now word.now }
{
    // (most words have another length)
    name.len() == word.len() && name == word.as_bytes()
}

impl Word {
    /// The word of a name.
    pub(crate) fn of(name: &[u8]) -> Option<Word>
        ensures { result ≡ word_named name.now }
    {
        match Word::with_arguments(name) {
            Some(word) => Some(word),
            None => Word::alone(name),
        }
    }

    /// The word of a name, if arguments follow it.
    fn with_arguments(name: &[u8]) -> Option<Word>
        ensures { result ≡ word_among words_with_arguments name.now }
    {
        if is_word(name, "open") {
            return Some(Word::Open);
        }
        if is_word(name, "do") {
            return Some(Word::Do);
        }
        if is_word(name, "pick") {
            return Some(Word::Pick);
        }
        if is_word(name, "type") {
            return Some(Word::Type);
        }
        if is_word(name, "choose") {
            return Some(Word::Choose);
        }
        if is_word(name, "tick") {
            return Some(Word::Tick);
        }
        if is_word(name, "answer") {
            return Some(Word::Answer);
        }
        if is_word(name, "push") {
            return Some(Word::Push);
        }
        if is_word(name, "follow") {
            return Some(Word::Follow);
        }
        None
    }

    /// The word of a name, if it stands alone.
    fn alone(name: &[u8]) -> Option<Word>
        ensures { result ≡ word_among words_alone name.now }
    {
        if is_word(name, "back") {
            return Some(Word::Back);
        }
        if is_word(name, "ok") {
            return Some(Word::Ok);
        }
        if is_word(name, "cancel") {
            return Some(Word::Cancel);
        }
        if is_word(name, "stop") {
            return Some(Word::Stop);
        }
        if is_word(name, "vars") {
            return Some(Word::Vars);
        }
        if is_word(name, "inbox") {
            return Some(Word::Inbox);
        }
        None
    }
}
