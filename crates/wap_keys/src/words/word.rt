//! The words that commands begin with.
ghost use Rattle.std.specs.Prelude.{◌≡◌};
ghost use Rattle.std.specs.Map.{lookup};
ghost use Rattle.std.specs.Str.{bytes_eq};
ghost use Rattle.wap_keys.specs.words.Commands.{word_named, form_of};
ghost use Rattle.wap_keys.specs.words.inside.Reading.{form_by, by_name};

use crate::words::PageCommand;
use crate::words::arguments::Form;

/// What a command's word says.
#[derive(Clone, Copy)]
pub(crate) enum Word {
    Browse,
    Image,
    Resume,
    /// One page is looked at.
    Page(PageCommand),
    Prepare,
    Make,
    Replay,
}

/// The word of each command.
pub(crate) static WORDS: [(&str, Word); 11] = [
    ("browse", Word::Browse),
    ("image", Word::Image),
    ("resume", Word::Resume),
    ("verify", Word::Page(PageCommand::Verify)),
    ("list", Word::Page(PageCommand::List)),
    ("check", Word::Page(PageCommand::Check)),
    ("canon", Word::Page(PageCommand::Canon)),
    ("prepare", Word::Prepare),
    ("make", Word::Make),
    ("compile", Word::Page(PageCommand::Compile)),
    ("replay", Word::Replay),
];

/// The word beside a name.
fn word_beside(rows: &[(&str, Word)], name: &str) -> Option<Word>
    ensures { result ≡ lookup (bytes_eq name.now) (by_name rows.now) }
{
    for row in rows {
        if name == row.0 {
            return Some(row.1);
        }
    }
    None
}

/// The word of a name.
pub(crate) fn word_named(name: &str) -> Option<Word>
    ensures { result ≡ word_named name.now }
{
    word_beside(&WORDS, name)
}

/// What may follow the word of a command.
pub(crate) fn form_of(word: Word) -> Form
    ensures { form_by result ≡ form_of word }
{
    match word {
        Word::Browse | Word::Image => Form {
            positional: "url",
            options: &["seed", "budget", "cache", "string", "history", "depth"],
        },
        Word::Resume => Form {
            positional: "name",
            options: &["cache"],
        },
        Word::Page(_) | Word::Make => Form {
            positional: "name",
            options: &[],
        },
        Word::Prepare => Form {
            positional: "surplus",
            options: &["workers"],
        },
        Word::Replay => Form {
            positional: "url",
            options: &["seed", "budget", "workers", "string", "history", "depth"],
        },
    }
}
