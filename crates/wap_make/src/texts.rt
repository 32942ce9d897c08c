//! The numbers, names and texts of a made folder.
ghost use Rattle.std.specs.Prelude.{◌≡◌, ◌++◌, ◌<◌, IfOk, OnOk};
ghost use Rattle.wap_make.specs.Folders.{deck_count, number_at, next_deck};
ghost use Rattle.wap_make.specs.Folders.{deck_file, deck_name, script_name, script};
ghost use Rattle.wap_make.specs.Folders.{next_file, call_of, title_of, shown_of};

use std::alloc::Global;
use wap_base::{Bytes, NoMemory, Text};

/// How many decks there are.
pub(crate) fn deck_count(n: u32) -> u32
    ensures { result ≡ deck_count n }
{
    n % 1000 + 1
}

/// The number that a deck shows.
fn number_at(n: u32, k: u32) -> u64
    ensures { result ≡ number_at n k }
{
    (u64::from(n) + 7 * u64::from(k)) % 1000
}

/// The deck that a deck leads to.
fn next_deck(n: u32, k: u32) -> u32
    requires { k < 1000 }
    ensures { result ≡ next_deck n k }
{
    (k + 1) % deck_count(n)
}

/// Appends the name of a deck's file.
#[tactic(auto, using(wap_base::proofs::Plain::words))]
fn add_file(text: &mut Text, k: u32) -> Result<(), NoMemory>
    ensures { OnOk result (text.new ≡ text.old ++ deck_file k) }
{
    text.add("d")?;
    text.add_number(u64::from(k))?;
    text.add(".wmlc")
}

/// The name of a deck's page.
#[tactic(auto, using(wap_base::proofs::Plain::words))]
pub(crate) fn deck_name(alloc: Global, k: u32) -> Result<Text, NoMemory>
    ensures { IfOk result (λ name. name ≡ deck_name k) }
{
    let mut name = Text::of(alloc, "g/")?;
    add_file(&mut name, k)?;
    Ok(name)
}

/// Appends the second argument of the call, and its end.
#[tactic(auto, using(wap_base::proofs::Plain::words))]
fn add_next(text: &mut Text, k: u32) -> Result<(), NoMemory>
    ensures { OnOk result (text.new ≡ text.old ++ next_file k) }
{
    text.add(",'")?;
    add_file(text, k)?;
    text.add("')")
}

/// The URL that calls the script with a deck's number and the deck that follows.
#[tactic(auto, using(wap_base::proofs::Plain::words))]
pub(crate) fn call_of(alloc: Global, n: u32, k: u32) -> Result<Text, NoMemory>
    requires { k < 1000 }
    ensures { IfOk result (λ call. call ≡ call_of n k) }
{
    let mut call = Text::of(alloc, "s.wmls#f(")?;
    call.add_number(number_at(n, k))?;
    add_next(&mut call, next_deck(n, k))?;
    Ok(call)
}

/// The title of a deck's card.
#[tactic(auto, using(wap_base::proofs::Plain::words))]
pub(crate) fn title_of(alloc: Global, k: u32) -> Result<Text, NoMemory>
    ensures { IfOk result (λ title. title ≡ title_of k) }
{
    let mut title = Text::of(alloc, "D")?;
    title.add_number(u64::from(k))?;
    Ok(title)
}

/// What a deck's card shows.
#[tactic(auto, using(wap_base::proofs::Plain::words))]
pub(crate) fn shown_of(alloc: Global, n: u32, k: u32) -> Result<Text, NoMemory>
    ensures { IfOk result (λ shown. shown ≡ shown_of n k) }
{
    let mut shown = Text::of(alloc, "number ")?;
    shown.add_number(number_at(n, k))?;
    Ok(shown)
}

/// The name of the script's page.
#[tactic(auto, using(wap_base::proofs::Plain::words))]
pub(crate) fn script_name(alloc: Global) -> Result<Text, NoMemory>
    ensures { IfOk result (λ name. name ≡ script_name) }
{
    Text::of(alloc, "g/s.wmls")
}

/// The script.
pub(crate) fn script(alloc: Global) -> Result<Bytes, NoMemory>
    ensures { IfOk result (λ bytes. bytes ≡ script) }
{
    Bytes::of(
        alloc,
        b"extern function f(a,u){var s=0;for(var i=1;i<=a;i++){s+=i;}\
          WMLBrowser.setVar(\"t\",s);WMLBrowser.go(u);}",
    )
}
