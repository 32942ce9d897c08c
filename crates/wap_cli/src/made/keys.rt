//! The keys of a session over a made folder.
ghost use Rattle.std.specs.Prelude.{◌≡◌, ◌∷◌, IfOk, replicate};
ghost use Rattle.wap_base.specs.declared.key.Key.TheVariants.{Open};
ghost use Rattle.wap_cli.specs.made.Making.{first_url, onward};

use std::alloc::Global;
use wap_base::{Key, NoMemory, Text};

/// The key that opens the first deck, and so often the one that goes on to the next.
#[tactic(auto, using(crate::proofs::MadeLemmas::KeyTexts::words))]
pub(crate) fn keys_of(alloc: Global, count: usize) -> Result<Vec<Key>, NoMemory>
    ensures { IfOk result (λ keys. keys.items ≡ Open first_url ∷ replicate count onward) }
{
    let mut keys = Vec::new(alloc);
    keys.push(Key::Open(Text::of(alloc, "http://g/d0.wmlc")?))?;
    for _ in 0..count {
        keys.push(Key::Do(Text::of(alloc, "ok")?))?;
    }
    Ok(keys)
}
