//! Masks of input fields.
ghost use Rattle.std.specs.Prelude.{◌≡◌, length, IfOk};
ghost use Rattle.std.specs.Str.{chars};
ghost use Rattle.wap_mask.specs.Calculation.{symbols_of, is_taken};

use crate::scan::is_at_end;
use crate::{Class, Symbol};
use std::alloc::Global;
use std::marker::Model;
use wap_base::{NoMemory, Rows, Text};

/// What an input field takes. A contract sees the mask as the list of its symbols.
#[derive(Drop)]
pub struct Mask {
    symbols: Rows<Symbol>,
}

impl Model for Mask {
    ghost use Rattle.std.specs.Prelude.{List};
    ghost use Rattle.wap_mask.specs.declared.symbol.Symbol.{Symbol};
    ghost use Rattle.wap_mask.specs.Grammar.{RepeatsLast};

    ghost Value = { List Symbol };

    ghost view = { λ mask. mask.symbols };

    ghost invariant = { λ mask. RepeatsLast mask.symbols };
}

impl Mask {
    ghost use Rattle.std.specs.Prelude.{◌≡◌, ◌↔◌, List, IfOk, IsTrue};
    ghost use Rattle.wap_mask.specs.declared.symbol.Symbol.{Symbol};
    ghost use Rattle.wap_mask.specs.Texts.{IsTaken};
    ghost use Rattle.wap_mask.specs.Grammar.{IsMask, any_text};
    ghost use Rattle.wap_mask.specs.Calculation.{mask_of, is_taken};

    /// The mask that a text says. A text that is ill-formed says nothing, and any text is taken.
    pub fn read(alloc: Global, text: &Text) -> Result<Mask, NoMemory>
        ensures well_formed { (symbols : List Symbol) → IsMask text.now symbols
            → IfOk result (λ mask. mask ≡ symbols) }
        ensures ill_formed { ((symbols : List Symbol) → ¬ IsMask text.now symbols)
            → IfOk result (λ mask. mask ≡ any_text) }
        ensures exact { IfOk result (λ mask. mask ≡ mask_of text.now) }
    {
        match symbols_of(alloc, text.as_str())? {
            Some(symbols) => Ok(Mask { symbols }),
            None => {
                let mut symbols = Rows::new(alloc);
                symbols.add(Symbol::AnyNumber(Class::Any))?;
                Ok(Mask { symbols })
            }
        }
    }

    /// Whether the text is in the mask's set.
    #[tactic(auto, using(crate::proofs::Taking::IsTaken_iff_test))]
    pub fn takes(&self, text: &Text) -> bool
        ensures member { IsTrue result ↔ IsTaken self.now text.now }
        ensures exact { result ≡ is_taken self.now text.now }
    {
        are_taken(self.symbols.as_slice(), text.as_str())
    }
}

/// Whether symbols take the text, each the most that it can of what those before it left.
fn are_taken(symbols: &[Symbol], text: &str) -> bool
    ensures { result ≡ is_taken symbols.now (chars text.now) }
{
    let mut rest = text;
    for symbol in symbols {
        match symbol.after(rest) {
            Some(behind) => rest = behind,
            None => return false,
        }
    }
    is_at_end(rest)
}

/// The symbols of a mask's text, where it is well formed.
fn symbols_of(alloc: Global, text: &str) -> Result<Option<Rows<Symbol>>, NoMemory>
    ensures { IfOk result (λ symbols. symbols ≡ symbols_of (chars text.now)) }
{
    let mut symbols = Rows::new(alloc);
    let mut rest = text;
    while let Some((symbol, behind)) = Symbol::of(rest) {
        if symbol.is_misplaced(behind) {
            return Ok(None);
        }
        symbols.add(symbol)?;
        rest = behind;
    }
    Ok(is_at_end(rest).then_some(symbols))
}
