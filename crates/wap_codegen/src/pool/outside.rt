//! What the names of a program mean outside of its functions.
ghost use Rattle.std.specs.Prelude.{◌≡◌, ◌∷◌, IfOk, OnOk, [], map};
ghost use Rattle.wap_meaning.specs.Names.{url_in};
ghost use Rattle.wap_codegen.specs.pool.Names.{with_names};
ghost use Rattle.wap_codegen.specs.pool.inside.Declaring.{with_urls};

use crate::pool::named::Named;
use indexmap::IndexMap;
use std::alloc::Global;
use wap_base::{NoMemory, Text};
use wap_grammar::program::{Function, Use};

/// The names of functions.
pub(crate) fn functions_of(alloc: Global, functions: &[Function]) -> Result<Named, NoMemory>
    ensures { IfOk result (λ names.
        names ≡ with_names [] (map (λ f. f.name.name) functions.now)) }
{
    let mut names = Named::new(alloc);
    for function in functions {
        names.add(alloc, &function.name.name)?;
    }
    Ok(names)
}

/// Adds the name of a unit with its URL, if the pragma makes one known.
fn add_url(alloc: Global, urls: &mut IndexMap<Text, Text>, pragma: &Use) -> Result<(), NoMemory>
    ensures { OnOk result (urls.new.entries
        ≡ with_urls urls.old.entries (url_in pragma.now ∷ [])) }
{
    match pragma {
        Use::Url(unit, url) => {
            urls.insert(unit.name.copy(alloc)?, url.copy(alloc)?)?;
            Ok(())
        }
        Use::Access(..) | Use::Agent(..) | Use::Note => Ok(()),
    }
}

/// The names of units, each with the URL that it stands for.
pub(crate) fn urls_of(alloc: Global, uses: &[Use]) -> Result<IndexMap<Text, Text>, NoMemory>
    ensures { IfOk result (λ urls. urls.entries ≡ with_urls [] (map url_in uses.now)) }
{
    let mut urls = IndexMap::new(alloc);
    for pragma in uses {
        add_url(alloc, &mut urls, pragma)?;
    }
    Ok(urls)
}
