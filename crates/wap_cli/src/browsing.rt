//! Browsing over a store.
ghost use Rattle.std.specs.Prelude.{◌≤◌};
ghost use Rattle.wap_base.specs.Limits.{AreInRange};
ghost use Rattle.wap_pages.specs.declared.cached.TheConstants.{LEAST_CAPACITY, MOST_CAPACITY};
ghost use Rattle.wap_cli.specs.Browsing.{BrowsesOver};
ghost use Rattle.wap_cli.specs.Headline.{begun_by};

use crate::Status;
use crate::browse::Beginning;
use std::alloc::Global;
use wap_base::NoMemory;
use wap_devices::{Sink, Source, Store};
use wap_keys::words::Browse;
use wap_pages::Cached;

/// Browses as the words say, over the pages of the store, and gives the store back.
pub(crate) fn browse<S: Store, I: Source, O: Sink>(
    alloc: Global,
    begun: Browse,
    store: S,
    keys: &mut I,
    out: &mut O,
) -> (Status, S)
    requires some { LEAST_CAPACITY ≤ begun.cache }
    requires few { begun.cache ≤ MOST_CAPACITY }
    requires limits { AreInRange begun.limits }
    ensures { BrowsesOver (begun_by begun) begun.cache
        (record { store = S.seen store; source = I.seen keys.old; sink = O.seen out.old })
        (record { store = S.seen result.1; source = I.seen keys.new; sink = O.seen out.new })
        result.0 }
{
    let mut pages = match Cached::new(alloc, store, begun.cache as usize) {
        Ok(pages) => pages,
        Err((store, NoMemory)) => return (Status::NoMemory, store),
    };
    let begun = Beginning {
        url: begun.url,
        seed: begun.seed,
        budget: begun.budget,
        limits: begun.limits,
    };
    let status = crate::browse::browse(alloc, begun, &mut pages, keys, out);
    (status, pages.into_store())
}
