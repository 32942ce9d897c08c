//! Saving a session, and going on with one that was saved, over a store.
ghost use Rattle.wap_keys.specs.words.Ranges.{BrowsesInRange, ResumesInRange};
ghost use Rattle.wap_cli.specs.Headline.{begun_by};
ghost use Rattle.wap_cli.specs.SavedSessions.{ImagesOver, ResumesOver};

use crate::Status;
use crate::browse::Beginning;
use std::alloc::Global;
use wap_base::NoMemory;
use wap_devices::{Sink, Source, Store};
use wap_keys::words::{Browse, Resume};
use wap_pages::Cached;

/// Browses as the words say, over the pages of the store, and saves the context in which that ends;
/// gives the store back.
pub(crate) fn image<S: Store, I: Source, O: Sink>(
    alloc: Global,
    begun: Browse,
    store: S,
    keys: &mut I,
    out: &mut O,
) -> (Status, S)
    requires ranges { BrowsesInRange begun }
    ensures { ImagesOver (begun_by begun) begun.cache
        (record { store = S.seen store; source = I.seen keys.old; sink = O.seen out.old })
        (record { store = S.seen result.1; source = I.seen keys.new; sink = O.seen out.new })
        result.0 }
{
    let mut pages = match Cached::new(alloc, store, begun.cache as usize) {
        Ok(pages) => pages,
        Err((store, NoMemory)) => return (Status::NoMemory, store),
    };
    let begun = Beginning {
        url: begun.url,
        seed: begun.seed,
        budget: begun.budget,
        limits: begun.limits,
    };
    let status = crate::resume::image(alloc, begun, &mut pages, keys, out);
    (status, pages.into_store())
}

/// Goes on with what was saved as the words say, over the pages of the store, and gives the store
/// back.
pub(crate) fn resume<S: Store, I: Source, O: Sink>(
    alloc: Global,
    begun: &Resume,
    store: S,
    keys: &mut I,
    out: &mut O,
) -> (Status, S)
    requires ranges { ResumesInRange begun.now }
    ensures { ResumesOver begun.now.name begun.now.cache
        (record { store = S.seen store; source = I.seen keys.old; sink = O.seen out.old })
        (record { store = S.seen result.1; source = I.seen keys.new; sink = O.seen out.new })
        result.0 }
{
    crate::resume::resume(alloc, &begun.name, begun.cache, store, keys, out)
}
