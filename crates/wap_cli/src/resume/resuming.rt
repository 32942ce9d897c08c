//! The command `resume`.
ghost use Rattle.std.specs.Prelude.{◌≤◌, ◌<◌, []};
ghost use Rattle.wap_image.specs.Rules.{MayBeSaved};
ghost use Rattle.wap_pages.specs.Caches.{seen_over};
ghost use Rattle.wap_pages.specs.declared.cached.TheConstants.{LEAST_CAPACITY, MOST_CAPACITY};
ghost use Rattle.wap_cli.specs.resume.Resuming.{ResumesSeen};
ghost use Rattle.wap_cli.specs.resume.inside.Loading.{Continues};

use crate::Status;
use crate::browse::play_keys;
use crate::resume::decks::{deck_name, refuse_deck};
use crate::resume::loading::fetch_saved;
use std::alloc::Global;
use wap_base::{NoMemory, RunErr, Text};
use wap_context::{Context, ContextParts, Revived};
use wap_devices::{Sink, Source, Store};
use wap_pages::{Cached, PageFault};
use wap_session::Session;

/// Goes on with what was saved, over the pages of a store, and gives the store back.
fn go_on<S: Store, I: Source, O: Sink>(
    alloc: Global,
    saved: (ContextParts, u32),
    cache: u32,
    store: S,
    keys: &mut I,
    out: &mut O,
) -> (Status, S)
    requires saved { MayBeSaved saved.0 saved.1 }
    requires some { LEAST_CAPACITY ≤ cache }
    requires few { cache ≤ MOST_CAPACITY }
    ensures { Continues saved
        (record {
          pages = seen_over (S.seen store) (record { names = []; capacity = cache });
          source = I.seen keys.old;
          sink = O.seen out.old;
        })
        (record {
          pages = seen_over (S.seen result.1) (record { names = []; capacity = cache });
          source = I.seen keys.new;
          sink = O.seen out.new;
        })
        result.0 }
{
    let (parts, turns) = saved;
    let name = match deck_name(alloc, &parts) {
        Ok(name) => name,
        Err(NoMemory) => return (Status::NoMemory, store),
    };
    let mut pages = match Cached::new(alloc, store, cache as usize) {
        Ok(pages) => pages,
        Err((store, NoMemory)) => return (Status::NoMemory, store),
    };
    match Context::revive(alloc, parts, &mut pages) {
        Ok(Revived::Context(context)) => {
            let mut session = Session::of(alloc, context, turns);
            let status = play_keys(alloc, &mut session, &mut pages, keys, out);
            (status, pages.into_store())
        }
        Ok(Revived::Missing) => (Status::Refused(PageFault::Missing), pages.into_store()),
        Ok(Revived::Refused) => {
            let Some(name) = name else {
                unreachable!();
            };
            let mut store = pages.into_store();
            let status = refuse_deck(alloc, &name, &mut store);
            (status, store)
        }
        Err(RunErr::Store) => (Status::StoreFault, pages.into_store()),
        Err(RunErr::NoMemory) => (Status::NoMemory, pages.into_store()),
    }
}

/// Goes on with the context whose image the store has under a name: its keys are read and played
/// as in browsing, and it ends as that does. Gives the store back.
///
/// Where nothing is begun no key is read, and nothing written: it is `Refused` where the image is
/// missing or refused, or the page of the current card is missing, refused or no deck; `StoreFault`
/// where one of the two couldn't be fetched; or `NoMemory`.
pub fn resume<S: Store, I: Source, O: Sink>(
    alloc: Global,
    name: &Text,
    cache: u32,
    store: S,
    keys: &mut I,
    out: &mut O,
) -> (Status, S)
    requires some { LEAST_CAPACITY ≤ cache }
    requires few { cache ≤ MOST_CAPACITY }
    ensures { ResumesSeen name.now
        (record {
          pages = seen_over (S.seen store) (record { names = []; capacity = cache });
          source = I.seen keys.old;
          sink = O.seen out.old;
        })
        (record {
          pages = seen_over (S.seen result.1) (record { names = []; capacity = cache });
          source = I.seen keys.new;
          sink = O.seen out.new;
        })
        result.0 }
{
    let mut store = store;
    match fetch_saved(alloc, name, &mut store) {
        Ok(saved) => go_on(alloc, saved, cache, store, keys, out),
        Err(status) => (status, store),
    }
}
