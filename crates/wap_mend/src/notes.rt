//! Where a walk is in the deck that was given, and what was changed so far.
ghost use Rattle.std.specs.Prelude.{◌≡◌, ◌≢◌, [], OnOk};
ghost use Rattle.wap_mend.specs.inside.Frames.{load_lost, own_load, IsNoted, IsStill, IsTurned};

use crate::change::{Attribute, Change, Lost, What};
use std::alloc::Global;
use wap_base::{NoMemory, Rows};
use wap_tokens::markup::Node;

/// What is kept on a walk over the deck that was given.
#[derive(Drop)]
pub(crate) struct Notes {
    pub(crate) path: Rows<usize>,
    pub(crate) changes: Rows<Change>,
}

impl Notes {
    /// Nothing yet.
    pub(crate) fn new(alloc: Global) -> Notes
        ensures { result.changes ≡ [] }
    {
        Notes {
            path: Rows::new(alloc),
            changes: Rows::new(alloc),
        }
    }

    /// Notes what is changed where the walk is, what goes with it, and the attributes that come.
    #[tactic(auto, using(crate::proofs::Loads::turned_one))]
    pub(crate) fn note_turned(
        &mut self,
        alloc: Global,
        what: What,
        lost: Lost,
        came: Rows<Attribute>,
    ) -> Result<(), NoMemory>
        ensures turned { OnOk result
            (IsTurned self.old.changes self.new.changes (load_lost lost) came) }
        ensures noted { OnOk result (self.new.changes ≢ []) }
        ensures path { self.new.path ≡ self.old.path }
    {
        let path = Rows::of(alloc, self.path.as_slice())?;
        self.changes.add(Change {
            path,
            what,
            lost,
            came,
        })
    }

    /// Notes what is changed where the walk is, and what goes with it.
    #[tactic(auto, using(crate::proofs::Loads::noted_turned))]
    pub(crate) fn note_lost(
        &mut self,
        alloc: Global,
        what: What,
        lost: Lost,
    ) -> Result<(), NoMemory>
        ensures lost { OnOk result
            (IsNoted self.old.changes self.new.changes (load_lost lost)) }
        ensures noted { OnOk result (self.new.changes ≢ []) }
        ensures path { self.new.path ≡ self.old.path }
    {
        self.note_turned(alloc, what, lost, Rows::new(alloc))
    }

    /// Notes an element that is opened where the walk is: it goes, with its attributes.
    #[tactic(auto, using(crate::proofs::Loads::noted_same))]
    pub(crate) fn note_opened(
        &mut self,
        alloc: Global,
        what: What,
        node: &Node,
    ) -> Result<(), NoMemory>
        ensures lost { OnOk result
            (IsNoted self.old.changes self.new.changes (own_load node.now)) }
        ensures noted { OnOk result (self.new.changes ≢ []) }
        ensures path { self.new.path ≡ self.old.path }
    {
        self.note_lost(alloc, what, Lost::of_node(alloc, 0, node)?)
    }

    /// Notes what is changed where the walk is, where nothing goes.
    #[tactic(auto, using(crate::proofs::Loads::still_turned))]
    pub(crate) fn note(&mut self, alloc: Global, what: What) -> Result<(), NoMemory>
        ensures still { OnOk result (IsStill self.old.changes self.new.changes) }
        ensures noted { OnOk result (self.new.changes ≢ []) }
        ensures path { self.new.path ≡ self.old.path }
    {
        self.note_turned(alloc, what, Lost::new(alloc), Rows::new(alloc))
    }
}
