//! What holds of calls in fragments, and of browsing over devices in memory. The functions here do
//! nothing, and carry the laws alone.
ghost use Rattle.std.specs.Prelude.{◌≡◌, ℕ, List, Option};
ghost use Rattle.wap_base.specs.Contents.{Contents};
ghost use Rattle.wap_world.specs.Sessions.{Begun};
ghost use Rattle.wap_world.specs.Sites.{Call};
ghost use Rattle.wap_context.specs.Sites.{fragment_call};
ghost use Rattle.wap_cli.specs.declared.status.Status.{Status};
ghost use Rattle.wap_cli.specs.Browsing.{BrowsesOver};
ghost use Rattle.wap_cli.specs.Calls.{ReadsCalls};
ghost use Rattle.wap_cli.specs.Devices.{Devices};
ghost use Rattle.wap_cli.specs.InMemory.{HoldAll, AreBrowsed};

/// Laws of what reads calls, over which keys are said to be played: there is one, the calculation
/// by which a browser reads them, and no two are different.
pub fn calls_are_read_one_way()
    ensures some { ReadsCalls fragment_call }
    ensures one { (call other : List ℕ → Option Call) → ReadsCalls call → ReadsCalls other
        → call ≡ other }
{}

/// What is said of browsing over all that a store and a source may hold is said, where they hold
/// their contents and bytes in memory, of exactly these, which they keep.
pub fn held_devices_are_browsed_exactly()
    ensures { (begun : Begun) (capacity : ℕ) (contents : Contents) (bytes : List ℕ)
        (old new : Devices) (status : Status) → HoldAll contents bytes old
        → BrowsesOver begun capacity old new status → AreBrowsed contents bytes old new }
{}
