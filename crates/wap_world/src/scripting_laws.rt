//! What follows from the definitions of scripts in a browser's world. These functions do nothing
//! when they are called.
ghost use Rattle.std.specs.Prelude.{◌≡◌, ◌++◌, ◌∷◌, [], ℕ, false, List, Option, Some, Result, Ok};
ghost use Rattle.wap_base.specs.declared.limits.Limits.{Limits as TheLimits};
ghost use Rattle.wap_url.specs.declared.url.Url.{Url};
ghost use Rattle.wap_url.specs.Printing.{name_for};
ghost use Rattle.wap_value.specs.declared.value.Value.{Value as TheValue};
ghost use Rattle.wap_base.specs.declared.key.Key.{Key};
ghost use Rattle.wap_push.specs.declared.indication.Indication.{Indication};
ghost use Rattle.wap_push.specs.declared.fault.PushFault.{PushFault};
ghost use Rattle.wap_execution.specs.declared.fatal.Fatal.TheVariants.{Denied, Stopped};
ghost use Rattle.wap_execution.specs.declared.found.Found.TheVariants.{Not};
ghost use Rattle.wap_execution.specs.Running.{resumed};
ghost use Rattle.wap_execution.specs.laws.Settings.{uncounted};
ghost use Rattle.wap_world.specs.Shelves.{Shelf, Entrance, script_page};
ghost use Rattle.wap_world.specs.Sites.{Call, failed};
ghost use Rattle.wap_world.specs.Steps.{Step, still, quiet};
ghost use Rattle.wap_world.specs.Access.{may_enter};
ghost use Rattle.wap_world.specs.Urls.{target_of};
ghost use Rattle.wap_world.specs.Requests.{plain_get, request_line};
ghost use Rattle.wap_world.specs.Starting.{ended_script};
ghost use Rattle.wap_world.specs.Tasks.{onward, act};
ghost use Rattle.wap_world.specs.World.{World, place_now};
ghost use Rattle.wap_world.specs.History.{KeepsToLimit};
ghost use Rattle.wap_world.specs.session_laws.Scripts.{GivesNoTurns, MakesNoKeys, ScriptsKeep};
ghost use Rattle.wap_world.specs.session_laws.Standing.{StandsOnCard};
ghost use Rattle.wap_world.specs.scripting.Dialogs.{answers, ends_it, passes, reply_to, meanwhile};
ghost use Rattle.wap_world.specs.scripting.UnitSites.{Pages, shelf_of, host_of, keyed_host};
ghost use Rattle.wap_world.specs.scripting.UnitSites.{units_site};
ghost use Rattle.wap_world.specs.Sessions.{before_all};
ghost use Rattle.wap_world.specs.scripting.Waiting.{Waits, State, inside, resumed_step};
ghost use Rattle.wap_world.specs.scripting.Waiting.{played_from};
ghost use Rattle.wap_world.specs.scripting.Halves.{half_of, once_of, GoesOnWithKeys};
ghost use Rattle.wap_world.specs.scripting.Feeding.{Means, Taken, Turns, Feeds, AreFed};
ghost use Rattle.wap_world.specs.scripting.Feeding.{last_fed, all_fed};
ghost use Rattle.wap_world.specs.scripting.Views.{ViewsRunAlike};

/// Where a key did so much without further keys and left the rest to these, the lines of the key,
/// and then what any further keys show from the state that it leaves, are what the key and these
/// show from the state before; and so are the pushes that are taken.
pub fn keys_are_fed_one_by_one()
    ensures { (read : List ℕ → Result Indication PushFault) (call : List ℕ → Option Call)
        (pages : Pages) (state : State) (one : Key) (taken : Taken)
        → Turns read call pages state one taken → Feeds read call pages state one taken }
{}

/// So keys in two parts show what they show together: the first are fed one by one, and the others
/// go on from the state after these.
pub fn keys_play_in_parts()
    ensures { (read : List ℕ → Result Indication PushFault) (call : List ℕ → Option Call)
        (pages : Pages) (state : State) (keys : List Key) (feds : List Taken)
        → AreFed read call pages state keys feds → (others : List Key)
        → played_from read call pages state (keys ++ others) ≡ before_all (all_fed state feds)
        (played_from read call pages (last_fed state feds) others) }
{}

/// Whatever scripts do, they give no turns back, make no keys, keep the history to its limit and
/// leave a card on which to stand: so the laws of sessions that ask this of scripts hold over
/// units.
pub fn scripts_keep_to_rules()
    ensures turns { (call : List ℕ → Option Call) (pages : Pages)
        → GivesNoTurns (units_site call pages) }
    ensures keys { (call : List ℕ → Option Call) (pages : Pages)
        → MakesNoKeys (units_site call pages) }
    ensures history { (call : List ℕ → Option Call) (pages : Pages)
        → ScriptsKeep KeepsToLimit (units_site call pages) }
    ensures card { (call : List ℕ → Option Call) (pages : Pages) (shelf : Shelf)
        → ScriptsKeep (StandsOnCard shelf) (units_site call pages) }
{}

/// A script that is started, or goes on with an answer, comes with any keys after it to what it
/// comes to without, and then to what these keys make of the dialog that waits.
pub fn scripts_go_on_with_keys()
    ensures { (pages : Pages) (base : Url) (limits : TheLimits)
        → GoesOnWithKeys pages base limits }
{}

/// Keys in a dialog: an answer goes on with the script, `stop` ends it, and with any other key the
/// dialog stays; none of them sees the keys after it.
pub fn dialogs_go_by_their_keys()
    ensures answers { (call : List ℕ → Option Call) (pages : Pages) (one : Waits) (world : World)
        (key : Key) (v : TheValue) → reply_to one.dialog key ≡ answers v → (keys : List Key)
        → resumed_step call pages one (key ∷ keys) world
        ≡ onward (act (units_site call pages)) (once_of pages (half_of one.limits
        (shelf_of pages) one.base (resumed (uncounted one.limits (host_of pages)) one.frames v
        world.turns (quiet [] (still (inside world))))) keys) }
    ensures stops { (call : List ℕ → Option Call) (pages : Pages) (one : Waits) (world : World)
        (key : Key) → reply_to one.dialog key ≡ ends_it → (keys : List Key)
        → let stopped = ended_script (shelf_of pages) one.base (record {
          end = failed Stopped;
          turns = world.turns;
          step = quiet [] (still (inside world));
        }) in
        resumed_step call pages one (key ∷ keys) world
        ≡ onward (act (units_site call pages))
        (record stopped { step = record stopped.step { keys = keys } }) }
    ensures stays { (call : List ℕ → Option Call) (pages : Pages) (one : Waits) (world : World)
        (key : Key) → reply_to one.dialog key ≡ passes
        → let scene = meanwhile (place_now (shelf_of pages) world) key (inside world) in
        Means call pages (record {
          step = quiet [] (record scene { world = record scene.world { turns = world.turns } });
          waiting = Some one;
        }) (λ keys. resumed_step call pages one (key ∷ keys) world) }
{}

/// Runs of a browser, and of what it sees of its session and of the store, come to the same.
pub fn views_run_alike()
    ensures { ViewsRunAlike }
{}

/// A call of another script that may not be called adds its request's line, its name and its test,
/// and is refused; the step so far is left otherwise, and nothing runs.
pub fn denied_calls_run_nothing()
    ensures { (pages : Pages) (step : Step) (caller url : Url) (target function : List ℕ)
        (count working : ℕ) (entrance : Option Entrance)
        → target_of (Some caller) target ≡ Ok url
        → shelf_of pages (name_for url) ≡ script_page entrance
        → may_enter url entrance (Some caller) ≡ false
        → (keyed_host pages).external step caller target function count working ≡ (
          Not Denied,
          record step {
            lines = step.lines ++ request_line (plain_get url) ∷ [];
            asked = step.asked ++ (name_for url, false) ∷ [];
            tests = step.tests
                ++ record { page = name_for url; caller = Some caller; allowed = false } ∷ [];
          },
        ) }
{}
