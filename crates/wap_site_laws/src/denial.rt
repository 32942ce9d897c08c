//! Goes to scripts and calls of scripts that may not be called. These functions do nothing when they
//! are called.
ghost use Rattle.std.specs.Prelude.{◌≡◌, ◌++◌, ◌∷◌, [], ℕ, suc, false, List, Option, Some, Ok};
ghost use Rattle.std.specs.Option.{option_map_or};
ghost use Rattle.wap_base.specs.declared.limits.Limits.{Limits};
ghost use Rattle.wap_base.specs.declared.key.Key.{Key};
ghost use Rattle.wap_url.specs.declared.url.Url.{Url};
ghost use Rattle.wap_url.specs.Printing.{name_for};
ghost use Rattle.wap_value.specs.declared.value.Value.{Value as TheValue};
ghost use Rattle.wap_execution.specs.declared.fatal.Fatal.TheVariants.{Denied};
ghost use Rattle.wap_execution.specs.Frames.{Function};
ghost use Rattle.wap_execution.specs.Effects.{external, calls};
ghost use Rattle.wap_execution.specs.Outcomes.{fatal};
ghost use Rattle.wap_execution.specs.Running.{Enter, Onward, called, ended, followed_by};
ghost use Rattle.wap_execution.specs.laws.Settings.{uncounted};
ghost use Rattle.wap_cardrules.specs.declared.task.Go.{Go};
ghost use Rattle.wap_cardrules.specs.declared.task.Task.TheVariants as task;
ghost use Rattle.wap_world.specs.Shelves.{Entrance, script_page};
ghost use Rattle.wap_world.specs.Sites.{Site};
ghost use Rattle.wap_world.specs.World.{World, place_now};
ghost use Rattle.wap_world.specs.Steps.{Step};
ghost use Rattle.wap_world.specs.Urls.{target_of};
ghost use Rattle.wap_world.specs.Access.{may_enter};
ghost use Rattle.wap_world.specs.Screens.{show};
ghost use Rattle.wap_world.specs.Requests.{plain_get, request_of, request_line, answer_to};
ghost use Rattle.wap_world.specs.Starting.{script_line};
ghost use Rattle.wap_world.specs.Tasks.{base_url, is_here, act};
ghost use Rattle.wap_world.specs.scripting.UnitSites.{Pages, shelf_of, keyed_host};

/// A go to a script that may not be called takes its turn, and adds its request's line, its name
/// and its test, and the line of the denial; then the current card is shown, and nothing runs. So
/// it is of a task of a card, and of a go that a script asked for, also where there is no card.
pub fn denied_goes_take_their_turn()
    ensures { (site : Site) (keys : List Key) (one : Go) (from : Option Url) (world : World)
        (url : Url) (entrance : Option Entrance) (turns : ℕ)
        → let place = place_now site.shelf world in
        let caller = base_url place from in
        let asked = request_of caller one url in
        let again = show place (record world { turns = turns }) in
        world.turns ≡ suc turns → target_of caller one.href ≡ Ok url
        → option_map_or (is_here asked) place false ≡ false
        → answer_to site.shelf asked ≡ script_page entrance
        → may_enter asked.url entrance caller ≡ false
        → act site keys world (record { task = task.Go one; from = from }) ≡ record {
          world = again.world;
          keys = keys;
          lines = request_line asked ∷ script_line Denied ∷ again.lines;
          asked = (name_for asked.url, asked.fresh) ∷ [];
          tests = record { page = name_for asked.url; caller = caller; allowed = false } ∷ [];
          is_open = false;
        } }
{}

/// A call of another script that may not be called takes its turn, and adds its request's line, its
/// name and its test; then the script ends as one that was denied, and nothing runs: neither what
/// the frame would go on with, nor any function that is entered.
pub fn denied_calls_take_their_turn()
    ensures { (pages : Pages) (limits : Limits) (working : ℕ) (enter : Enter Step)
        (function : Function) (on again : Onward Step) (target name : List ℕ)
        (arguments variables operands : List TheValue) (place turns : ℕ) (step : Step)
        (url : Url) (entrance : Option Entrance)
        → target_of (Some function.base) target ≡ Ok url
        → shelf_of pages (name_for url) ≡ script_page entrance
        → may_enter url entrance (Some function.base) ≡ false
        → followed_by (called (uncounted limits (keyed_host pages)) working enter function)
        function on again (calls (external target name) arguments place variables operands)
        (suc turns) step
        ≡ ended (fatal Denied) turns (record step {
          lines = step.lines ++ request_line (plain_get url) ∷ [];
          asked = step.asked ++ (name_for url, false) ∷ [];
          tests = step.tests ++ record {
            page = name_for url;
            caller = Some function.base;
            allowed = false;
          } ∷ [];
        }) }
{}
