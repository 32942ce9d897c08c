//! A small host, which tells its state: the library WMLBrowser fails, and other library calls give
//! invalid. The units `first` and `second` may be called.
ghost use Rattle.std.specs.Prelude.{◌≡◌, ◌≢◌, IfOk, IfErr};
ghost use Rattle.std.specs.Option.{option_copied};
ghost use Rattle.wap_execution.specs.declared.fatal.Fatal.TheVariants.{Budget};
ghost use Rattle.wap_machine.specs.Hosts.{CanBeCalled};
ghost use Rattle.wap_cases.specs.Small.{callable, unit_at};

use std::alloc::Global;
use wap_base::{RunErr, Shared, Text};
use wap_devices::Count;
use wap_execution::{Fatal, Found, HostOut};
use wap_machine::Host;
use wap_url::Url;
use wap_value::Value;
use wap_verify::Verified;

/// A host with so many turns.
#[derive(Drop)]
pub struct SmallHost {
    pub alloc: Global,
    pub turns: u64,
    pub first: Shared<Verified>,
    pub second: Option<Shared<Verified>>,
}

impl SmallHost {
    /// The unit of this URL.
    fn unit_at(&self, url: &Text) -> Option<&Shared<Verified>>
        ensures { option_copied result ≡ unit_at self.now.first self.now.second url.now }
    {
        if url.as_str() == "first" {
            return Some(&self.first);
        }
        if url.as_str() == "second" {
            return self.second.as_ref();
        }
        None
    }
}

/// Pages that fail wherever they are asked, and count that.
#[derive(Drop)]
pub struct FailingPages {
    pub asked: Count,
}

/// The library WMLBrowser, whose functions ask the pages.
const ASKS_PAGES: u16 = 4;

/// The most functions at work.
const MOST_AT_WORK: u32 = 255;

/// The function of a name, where it takes so many arguments and one more may be at work.
fn callable(unit: &Verified, name: &Text, count: u8, depth: u32) -> Result<u8, Fatal>
    ensures is { result ≡ callable unit.now name.now count depth }
    ensures found { IfOk result (λ index. CanBeCalled unit.now index count depth) }
    ensures refused { IfErr result (λ why. why ≢ Budget) }
{
    let Some(index) = unit.function_named(name) else {
        return Err(Fatal::NoFunction);
    };
    match unit.unit().functions.get(index as usize) {
        Some(function) => {
            if function.args != count {
                return Err(Fatal::Arguments);
            }
            if depth >= MOST_AT_WORK {
                return Err(Fatal::Depth);
            }
            Ok(index)
        }
        None => Err(Fatal::NoFunction),
    }
}

impl Host<FailingPages> for SmallHost {
    ghost use Rattle.std.specs.Prelude.{⊤, ◌≡◌, ◌-◌, ◌<◌, ◌≤◌, IsTrue, ◌↔◌};
    ghost use Rattle.std.specs.Prelude.{Some, IfOk, IfSome, IsErrOf};
    ghost use Rattle.wap_cases.specs.Small.{Small, small};
    ghost use Rattle.wap_cases.specs.inside.Asking.{still, both, library_grows};

    ghost Under = { ⊤ };

    ghost may_have = { λ pages under. ⊤ };

    ghost State = { Small };

    ghost turns = { λ host. host.turns };

    ghost state = { λ host pages under. record {
      first = host.first;
      second = host.second;
      asked = pages.asked;
    } };

    ghost meaning = { small };

    ghost faults = { λ pages. pages.asked };

    ghost fetches = { λ pages. pages.asked };

    ghost fetched = { λ state. Some state.asked };

    ghost kept = { λ one two. one.asked ≤ two.asked };

    fn turn(&mut self) -> bool {
        if self.turns == 0 {
            return false;
        }
        self.turns -= 1;
        true
    }

    fn external(
        &mut self,
        pages: &mut FailingPages,
        caller: &Url,
        target: &Text,
        function: &Text,
        count: u8,
        depth: u32,
    ) -> Result<Found<Shared<Verified>>, RunErr> {
        let Some(unit) = self.unit_at(target) else {
            return Ok(Found::Not(Fatal::NoUnit));
        };
        match callable(unit, function, count, depth) {
            Ok(index) => Ok(Found::Callee(unit.share()?, caller.copy(self.alloc)?, index)),
            Err(why) => Ok(Found::Not(why)),
        }
    }

    fn library(
        &mut self,
        pages: &mut FailingPages,
        base: &Url,
        referer: Option<&Url>,
        library: u16,
        function: u8,
        arguments: Vec<Value>,
    ) -> Result<HostOut, RunErr> {
        if library == ASKS_PAGES {
            pages.asked.add();
            return Err(RunErr::Store);
        }
        Ok(HostOut::Value(Value::Invalid))
    }

    ghost counted = { λ host pages under. λ i. pages.asked };

    ghost kept_still = { λ pages. still pages.asked };

    ghost kept_then = { λ one two three first second.
        both one.asked two.asked three.asked first second };

    ghost kept_may = { λ before after under kept may. tt };

    ghost external_grows = { λ before caller target name count depth. still before.asked };

    ghost library_grows = { library_grows };
}
