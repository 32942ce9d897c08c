//! Functions of libraries by their numbers (WAP-194).
ghost use Rattle.std.specs.Prelude.{◌≡◌, ◌≢◌, Some, length, IfOk};
ghost use Rattle.std.specs.Option.{option_copied};
ghost use Rattle.wap_unit.specs.Libraries.{lib_args};
ghost use Rattle.wap_machine.specs.Hosts.{IsNoBudget};
ghost use Rattle.wap_world.specs.Shelves.{Shelf};
ghost use Rattle.wap_world.specs.scripting.Hosting.{pure_call, url_call, library_call, kept};
ghost use Rattle.wap_world.specs.scripting.Hosting.{within};
ghost use Rattle.wap_world.specs.scripting.UnitSites.{shelf_of};
ghost use Rattle.wap_world.specs.scripting.Views.{fresh, place_with};
ghost use Rattle.wap_context.specs.host.Serving.{Gave, Serves};

use crate::host::sight::Sight;
use wap_base::{NoMemory, RunErr};
use wap_execution::{Fatal, HostOut};
use wap_libs::{LibFault, LibOut, call_pure, is_pure};
use wap_url::Url;
use wap_value::Value;
use wap_world::site::Pages;

impl Sight {
    /// A function that needs no browser.
    fn pure(
        &mut self,
        library: u16,
        function: u8,
        arguments: Vec<Value>,
    ) -> Result<HostOut, NoMemory>
        requires { lib_args library function ≡ Some (length arguments.items) }
        ensures { IfOk result
            (Gave (pure_call library function arguments.items) self.old self.new) }
    {
        if !is_pure(library, function) {
            return Ok(HostOut::Value(Value::Invalid));
        }
        let string = self.state.limits.string;
        let generator = &mut self.state.generator;
        match call_pure(self.alloc, library, function, arguments, generator, string) {
            Ok(LibOut::Value(value)) => Ok(HostOut::Value(value)),
            Ok(LibOut::Exit(value)) => Ok(HostOut::Exit(value)),
            Ok(LibOut::Abort(text)) => Ok(HostOut::Fatal(Fatal::Aborted(text))),
            Err(LibFault::TooLong { bytes: _ }) => Ok(HostOut::Fatal(Fatal::TooLong)),
            Err(LibFault::NoMemory) => Err(NoMemory),
        }
    }

    /// What a call gives, unless it is a String past the limit.
    fn within_limit(&self, out: HostOut) -> HostOut
        ensures is { result ≡ kept self.now.world.limits.string out }
        ensures no_budget { IsNoBudget out → IsNoBudget result }
    {
        match out {
            HostOut::Value(value) => self.within(value),
            HostOut::Exit(value) => HostOut::Exit(value),
            HostOut::Fatal(why) => HostOut::Fatal(why),
            HostOut::Asks(dialog) => HostOut::Asks(dialog),
        }
    }

    /// A function of the library URL that asks for no page, whatever the limit of Strings.
    fn call_url(
        &mut self,
        base: &Url,
        referer: Option<&Url>,
        function: u8,
        arguments: Vec<Value>,
    ) -> Result<HostOut, NoMemory>
        requires count { lib_args 3 function ≡ Some (length arguments.items) }
        requires quiet { function ≢ 13 }
        ensures gave { (shelf : Shelf) → IfOk result (Gave (url_call shelf base.now
            (option_copied referer.entry) function arguments.items) self.old self.new) }
        ensures no_budget { IfOk result IsNoBudget }
    {
        match function {
            8 => Ok(HostOut::Value(self.get_base(base)?)),
            9 => Ok(HostOut::Value(self.get_referer(base, referer)?)),
            _ => self.pure(3, function, arguments),
        }
    }

    /// A function of the library URL.
    fn url<P: Pages>(
        &mut self,
        pages: &mut P,
        base: &Url,
        referer: Option<&Url>,
        function: u8,
        arguments: Vec<Value>,
    ) -> Result<HostOut, RunErr>
        requires { lib_args 3 function ≡ Some (length arguments.items) }
        ensures serves { Serves (λ view. within (url_call (shelf_of view.pages) base.now
            (option_copied referer.entry) function arguments.items (fresh view)))
            self.old self.new (P.seen pages.old) (P.seen pages.new) result }
        ensures no_budget { IfOk result IsNoBudget }
    {
        if function == 13 {
            return self.load(pages, arguments.as_slice());
        }
        let out = self.call_url(base, referer, function, arguments)?;
        Ok(self.within_limit(out))
    }

    /// A function of a library.
    pub(crate) fn call<P: Pages>(
        &mut self,
        pages: &mut P,
        base: &Url,
        referer: Option<&Url>,
        library: u16,
        function: u8,
        arguments: Vec<Value>,
    ) -> Result<HostOut, RunErr>
        requires { lib_args library function ≡ Some (length arguments.items) }
        ensures serves { Serves (λ view. library_call (shelf_of view.pages) (place_with view.deck)
            (fresh view) base.now (option_copied referer.entry) library function arguments.items)
            self.old self.new (P.seen pages.old) (P.seen pages.new) result }
        ensures no_budget { IfOk result IsNoBudget }
    {
        match library {
            5 => Ok(self.dialogs(function, arguments.as_slice())?),
            4 => Ok(self.browser(base, function, arguments.as_slice())?),
            3 => self.url(pages, base, referer, function, arguments),
            _ => Ok(self.pure(library, function, arguments)?),
        }
    }
}
