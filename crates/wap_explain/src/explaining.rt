//! What is said of a page.
ghost use Rattle.std.specs.Prelude.{◌≡◌, ◌<◌, ◌^◌, length, Some, None};
ghost use Rattle.wap_devices.specs.Pages.{IsSmall};
ghost use Rattle.wap_pages.specs.declared.fault.PageFault.{PageFault};
ghost use Rattle.wap_explain.specs.Explaining.{IsRight, IsRightOf, Explains};

use crate::ending::Ending;
use crate::pages::text_of;
use std::alloc::Global;
use wap_base::Text;
use wap_devices::{Failed, Fetched, Sink, Store, StoreErr, write_all};
use wap_pages::{PageErr, PageFault, judge};

/// Writes the fault as `wap` prints it, if there is one, and then the text.
fn write_told<O: Sink>(out: &mut O, fault: &Option<PageFault>, text: &str) -> Result<(), Failed> {
    if let Some(fault) = fault {
        write_all(out, b"refused ")?;
        fault.print(out)?;
        write_all(out, b"\n")?;
    }
    write_all(out, text.as_bytes())
}

/// Writes what is said of a page with these bytes, which is good or has a fault.
fn tell<O: Sink>(
    alloc: Global,
    name: &Text,
    bytes: &[u8],
    fault: Option<PageFault>,
    out: &mut O,
) -> Ending
    requires { length bytes.now < 2 ^ 31 }
    ensures good { result ≡ Ending.Good → fault ≡ None }
    ensures refused { (other : PageFault) → result ≡ Ending.Refused other → fault ≡ Some other }
{
    let Ok(text) = text_of(alloc, name, bytes, &fault) else {
        return Ending::NoMemory;
    };
    match (write_told(out, &fault, text.as_str()), fault) {
        (Err(Failed), _) => Ending::WriteFault,
        (Ok(()), None) => Ending::Good,
        (Ok(()), Some(fault)) => Ending::Refused(fault),
    }
}

/// Says of the page of a name with these bytes whether it is refused, and why.
fn explain_bytes<O: Sink>(alloc: Global, name: &Text, bytes: &[u8], out: &mut O) -> Ending
    requires { length bytes.now < 2 ^ 31 }
    ensures { IsRight name.now bytes.now result }
{
    match judge(alloc, name, bytes) {
        Ok(_) => tell(alloc, name, bytes, None, out),
        Err(PageErr::Refused(fault)) => tell(alloc, name, bytes, Some(fault), out),
        Err(PageErr::NoMemory) => Ending::NoMemory,
    }
}

/// Says the same of what the store answered for a name.
fn explain_page<O: Sink>(alloc: Global, name: &Text, page: &Fetched, out: &mut O) -> Ending
    requires { IsSmall page.now }
    ensures { IsRightOf name.now page.now result }
{
    match page {
        Fetched::Missing => tell(alloc, name, b"", Some(PageFault::Missing), out),
        Fetched::Found(bytes) => explain_bytes(alloc, name, bytes.as_slice(), out),
    }
}

/// Says of the page of a name whether it is refused, and why, and shows it.
#[tactic(auto, using(wap_devices::proofs::Telling::grew_nothing))]
pub(crate) fn explain<S: Store, O: Sink>(
    alloc: Global,
    name: &Text,
    store: &mut S,
    out: &mut O,
) -> Ending
    ensures { Explains name.now (S.seen store.old) (S.seen store.new) result }
{
    match store.fetch(name) {
        Ok(page) => explain_page(alloc, name, &page, out),
        Err(StoreErr::Failed) => Ending::StoreFault,
        Err(StoreErr::NoMemory) => Ending::NoMemory,
    }
}
