//! The pages that the program has of its own, and what is pushed.
use std::alloc::Global;
use wap_base::{NoMemory, Text};
use wap_pages::{PageErr, judge};
use wap_world::site::Page;

/// A card that greets, and whose do calls the script:
///
///     <wml><card title="Hello">
///     <do type="accept" name="ask"><go href="ask.wmlsc#ask()"/></do>
///     <p>You are $(who).</p></card></wml>
pub static HELLO: &[u8] =
    b"\x01\x0a\x6a\x04who\x00\x7f\xe7\x36\x03Hello\x00\x01\xe8\x38\x21\x03ask\x00\
    \x01\xab\x4a\x03ask.wmlsc#ask()\x00\x01\x01\x60\x03You are \x00\x82\x00\x03.\x00\x01\x01\x01";

/// A script that asks for a name, compiled:
///
///     extern function ask() { WMLBrowser.setVar("who", Dialogs.prompt("Who?", "Ann")); }
static ASK: &[u8] = b"\x01\x25\x03\x6a\x04\x03who\x04\x04Who?\x04\x03Ann\x00\x01\x01\x00\x03ask\
    \x00\x00\x08\x50\x51\x52\x68\x05\x69\x04\x37";

/// A service indication of the card that greets, as it is pushed:
///
///     <si><indication href="http://h/hello.wmlc"
///     created="1999-06-25T00:00:00Z">New</indication></si>
pub static PUSHED: &[u8] =
    b"\x02\x05\x6a\x00\x45\xc6\x0c\x03h/hello.wmlc\x00\x0a\xc3\x04\x19\x99\x06\
    \x25\x01\x03New\x00\x01\x01";

/// The page of a name with these bytes. One that is none counts as refused, as in a folder.
fn page_of(alloc: Global, name: &Text, bytes: &[u8]) -> Result<Page, NoMemory> {
    if bytes.len() > i32::MAX as usize {
        return Ok(Page::Refused);
    }
    match judge(alloc, name, bytes) {
        Ok(page) => Ok(page),
        Err(PageErr::Refused(_)) => Ok(Page::Refused),
        Err(PageErr::NoMemory) => Err(NoMemory),
    }
}

/// The page of these bytes, with the name that its URL has without `http://`.
fn named_page(alloc: Global, name: &str, bytes: &[u8]) -> Result<(Text, Page), NoMemory> {
    let name = Text::of(alloc, name)?;
    let page = page_of(alloc, &name, bytes)?;
    Ok((name, page))
}

/// The card and the script, by their names.
pub fn own_pages(alloc: Global) -> Result<Vec<(Text, Page)>, NoMemory> {
    let mut pages = Vec::new(alloc);
    pages.push(named_page(alloc, "h/hello.wmlc", HELLO)?)?;
    pages.push(named_page(alloc, "h/ask.wmlsc", ASK)?)?;
    Ok(pages)
}
