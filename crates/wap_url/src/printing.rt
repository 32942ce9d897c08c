//! A URL as text, and the name of its page in the store.
ghost use Rattle.std.specs.Prelude.{◌≡◌, ◌++◌, ◌∷◌, [], IfOk, OnOk};
ghost use Rattle.std.specs.Fmt.{decimal};
ghost use Rattle.wap_url.specs.UrlParts.{followed_by, led_by, authority, IsUrl};
ghost use Rattle.wap_url.specs.Printing.{printed, text_without_fragment, parts_for, named_port};
ghost use Rattle.wap_url.specs.Printing.{named_page, ends_in_slash, name_for, IsNormal};
ghost use Rattle.std.specs.Option.{option_map, unwrap_or};
ghost use Rattle.wap_base.specs.Ascii.{colon};

use crate::Url;
use std::alloc::Global;
use wap_base::{NoMemory, Text};

/// The URL as text (RFC 2396, section 5.2, step 7).
pub fn print(alloc: Global, url: &Url) -> Result<Text, NoMemory>
    ensures exact { IfOk result (λ text. text ≡ printed url.now) }

    // What `Url::read` gives is read again from its text.
    ensures again { IsNormal url.now → IfOk result (λ text. IsUrl text url.now) }
{
    let mut text = text_without_fragment(alloc, url)?;
    add_led(&mut text, '#', &url.fragment)?;
    Ok(text)
}

/// The URL as text, without its fragment.
pub(crate) fn text_without_fragment(alloc: Global, url: &Url) -> Result<Text, NoMemory>
    ensures { IfOk result (λ text. text ≡ text_without_fragment url.now) }
{
    let mut text = Text::new(alloc);
    add_scheme(&mut text, &url.scheme)?;
    add_authority(&mut text, &url.host, url.port)?;
    text.add(url.path.as_str())?;
    add_led(&mut text, '?', &url.query)?;
    Ok(text)
}

fn add_scheme(text: &mut Text, scheme: &Option<Text>) -> Result<(), NoMemory>
    ensures { OnOk result (text.new ≡ text.old ++ followed_by colon scheme.now) }
{
    if let Some(scheme) = scheme {
        text.add(scheme.as_str())?;
        text.push(':')?;
    }
    Ok(())
}

fn add_authority(text: &mut Text, host: &Option<Text>, port: Option<u16>) -> Result<(), NoMemory>
    ensures { OnOk result (text.new ≡ text.old ++ authority host.now (option_map decimal port)) }
{
    if let Some(host) = host {
        text.push('/')?;
        text.push('/')?;
        text.add(host.as_str())?;
        add_port(text, port)?;
    }
    Ok(())
}

fn add_port(text: &mut Text, port: Option<u16>) -> Result<(), NoMemory>
    ensures { OnOk result (text.new ≡ text.old ++ led_by (colon ∷ []) (option_map decimal port)) }
{
    if let Some(port) = port {
        text.push(':')?;
        text.add_number(u64::from(port))?;
    }
    Ok(())
}

/// Adds a part after the character that leads it.
pub(crate) fn add_led(text: &mut Text, lead: char, part: &Option<Text>) -> Result<(), NoMemory>
    ensures { OnOk result (text.new ≡ text.old ++ led_by (lead ∷ []) part.now) }
{
    if let Some(part) = part {
        text.push(lead)?;
        text.add(part.as_str())?;
    }
    Ok(())
}

/// The name under which the store has the URL's page: host, a port other than 80, and path, where
/// `index.wmlc` stands for a folder's page. Scheme and query are no part of it; where there is no
/// host it begins with the path.
pub fn name_of(alloc: Global, url: &Url) -> Result<Text, NoMemory>
    ensures exact { IfOk result (λ name. name ≡ name_for url.now) }
{
    let mut name = Text::new(alloc);
    if let Some(host) = &url.host {
        name.add(host.as_str())?;
    }
    add_named_port(&mut name, url.port)?;
    add_named_page(&mut name, &url.path)?;
    Ok(name)
}

fn add_named_port(name: &mut Text, port: Option<u16>) -> Result<(), NoMemory>
    ensures { OnOk result (name.new ≡ name.old ++ named_port port) }
{
    match port {
        None | Some(80) => Ok(()),
        Some(_) => add_port(name, port),
    }
}

fn add_named_page(name: &mut Text, path: &Text) -> Result<(), NoMemory>
    ensures { OnOk result (name.new ≡ name.old ++ named_page path.now) }
{
    name.add(path.as_str())?;
    if is_folder(path.as_str().as_bytes()) {
        name.add("index.wmlc")?;
    }
    Ok(())
}

fn is_folder(path: &[u8]) -> bool
    ensures { result ≡ ends_in_slash path.now }
{
    match path {
        [] => false,
        [.., last] => *last == b'/',
    }
}
