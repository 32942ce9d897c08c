//! The line of a request.
ghost use Rattle.std.specs.Prelude.{◌≡◌, ◌++◌, [], ◌∷◌, codes, if◌then◌else◌, IfOk, OnOk};
ghost use Rattle.std.specs.Option.{option_map_or};
ghost use Rattle.wap_base.specs.Ascii.{space};
ghost use Rattle.wap_world.specs.Requests.{method_text, request_line};

use crate::requests::requests::Request;
use crate::requests::urls::page_text;
use std::alloc::Global;
use wap_base::{NoMemory, Text};

/// Appends the method.
#[tactic(auto, using(wap_base::proofs::Plain::words))]
fn add_method(line: &mut Text, request: &Request) -> Result<(), NoMemory>
    ensures { OnOk result (line.new ≡ line.old ++ method_text request.now) }
{
    match &request.body {
        Some(_) => line.add("POST "),
        None => line.add("GET "),
    }
}

/// Appends a body, after a space.
fn add_body(line: &mut Text, body: &Option<Text>) -> Result<(), NoMemory>
    ensures { OnOk result
        (line.new ≡ line.old ++ option_map_or (λ body. space ∷ body) body.now []) }
{
    if let Some(body) = body {
        line.push(' ')?;
        line.add(body.as_str())?;
    }
    Ok(())
}

/// Appends the URL of the deck from which it is asked for.
#[tactic(auto, using(wap_base::proofs::Plain::words))]
fn add_referer(line: &mut Text, referer: &Option<Text>) -> Result<(), NoMemory>
    ensures { OnOk result (line.new ≡ line.old
        ++ option_map_or (λ referer. codes " referer " ++ referer) referer.now []) }
{
    if let Some(referer) = referer {
        line.add(" referer ")?;
        line.add(referer.as_str())?;
    }
    Ok(())
}

/// Appends that the page is fetched anew.
#[tactic(auto, using(wap_base::proofs::Plain::words))]
fn add_fresh(line: &mut Text, fresh: bool) -> Result<(), NoMemory>
    ensures { OnOk result
        (line.new ≡ line.old ++ (if fresh then codes " no-cache" else [])) }
{
    if fresh {
        line.add(" no-cache")?;
    }
    Ok(())
}

/// The line that a request shows.
#[tactic(auto, using(wap_base::proofs::Plain::words))]
pub fn request_line(alloc: Global, request: &Request) -> Result<Text, NoMemory>
    ensures { IfOk result (λ line. line ≡ request_line request.now) }
{
    let mut line = Text::new(alloc);
    line.add("> ")?;
    add_method(&mut line, request)?;
    line.add(page_text(alloc, &request.url)?.as_str())?;
    add_body(&mut line, &request.body)?;
    add_referer(&mut line, &request.referer)?;
    add_fresh(&mut line, request.fresh)?;
    Ok(line)
}
