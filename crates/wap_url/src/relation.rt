//! A URL as seen from another.
ghost use Rattle.std.specs.Prelude.{◌≡◌, IfOk, MatchOption, [], IsTrue, ◌↔◌};
ghost use Rattle.std.specs.Str.{chars};
ghost use Rattle.wap_url.specs.Calculation.{begins_with_slashes};
ghost use Rattle.wap_url.specs.Segments.{segments, all_but_last, last_segment};
ghost use Rattle.wap_url.specs.Relative.{relative_form, local_path, same_folder, same_site};
ghost use Rattle.wap_url.specs.Relative.{stands_alone, same_text, IsPage, LeadsBack};
ghost use Rattle.std.specs.Option.{option_copied};

use crate::Url;
use crate::parts::begins_with_slashes;
use crate::printing::{add_led, text_without_fragment};
use std::alloc::Global;
use wap_base::{NoMemory, Text};

/// The URL as seen from the base, without its fragment: a page of the base's folder by its last
/// segment, another of the base's site by its path, and any other whole.
pub fn relative(alloc: Global, base: &Url, url: &Url) -> Result<Text, NoMemory>
    ensures exact { IfOk result (λ text. text ≡ relative_form base.now url.now) }

    // Read and joined to the base, the text gives the URL back, without its fragment.
    ensures back { IsPage url.now → IfOk result (λ text. LeadsBack base.now text url.now) }
{
    if !is_same_site(base, url) || begins_with_two_slashes(&url.path) {
        return text_without_fragment(alloc, url);
    }
    let mut text = local_path(alloc, &base.path, &url.path)?;
    add_led(&mut text, '?', &url.query)?;
    Ok(text)
}

fn is_same_site(base: &Url, url: &Url) -> bool
    ensures { result ≡ same_site base.now url.now }
{
    base.scheme == url.scheme && base.host == url.host && base.port == url.port
}

fn begins_with_two_slashes(path: &Text) -> bool
    ensures { result ≡ begins_with_slashes path.now }
{
    begins_with_slashes(path.as_str().as_bytes())
}

fn local_path(alloc: Global, base: &Text, path: &Text) -> Result<Text, NoMemory>
    ensures { IfOk result (λ local. local ≡ local_path base.now path.now) }
{
    let page = last_segment(path.as_str());
    if is_same_folder(base, path) && stands_alone(page) {
        return Text::of(alloc, page);
    }
    path.copy(alloc)
}

fn is_same_folder(base: &Text, path: &Text) -> bool
    ensures { result ≡ same_folder base.now path.now }
{
    is_same(folder_of(base.as_str()), folder_of(path.as_str()))
}

fn is_same(folder: Option<&str>, other: Option<&str>) -> bool
    ensures { result ≡ same_text (option_copied folder.entry) (option_copied other.entry) }
{
    match (folder, other) {
        (None, None) => true,
        (Some(folder), Some(other)) => folder == other,
        _ => false,
    }
}

/// The path before its last slash.
fn folder_of(path: &str) -> Option<&str>
    ensures { MatchOption result (all_but_last (segments path.now) ≡ [])
        (λ folder. all_but_last (segments path.now) ≡ segments folder.now) }
{
    let (folder, _) = path.rsplit_once('/')?;
    Some(folder)
}

fn last_segment(path: &str) -> &str
    ensures { chars result.now ≡ last_segment (segments (chars path.now)) }
{
    match path.rsplit_once('/') {
        Some((_, last)) => last,
        None => path,
    }
}

fn stands_alone(segment: &str) -> bool
    ensures { result ≡ stands_alone (chars segment.now) }
{
    !segment.is_empty() && !segment.as_bytes().contains(&b':')
}
