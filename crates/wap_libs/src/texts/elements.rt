//! The elements of a text, found where they stand.
ghost use Rattle.std.specs.Prelude.{◌≡◌, ◌≤◌, ◌-◌, ◌++◌, length, drop, IfOk};
ghost use Rattle.std.specs.Str.{chars, IsUtf8, IsCharBoundary};
ghost use Rattle.wap_libs.specs.Elements.{elements, within, element_at, without_element};
ghost use Rattle.wap_libs.specs.Elements.{with_element, with_element_before};

use std::alloc::Global;
use wap_base::{NoMemory, Text};

/// The place of an element, put among the elements, and the text from it on.
fn from_element(separator: char, place: usize, text: &str) -> (usize, &str)
    ensures place { result.0 ≡ within (elements separator (chars text.now)) place }
    ensures rest { elements separator (chars result.1.now)
        ≡ drop result.0 (elements separator (chars text.now)) }
    ensures utf8 { IsUtf8 result.1.now }
    ensures shorter { length result.1.now ≤ length text.now }
    ensures end { result.1.now ≡ drop (length text.now - length result.1.now) text.now }
    ensures cut { IsCharBoundary text.now (length text.now - length result.1.now) }
{
    let mut at = 0;
    let mut rest = text;
    while at < place {
        match rest.split_once(separator) {
            Some((_, behind)) => {
                rest = behind;
                at += 1;
            }
            None => return (at, rest),
        }
    }
    (at, rest)
}

/// The same, with the text before the element between them.
fn find_element(separator: char, place: usize, text: &str) -> (usize, &str, &str)
    ensures place { result.0 ≡ within (elements separator (chars text.now)) place }
    ensures rest { elements separator (chars result.2.now)
        ≡ drop result.0 (elements separator (chars text.now)) }
    ensures utf8 { IsUtf8 result.1.now × IsUtf8 result.2.now }
    ensures whole { chars text.now ≡ chars result.1.now ++ chars result.2.now }
{
    let (at, rest) = from_element(separator, place, text);
    (at, &text[..text.len() - rest.len()], rest)
}

/// How many elements a text has.
pub fn count_elements(separator: char, text: &Text) -> usize
    ensures { result ≡ length (elements separator text.now) }
{
    let text = text.as_str();
    let (last, _) = from_element(separator, text.len(), text);
    last + 1
}

/// The element at a place.
pub fn element_at(
    alloc: Global,
    separator: char,
    place: usize,
    text: &Text,
) -> Result<Text, NoMemory>
    ensures { IfOk result (λ found. found ≡ element_at separator place text.now) }
{
    let (_, rest) = from_element(separator, place, text.as_str());
    match rest.split_once(separator) {
        Some((element, _)) => Text::of(alloc, element),
        None => Text::of(alloc, rest),
    }
}

/// The text without the element at a place.
pub fn without_element(
    alloc: Global,
    separator: char,
    place: usize,
    text: &Text,
) -> Result<Text, NoMemory>
    ensures { IfOk result (λ made. made ≡ without_element separator place text.now) }
{
    let (_, before, rest) = find_element(separator, place, text.as_str());
    match rest.split_once(separator) {
        Some((_, behind)) => {
            let mut made = Text::of(alloc, before)?;
            made.add(behind)?;
            Ok(made)
        }
        None => match before.strip_suffix(separator) {
            Some(others) => Text::of(alloc, others),
            None => Ok(Text::new(alloc)),
        },
    }
}

/// The text with another element at a place.
pub fn with_element(
    alloc: Global,
    separator: char,
    place: usize,
    new: &Text,
    text: &Text,
) -> Result<Text, NoMemory>
    ensures { IfOk result (λ made. made ≡ with_element separator place new.now text.now) }
{
    let (_, before, rest) = find_element(separator, place, text.as_str());
    let mut made = Text::of(alloc, before)?;
    made.add(new.as_str())?;
    match rest.split_once(separator) {
        Some((_, behind)) => {
            made.push(separator)?;
            made.add(behind)?;
            Ok(made)
        }
        None => Ok(made),
    }
}

/// The text with another element before the one at a place, or at the end.
pub fn with_element_before(
    alloc: Global,
    separator: char,
    place: usize,
    new: &Text,
    text: &Text,
) -> Result<Text, NoMemory>
    ensures { IfOk result (λ made. made ≡ with_element_before separator place new.now text.now) }
{
    if text.is_empty() {
        return new.copy(alloc);
    }
    let (at, before, rest) = find_element(separator, place, text.as_str());
    if at < place {
        let mut made = text.copy(alloc)?;
        made.push(separator)?;
        made.add(new.as_str())?;
        return Ok(made);
    }
    let mut made = Text::of(alloc, before)?;
    made.add(new.as_str())?;
    made.push(separator)?;
    made.add(rest)?;
    Ok(made)
}
