//! The library URL.
ghost use Rattle.std.specs.Prelude.{◌≡◌, length, IfOk, option_map};
ghost use Rattle.std.specs.Fmt.{decimal};
ghost use Rattle.wap_base.specs.Outcome.{Meets};
ghost use Rattle.std.specs.Result.{result_ok};
ghost use Rattle.wap_url.specs.Calculation.{url_at};
ghost use Rattle.wap_libs.specs.Outcome.{kept_within};
ghost use Rattle.wap_libs.specs.Row.{value_given, values_taken};
ghost use Rattle.wap_libs.specs.Url.{formula_of_url, url_of, on_url, part_value, parameters};
ghost use Rattle.wap_libs.specs.Url.{without_parameters, is_base, resolved, text_of_bytes};
ghost use Rattle.wap_libs.specs.Url.{last_segment, url_is_valid, url_get_scheme, url_get_host};
ghost use Rattle.wap_libs.specs.Url.{url_get_port, url_get_path, url_get_parameters};
ghost use Rattle.wap_libs.specs.Url.{url_get_query, url_get_fragment, url_resolve};
ghost use Rattle.wap_libs.specs.Url.{url_escape_string, url_unescape_string};

use crate::texts::argument::{argument, keep_within, text_value};
use crate::texts::elements::{element_at, with_element, without_element};
use crate::{LibFault, UrlFunction};
use std::alloc::Global;
use wap_base::{Bytes, NoMemory, Text};
use wap_url::{Url, UrlFault, escape, join, print, unescape};
use wap_value::{Value, to_str};

/// Calls a function of URL that needs no browser.
pub(crate) fn call_url(
    alloc: Global,
    function: UrlFunction,
    args: &[Value],
    limit: u32,
) -> Result<Value, LibFault>
    requires { length args.now ≡ values_taken (formula_of_url function) }
    ensures { Meets LibFault.NoMemory (λ value. value) result
        (kept_within limit (value_given (formula_of_url function) args.now)) }
{
    let first = argument(args, 0);
    let value = match function {
        UrlFunction::IsValid => url_is_valid(alloc, first),
        UrlFunction::GetScheme => url_get_scheme(alloc, first),
        UrlFunction::GetHost => url_get_host(alloc, first),
        UrlFunction::GetPort => url_get_port(alloc, first),
        UrlFunction::GetPath => url_get_path(alloc, first),
        UrlFunction::GetParameters => url_get_parameters(alloc, first),
        UrlFunction::GetQuery => url_get_query(alloc, first),
        UrlFunction::GetFragment => url_get_fragment(alloc, first),
        UrlFunction::Resolve => url_resolve(alloc, first, argument(args, 1)),
        UrlFunction::EscapeString => url_escape_string(alloc, first),
        UrlFunction::UnescapeString => url_unescape_string(alloc, first),
    };
    keep_within(value?, limit)
}

/// The URL that a value spells.
fn url_of(alloc: Global, value: &Value) -> Result<Option<Url>, NoMemory>
    ensures { IfOk result (λ url. url ≡ url_of value.now) }
{
    match to_str(alloc, value)? {
        Some(text) => read(alloc, &text),
        None => Ok(None),
    }
}

fn read(alloc: Global, text: &Text) -> Result<Option<Url>, NoMemory>
    ensures { IfOk result (λ url. url ≡ result_ok (url_at text.now)) }
{
    match Url::read(alloc, text) {
        Ok(url) => Ok(Some(url)),
        Err(UrlFault::NoMemory) => Err(NoMemory),
        Err(_) => Ok(None),
    }
}

/// A part of a URL as a value.
fn part_value(alloc: Global, part: Option<Text>) -> Value
    ensures { result ≡ part_value part }
{
    Value::Str(part.unwrap_or(Text::new(alloc)))
}

#[tactic(auto, using(crate::proofs::Names::is_some_of_ok))]
fn url_is_valid(alloc: Global, value: &Value) -> Result<Value, NoMemory>
    ensures { IfOk result (λ answer. answer ≡ url_is_valid value.now) }
{
    match to_str(alloc, value)? {
        Some(text) => Ok(Value::Bool(read(alloc, &text)?.is_some())),
        None => Ok(Value::Invalid),
    }
}

fn url_get_scheme(alloc: Global, value: &Value) -> Result<Value, NoMemory>
    ensures { IfOk result (λ answer. answer ≡ url_get_scheme value.now) }
{
    match url_of(alloc, value)? {
        Some(url) => Ok(part_value(alloc, url.scheme)),
        None => Ok(Value::Invalid),
    }
}

fn url_get_host(alloc: Global, value: &Value) -> Result<Value, NoMemory>
    ensures { IfOk result (λ answer. answer ≡ url_get_host value.now) }
{
    match url_of(alloc, value)? {
        Some(url) => Ok(part_value(alloc, url.host)),
        None => Ok(Value::Invalid),
    }
}

fn url_get_port(alloc: Global, value: &Value) -> Result<Value, NoMemory>
    ensures { IfOk result (λ answer. answer ≡ url_get_port value.now) }
{
    match url_of(alloc, value)? {
        Some(url) => Ok(part_value(alloc, decimal(alloc, url.port)?)),
        None => Ok(Value::Invalid),
    }
}

fn url_get_path(alloc: Global, value: &Value) -> Result<Value, NoMemory>
    ensures { IfOk result (λ answer. answer ≡ url_get_path value.now) }
{
    match url_of(alloc, value)? {
        Some(url) => without_parameters(alloc, &url.path).map(Value::Str),
        None => Ok(Value::Invalid),
    }
}

fn url_get_parameters(alloc: Global, value: &Value) -> Result<Value, NoMemory>
    ensures { IfOk result (λ answer. answer ≡ url_get_parameters value.now) }
{
    match url_of(alloc, value)? {
        Some(url) => parameters(alloc, &url.path).map(Value::Str),
        None => Ok(Value::Invalid),
    }
}

fn url_get_query(alloc: Global, value: &Value) -> Result<Value, NoMemory>
    ensures { IfOk result (λ answer. answer ≡ url_get_query value.now) }
{
    match url_of(alloc, value)? {
        Some(url) => Ok(part_value(alloc, url.query)),
        None => Ok(Value::Invalid),
    }
}

fn url_get_fragment(alloc: Global, value: &Value) -> Result<Value, NoMemory>
    ensures { IfOk result (λ answer. answer ≡ url_get_fragment value.now) }
{
    match url_of(alloc, value)? {
        Some(url) => Ok(part_value(alloc, url.fragment)),
        None => Ok(Value::Invalid),
    }
}

#[tactic(auto, using(crate::proofs::TextsLemmas::Names::decimal_is_itself))]
fn decimal(alloc: Global, port: Option<u16>) -> Result<Option<Text>, NoMemory>
    ensures { IfOk result (λ text. text ≡ option_map decimal port) }
{
    match port {
        Some(port) => Ok(Some(Text::from_string(port.to_string(alloc)?))),
        None => Ok(None),
    }
}

/// The last of a path's segments.
fn last_segment(alloc: Global, path: &Text) -> Result<Text, NoMemory>
    ensures { IfOk result (λ segment. segment ≡ last_segment path.now) }
{
    element_at(alloc, '/', path.len(), path)
}

fn parameters(alloc: Global, path: &Text) -> Result<Text, NoMemory>
    ensures { IfOk result (λ text. text ≡ parameters path.now) }
{
    let last = last_segment(alloc, path)?;
    without_element(alloc, ';', 0, &last)
}

fn without_parameters(alloc: Global, path: &Text) -> Result<Text, NoMemory>
    ensures { IfOk result (λ text. text ≡ without_parameters path.now) }
{
    let last = last_segment(alloc, path)?;
    let kept = element_at(alloc, ';', 0, &last)?;
    with_element(alloc, '/', path.len(), &kept, path)
}

fn url_resolve(alloc: Global, base: &Value, reference: &Value) -> Result<Value, NoMemory>
    ensures { IfOk result (λ answer. answer ≡ url_resolve base.now reference.now) }
{
    match url_of(alloc, base)? {
        Some(base) => resolve_on(alloc, &base, reference),
        None => Ok(Value::Invalid),
    }
}

fn resolve_on(alloc: Global, base: &Url, reference: &Value) -> Result<Value, NoMemory>
    ensures { IfOk result (λ answer. answer ≡ on_url reference.now (λ u. resolved base.now u)) }
{
    match url_of(alloc, reference)? {
        Some(reference) => resolve(alloc, base, &reference),
        None => Ok(Value::Invalid),
    }
}

/// The text of the reference joined to the base, where the base has a scheme and a host.
fn resolve(alloc: Global, base: &Url, reference: &Url) -> Result<Value, NoMemory>
    ensures { IfOk result (λ answer. answer ≡ resolved base.now reference.now) }
{
    if !is_base(base) {
        return Ok(Value::Invalid);
    }
    let joined = join(alloc, base, reference)?;
    print(alloc, &joined).map(Value::Str)
}

fn is_base(url: &Url) -> bool
    ensures { result ≡ is_base url.now }
{
    url.scheme.is_some() && url.host.is_some()
}

fn url_escape_string(alloc: Global, value: &Value) -> Result<Value, NoMemory>
    ensures { IfOk result (λ answer. answer ≡ url_escape_string value.now) }
{
    match to_str(alloc, value)? {
        Some(text) => escape(alloc, &text).map(Value::Str),
        None => Ok(Value::Invalid),
    }
}

fn url_unescape_string(alloc: Global, value: &Value) -> Result<Value, NoMemory>
    ensures { IfOk result (λ answer. answer ≡ url_unescape_string value.now) }
{
    match to_str(alloc, value)? {
        Some(text) => Ok(text_value(text_of_bytes(alloc, &unescape(alloc, &text)?)?)),
        None => Ok(Value::Invalid),
    }
}

/// The characters of bytes, where they are UTF-8.
#[tactic(auto, using(crate::proofs::Names::text_of_utf8, crate::proofs::Names::text_of_no_utf8))]
fn text_of_bytes(alloc: Global, bytes: &Bytes) -> Result<Option<Text>, NoMemory>
    ensures { IfOk result (λ text. text ≡ text_of_bytes bytes.now) }
{
    match str::from_utf8(bytes.as_slice()) {
        Ok(text) => Ok(Some(Text::of(alloc, text)?)),
        Err(_) => Ok(None),
    }
}
