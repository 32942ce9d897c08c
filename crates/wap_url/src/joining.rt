//! Joining a reference to a base (RFC 2396, section 5.2, but for what `specs/Joining.antt` names as
//! this project's own).
ghost use Rattle.std.specs.Prelude.{◌≡◌, ◌++◌, IfOk, OnOk, is_some};
ghost use Rattle.wap_url.specs.Joining.{target, merged_path, lead_segments, rooted, joined};
ghost use Rattle.wap_url.specs.Joining.{resolved_path};
ghost use Rattle.wap_url.specs.Segments.{segments, all_but_last};
ghost use Rattle.wap_url.specs.inside.Segments.{folder_of};
ghost use Rattle.wap_base.specs.Cuts.{begins_with};
ghost use Rattle.wap_url.specs.Characters.{is_slash};

use crate::Url;
use crate::cut::begins_with_byte;
use crate::dots::resolved_path;
use crate::url::copy_of;
use std::alloc::Global;
use wap_base::{NoMemory, Text};

/// The URL that a reference stands for on the page of the base. A reference that is an empty path
/// without a query stands for the base itself, with the reference's fragment.
pub fn join(alloc: Global, base: &Url, reference: &Url) -> Result<Url, NoMemory>
    ensures exact { IfOk result (λ url. url ≡ joined base.now reference.now) }
{
    let url = target(alloc, base, reference)?;
    let path = plain_path(alloc, &url)?;
    Ok(Url { path, ..url })
}

/// The path without dot segments. Under a host an empty path is the root.
fn plain_path(alloc: Global, url: &Url) -> Result<Text, NoMemory>
    ensures { IfOk result (λ path. path
        ≡ rooted (is_some url.now.host) (resolved_path url.now.path)) }
{
    let path = resolved_path(alloc, &url.path)?;
    default_to_root(alloc, path, url.host.is_some())
}

/// The reference with what it takes from the base.
fn target(alloc: Global, base: &Url, reference: &Url) -> Result<Url, NoMemory>
    ensures { IfOk result (λ url. url ≡ target base.now reference.now) }
{
    if reference.scheme.is_some() {
        return reference.copy(alloc);
    }
    if reference.host.is_some() {
        let scheme = copy_of(alloc, &base.scheme)?;
        return Ok(Url {
            scheme,
            ..reference.copy(alloc)?
        });
    }
    if reference.path.is_empty() && reference.query.is_none() {
        let fragment = copy_of(alloc, &reference.fragment)?;
        return Ok(Url {
            fragment,
            ..base.copy(alloc)?
        });
    }
    on_host_of(alloc, base, reference)
}

/// The reference on the scheme, host and port of the base, with the path merged with the base's.
fn on_host_of(alloc: Global, base: &Url, reference: &Url) -> Result<Url, NoMemory>
    ensures { IfOk result (λ url. url ≡ record reference.now {
      scheme = base.now.scheme;
      host = base.now.host;
      port = base.now.port;
      path = merged_path base.now reference.now;
    }) }
{
    Ok(Url {
        scheme: copy_of(alloc, &base.scheme)?,
        host: copy_of(alloc, &base.host)?,
        port: base.port,
        path: merged_path(alloc, base, reference)?,
        query: copy_of(alloc, &reference.query)?,
        fragment: copy_of(alloc, &reference.fragment)?,
    })
}

/// The reference's path, after the base's up to its last slash where it doesn't begin with one.
fn merged_path(alloc: Global, base: &Url, reference: &Url) -> Result<Text, NoMemory>
    ensures { IfOk result (λ path. path ≡ merged_path base.now reference.now) }
{
    if begins_at_root(&reference.path) {
        return reference.path.copy(alloc);
    }
    let mut path = Text::new(alloc);
    add_lead(&mut path, base)?;
    path.add(reference.path.as_str())?;
    Ok(path)
}

/// Adds the base's path up to its last slash.
fn add_lead(path: &mut Text, base: &Url) -> Result<(), NoMemory>
    ensures { OnOk result (path.new ≡ path.old ++ folder_of (lead_segments base.now)) }
{
    if base.host.is_some() && base.path.is_empty() {
        return path.push('/');
    }
    add_folder(path, &base.path)
}

fn add_folder(out: &mut Text, path: &Text) -> Result<(), NoMemory>
    ensures { OnOk result (out.new ≡ out.old ++ folder_of (all_but_last (segments path.now))) }
{
    if let Some((folder, _)) = path.as_str().rsplit_once('/') {
        out.add(folder)?;
        out.push('/')?;
    }
    Ok(())
}

fn begins_at_root(path: &Text) -> bool
    ensures { result ≡ begins_with is_slash path.now }
{
    begins_with_byte(path.as_str().as_bytes(), b'/')
}

/// Under a host an empty path is the root.
fn default_to_root(alloc: Global, path: Text, under_host: bool) -> Result<Text, NoMemory>
    ensures { IfOk result (λ root. root ≡ rooted under_host path) }
{
    if under_host && path.is_empty() {
        let mut root = Text::new(alloc);
        root.push('/')?;
        return Ok(root);
    }
    Ok(path)
}
