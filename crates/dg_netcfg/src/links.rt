//! The links of a network profile.
ghost use Rattle.std.specs.Prelude.{◌≡◌, ◌≤◌, ◌<◌, map, option_map, IfOk, IfSome};
ghost use Rattle.std.specs.List.{list_any};
ghost use Rattle.toml.specs.View.{view, items_view, array_view};
ghost use Rattle.dg_netcfg.specs.Document.{all_of, list_of};
ghost use Rattle.dg_netcfg.specs.Profile.{profile_mote, profile_link, is_same_link, has_repeat, links_of};

use crate::reading::number_in_range;
use std::alloc::{AllocError, Global};
use toml::Value;
use toml::value::Array;

/// The links that entries describe, or None if an entry is not a link or a link repeats.
pub(crate) fn read_links(
    alloc: Global,
    motes: u8,
    entries: &Array,
) -> Result<Option<Vec<(u8, u8)>>, AllocError>
    requires { 1 ≤ motes }
    ensures { IfOk result (λ r. option_map (λ v. v.items) r ≡ links_of motes (array_view entries.now)) }
{
    let Some(links) = links_in(alloc, motes, entries)? else {
        return Ok(None);
    };
    if has_repeat(&links) {
        return Ok(None);
    }
    Ok(Some(links))
}

/// The links that entries describe, also if they repeat.
fn links_in(
    alloc: Global,
    motes: u8,
    entries: &[Value],
) -> Result<Option<Vec<(u8, u8)>>, AllocError>
    requires { 1 ≤ motes }
    ensures { IfOk result (λ r. option_map (λ v. v.items) r
        ≡ all_of (map (profile_link motes) (list_of (items_view entries.now)))) }
{
    let mut links = Vec::new(alloc);
    for entry in entries {
        let Some(link) = profile_link(motes, entry) else {
            return Ok(None);
        };
        links.push(link)?;
    }
    Ok(Some(links))
}

/// The link that an entry describes.
fn profile_link(motes: u8, entry: &Value) -> Option<(u8, u8)>
    requires { 1 ≤ motes }
    ensures { result ≡ profile_link motes (view entry.now) }
{
    let [a, b] = entry.as_array()?.as_slice() else {
        return None;
    };
    let a = profile_mote(motes, a)?;
    let b = profile_mote(motes, b)?;
    if a == b { None } else { Some((a, b)) }
}

/// The number of a mote.
fn profile_mote(motes: u8, value: &Value) -> Option<u8>
    requires { 1 ≤ motes }
    ensures { result ≡ profile_mote motes (view value.now) }
{
    let number = number_in_range(value.as_integer()?, 0, u16::from(motes - 1))?;
    Some(number as u8)
}

/// Whether two of the links join the same motes, in either order.
fn has_repeat(links: &[(u8, u8)]) -> bool
    ensures { result ≡ has_repeat links.now }
{
    let mut rest = links;
    while let Some((link, others)) = rest.split_first() {
        if is_among(link, others) {
            return true;
        }
        rest = others;
    }
    false
}

/// Whether one of the links joins the same motes as this one.
fn is_among(link: &(u8, u8), links: &[(u8, u8)]) -> bool
    ensures { result ≡ list_any (is_same_link link.now) links.now }
{
    links.iter().any(|other| is_same_link(link, other))
}

/// Whether two links join the same motes, in either order.
fn is_same_link(link: &(u8, u8), other: &(u8, u8)) -> bool
    ensures { result ≡ is_same_link link.now other.now }
{
    (link.0 == other.0 && link.1 == other.1) || (link.0 == other.1 && link.1 == other.0)
}
