//! From bytes to a network profile.
ghost use Rattle.std.specs.Prelude.{◌≡◌, ◌≤◌, ℕ, option_map, IfOk, IfSome};
ghost use Rattle.std.specs.List.{list_all};
ghost use Rattle.toml.specs.Data.{get_member};
ghost use Rattle.toml.specs.View.{view, array_view, table_view};
ghost use Rattle.dg_netcfg.specs.Document.{keys_of, integer_at, array_at, number_in_range};
ghost use Rattle.dg_netcfg.specs.Profile.{is_key, profile_fields, netprofile};
ghost use Rattle.dg_netcfg.specs.inner.Steps.{with_fields};
ghost use Rattle.dg_netcfg.specs.Readings.{ReadsNetProfile, IsProfileReading, IsAllowed};

use crate::links::read_links;
use crate::profile::{LEAST_PORT, NetProfile, ProfileFault};
use dg_base::{GREATEST_PORT, MOST_MOTES, Pairs};
use std::alloc::Global;
use toml::value::Array;
use toml::{Table, Value};

/// The profile that bytes encode as a document of TOML 1.1, or the first cause why they encode no profile.
///
/// The document has exactly the keys `motes`, from 1 to 16, `port`, from 1,024 to 65,500, and `links`, an array of
/// arrays of two motes, which are numbered from 0.
pub fn read_profile(alloc: Global, bytes: &[u8]) -> Result<NetProfile, ProfileFault>
    ensures value { ReadsNetProfile result (netprofile bytes.now) }
    ensures reading { IsProfileReading bytes.now result }
    ensures allowed { IfOk result IsAllowed }
{
    match toml::table_from_slice(alloc, bytes) {
        Ok(table) => profile_of(alloc, &table),
        Err(fault) if fault.is_memory() => Err(ProfileFault::Memory),
        Err(_) => Err(ProfileFault::NotToml),
    }
}

/// The profile that a document describes.
fn profile_of(alloc: Global, document: &Table) -> Result<NetProfile, ProfileFault>
    ensures { ReadsNetProfile result (with_fields (profile_fields (table_view document.now))) }
{
    let Some((motes, port, entries)) = profile_fields(document) else {
        return Err(ProfileFault::Key);
    };
    let Some(motes) = number_in_range(motes, 1, u16::from(MOST_MOTES)) else {
        return Err(ProfileFault::Id);
    };
    let motes = motes as u8;
    let Some(links) = read_links(alloc, motes, entries)? else {
        return Err(ProfileFault::Link);
    };
    let Some(port) = number_in_range(port, LEAST_PORT, GREATEST_PORT) else {
        return Err(ProfileFault::Port);
    };
    Ok(NetProfile {
        motes,
        port,
        links: Pairs::new(links),
    })
}

/// The values of the three keys, if there are no other keys and each value has its type.
fn profile_fields(document: &Table) -> Option<(i64, i64, &Array)>
    ensures { option_map (λ f. (f.0, f.1, array_view f.2.now)) result ≡ profile_fields (table_view document.now) }
{
    if !has_known_keys(document) {
        return None;
    }
    let motes = integer_at(document, "motes")?;
    let port = integer_at(document, "port")?;
    let entries = array_at(document, "links")?;
    Some((motes, port, entries))
}

fn has_known_keys(document: &Table) -> bool
    ensures { result ≡ list_all is_key (keys_of (table_view document.now)) }
{
    for key in document.keys() {
        if !is_key(key.as_str()) {
            return false;
        }
    }
    true
}

fn is_key(key: &str) -> bool
    ensures { result ≡ is_key key.now }
{
    key == "motes" || key == "port" || key == "links"
}

fn value_at<'a>(document: &'a Table, key: &str) -> Option<&'a Value>
    ensures { option_map (λ v. view v.now) result ≡ get_member key.now (table_view document.now) }
{
    document.get(key)
}

fn integer_at(document: &Table, key: &str) -> Option<i64>
    ensures { result ≡ integer_at key.now (table_view document.now) }
{
    value_at(document, key)?.as_integer()
}

fn array_at<'a>(document: &'a Table, key: &str) -> Option<&'a Array>
    ensures { option_map (λ a. array_view a.now) result ≡ array_at key.now (table_view document.now) }
{
    value_at(document, key)?.as_array()
}

/// A whole number, if it is in a range.
pub(crate) fn number_in_range(number: i64, least: u16, most: u16) -> Option<u16>
    ensures value { result ≡ number_in_range least most number }
    ensures bound { IfSome result (λ n. n ≤ most) }
{
    match u16::try_from(number) {
        Ok(number) if least <= number && number <= most => Some(number),
        _ => None,
    }
}
