//! What a table of the head sets for its provider.

ghost use Rattle.std.specs.Prelude.{◌≡◌, option_map, string_bytes};
ghost use Rattle.std.specs.List.{list_all};
ghost use Rattle.std.specs.BTreeMap.{keys};
ghost use Rattle.toml.specs.Data.{get_member};
ghost use Rattle.toml.specs.View.{table_view, view};
ghost use Rattle.xti_head.specs.Head.{keys_pass, size_of, size_at, flag_at, limit_of, limit_at, has_same_addr, is_setting, profile_with, profile_in, profile_of};

use toml::{Table, Value};
use xti_base::limits::MOST_SIZE;
use xti_base::{Limit, Prov};
use xti_model::{Profile, Version};

/// The value of the key.
pub(crate) fn member_at<'a>(members: &'a Table, key: &str) -> Option<&'a Value>
    ensures { option_map (λ v. view v.now) result ≡ get_member key.now (table_view members.now) }
{
    members.get(key)
}

/// A number of bytes from 1 to `MOST_SIZE`.
fn size(number: i64) -> Option<u32>
    ensures { result ≡ size_of number }
{
    if 1 <= number && number <= MOST_SIZE as i64 {
        Some(number as u32)
    } else {
        None
    }
}

fn size_at(members: &Table, key: &str, usual: u32) -> Option<u32>
    ensures { result ≡ size_at key.now usual (table_view members.now) }
{
    match member_at(members, key) {
        Some(value) => size(value.as_integer()?),
        None => Some(usual),
    }
}

fn flag_at(members: &Table, key: &str, usual: bool) -> Option<bool>
    ensures { result ≡ flag_at key.now usual (table_view members.now) }
{
    match member_at(members, key) {
        Some(value) => value.as_bool(),
        None => Some(usual),
    }
}

/// The limit of messages that a number stands for: -1 for none, 0 for a stream.
fn limit(number: i64) -> Option<Limit>
    ensures { result ≡ limit_of number }
{
    match number {
        -1 => Some(Limit::Infinite),
        0 => Some(Limit::At(0)),
        _ => Some(Limit::At(size(number)?)),
    }
}

fn limit_at(members: &Table, usual: Limit) -> Option<Limit>
    ensures { result ≡ limit_at usual (table_view members.now) }
{
    match member_at(members, "tsdu") {
        Some(value) => limit(value.as_integer()?),
        None => Some(usual),
    }
}

fn has_same_addr(prov: Prov) -> bool
    ensures { result ≡ has_same_addr prov }
{
    prov != Prov::Ticlts
}

fn is_setting(version: Version, prov: Prov, key: &str) -> bool
    ensures { result ≡ is_setting version prov key.now }
{
    match key {
        "tsdu" | "sendzero" | "sndbuf" | "rcvbuf" => true,
        "same_addr" => has_same_addr(prov),
        "reldata" => version.tells_reldata(prov),
        _ => false,
    }
}

fn all_settings(version: Version, prov: Prov, members: &Table) -> bool
    ensures { result ≡ list_all (λ k. is_setting version prov (string_bytes k)) (keys members.now) }
{
    members
        .keys()
        .all(|key| is_setting(version, prov, key.as_str()))
}

fn sets_only(version: Version, prov: Prov, members: &Table) -> bool
    ensures { result ≡ keys_pass (is_setting version prov) (table_view members.now) }
{
    all_settings(version, prov, members)
}

#[tactic(auto, unfolding(crate::specs::Head::profile_with))]
fn profile_with(
    tsdu: Option<Limit>,
    sendzero: Option<bool>,
    same_addr: Option<bool>,
    sndbuf: Option<u32>,
    rcvbuf: Option<u32>,
    reldata: Option<bool>,
) -> Option<Profile>
    ensures { result ≡ profile_with tsdu sendzero same_addr sndbuf rcvbuf reldata }
{
    Some(Profile {
        tsdu: tsdu?,
        sendzero: sendzero?,
        same_addr: same_addr?,
        sndbuf: sndbuf?,
        rcvbuf: rcvbuf?,
        reldata: reldata?,
    })
}

fn profile_in(version: Version, prov: Prov, usual: &Profile, members: &Table) -> Option<Profile>
    ensures { result ≡ profile_in version prov usual.now (table_view members.now) }
{
    if !sets_only(version, prov, members) {
        return None;
    }
    profile_with(
        limit_at(members, usual.tsdu),
        flag_at(members, "sendzero", usual.sendzero),
        flag_at(members, "same_addr", usual.same_addr),
        size_at(members, "sndbuf", usual.sndbuf),
        size_at(members, "rcvbuf", usual.rcvbuf),
        flag_at(members, "reldata", usual.reldata),
    )
}

/// The values of the provider in this version, over the usual ones, whose table this is; `None` where the table is wrong.
#[tactic(auto, unfolding(crate::specs::Head::profile_of))]
pub(crate) fn profile_of(
    version: Version,
    prov: Prov,
    usual: &Profile,
    table: Option<&Value>,
) -> Option<Profile>
    ensures { result
        ≡ profile_of version prov usual.now (option_map (λ v. view v.now) table.entry) }
{
    match table {
        None => Some(*usual),
        Some(table) => profile_in(version, prov, usual, table.as_table()?),
    }
}
