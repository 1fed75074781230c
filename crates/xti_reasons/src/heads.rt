//! Why the head of a script is refused.

use crate::bounded::Reason;
use crate::places::ends_line;
use crate::profiles::{wanted_setting, wrong_value};
use std::alloc::Global;
use toml::{Table, Value};
use xti_base::Prov;
use xti_model::Version;
use xti_words::is_ascii;

/// The head that ends at the first line `+++` of the text.
fn head_in(text: &[u8]) -> Option<&[u8]> {
    let mut at = 0usize;
    for line in text.split(ends_line) {
        if line == b"+++".as_slice() {
            return text.get(..at);
        }
        at = at.saturating_add(line.len()).saturating_add(1);
    }
    None
}

/// The number of the line of a script in which this place of its head is.
fn line_at(head: &[u8], place: usize) -> u64 {
    let mut line = 3u64;
    for c in head.iter().take(place) {
        if *c == b'\n' {
            line = line.saturating_add(1);
        }
    }
    line
}

fn no_toml(head: &[u8], error: &toml::de::Error, reason: &mut Reason) {
    reason.put("no TOML");
    if let Some(span) = error.span() {
        reason.put(" at line ");
        reason.put_number(line_at(head, span.start));
    }
    reason.put(": ");
    reason.put(error.message());
}

/// Says that no key or table has this name, and which there are.
fn unknown(what: &str, name: &str, expected: &str, reason: &mut Reason) {
    reason.put("unknown ");
    reason.put(what);
    reason.put_quoted(name.as_bytes());
    reason.put(", expected ");
    reason.put(expected);
}

/// What is expected of the value of a key, where it isn't that; nothing where the key is unknown, either.
fn wanted_of(prov: Prov, key: &str, value: &Value) -> Option<&'static str> {
    let is_truth = matches!(key, "sendzero" | "same_addr" | "reldata");
    match value.as_integer() {
        _ if is_truth && value.as_bool().is_none() => Some("true or false"),
        _ if is_truth => None,
        Some(number) => wanted_setting(prov, key.as_bytes(), number, 1),
        None => Some("a number"),
    }
}

fn is_key(version: Version, prov: Prov, key: &str) -> bool {
    match key {
        "tsdu" | "sendzero" | "sndbuf" | "rcvbuf" => true,
        "same_addr" => prov != Prov::Ticlts,
        "reldata" => version.tells_reldata(prov),
        _ => false,
    }
}

/// The keys of the provider's table in heads of the version.
fn keys_of(version: Version, prov: Prov) -> &'static str {
    if prov == Prov::Ticlts {
        "tsdu, sendzero, sndbuf or rcvbuf"
    } else if version.tells_reldata(prov) {
        "tsdu, sendzero, same_addr, sndbuf, rcvbuf or reldata"
    } else {
        "tsdu, sendzero, same_addr, sndbuf or rcvbuf"
    }
}

/// Whether messages of this provider would be empty without having ends.
fn has_empty_without_ends(prov: Prov, members: &Table) -> bool {
    let has_ends = match members.get("tsdu") {
        Some(value) => value.as_integer() != Some(0),
        None => prov != Prov::Ticotsord,
    };
    match members.get("sendzero") {
        Some(value) => !has_ends && value.as_bool() == Some(true),
        None => false,
    }
}

/// Says what is wrong in a provider's table; whether something is.
fn wrong_table(version: Version, prov: Prov, members: &Table, reason: &mut Reason) -> bool {
    for (key, value) in members {
        let key = key.as_str();
        if !is_key(version, prov, key) {
            reason.about(prov.name().as_bytes());
            unknown("key ", key, keys_of(version, prov), reason);
            return true;
        }
        if let Some(wanted) = wanted_of(prov, key, value) {
            wrong_value(prov, key.as_bytes(), wanted, reason);
            return true;
        }
    }
    let is_wrong = has_empty_without_ends(prov, members);
    if is_wrong {
        wrong_value(prov, b"sendzero", "no empty messages, as tsdu is 0", reason);
    }
    is_wrong
}

/// Says what is wrong in the tables of a head.
fn wrong_tables(version: Version, tables: &Table, reason: &mut Reason) {
    for (name, value) in tables {
        let name = name.as_str();
        let prov = Prov::of_name(name.as_bytes());
        if prov == Prov::Other {
            unknown("table ", name, "ticots, ticotsord or ticlts", reason);
            return;
        }
        let Some(members) = value.as_table() else {
            reason.about(name.as_bytes());
            reason.put("expected a table");
            return;
        };
        if wrong_table(version, prov, members, reason) {
            return;
        }
    }
}

fn read_tables(alloc: Global, version: Version, head: &[u8], reason: &mut Reason) {
    let text = str::from_utf8(head).unwrap_or("");
    match toml::table_from_str(alloc, text) {
        Ok(tables) => wrong_tables(version, &tables, reason),
        Err(error) if error.is_memory() => reason.run_out(),
        Err(error) => no_toml(head, &error, reason),
    }
}

/// Says why the head is refused that begins this text, in a script of the version.
pub(crate) fn find_out(alloc: Global, version: Version, text: &[u8], reason: &mut Reason) {
    reason.about(b"head");
    match head_in(text) {
        None => reason.put("there is no second line +++"),
        Some(head) if !is_ascii(head) => reason.put("a byte is not ASCII"),
        Some(head) => read_tables(alloc, version, head, reason),
    }
}
