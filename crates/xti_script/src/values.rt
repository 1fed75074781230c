//! The values of fields, each written after the text that separates it from the word before.

ghost use Rattle.std.specs.Prelude.{◌≡◌, ◌++◌, OnOk, option_map};
ghost use Rattle.xti_base.specs.Kinds.{prov_name};
ghost use Rattle.xti_script.specs.Canonical.{bytes_text, mode_text, name_or_none_text, parts_text, sizes_text};

use std::alloc::AllocError;
use xti_base::{Octets, Prov};
use xti_model::Name;
use xti_words::{put_number, put_octets, put_text};

pub(crate) fn put_name(out: &mut Vec<u8>, key: &str, name: &Name) -> Result<(), AllocError>
    ensures { OnOk result (out.new.items ≡ out.old.items ++ key.now ++ name.now) }
{
    put_text(out, key).and(out.extend_from_slice(name.as_slice()))
}

// The name, or `-` for none.
pub(crate) fn put_name_or_none(
    out: &mut Vec<u8>,
    key: &str,
    name: &Option<Name>,
) -> Result<(), AllocError>
    ensures { OnOk result (out.new.items ≡ out.old.items ++ key.now ++ name_or_none_text name.now) }
{
    put_text(out, key)?;
    match name {
        Some(name) => out.extend_from_slice(name.as_slice()),
        None => put_text(out, "-"),
    }
}

pub(crate) fn put_provider(out: &mut Vec<u8>, key: &str, prov: Prov) -> Result<(), AllocError>
    ensures { OnOk result (out.new.items ≡ out.old.items ++ key.now ++ prov_name prov) }
{
    put_text(out, key).and(put_text(out, prov.name()))
}

pub(crate) fn put_mode(out: &mut Vec<u8>, key: &str, nonblock: bool) -> Result<(), AllocError>
    ensures { OnOk result (out.new.items ≡ out.old.items ++ key.now ++ mode_text nonblock) }
{
    put_text(out, key).and(put_text(out, if nonblock { "nonblock" } else { "block" }))
}

pub(crate) fn put_bytes(out: &mut Vec<u8>, key: &str, bytes: &Octets) -> Result<(), AllocError>
    ensures { OnOk result (out.new.items ≡ out.old.items ++ key.now ++ bytes_text bytes.now) }
{
    put_octets(out, key, bytes.as_slice())
}

// Byte words, separated by commas.
pub(crate) fn put_parts(out: &mut Vec<u8>, key: &str, parts: &[Octets]) -> Result<(), AllocError>
    ensures { OnOk result (out.new.items ≡ out.old.items ++ key.now ++ parts_text parts.now) }
{
    match parts.split_first() {
        None => put_text(out, key),
        Some((first, others)) => {
            put_bytes(out, key, first)?;
            for part in others {
                put_bytes(out, ",", part)?;
            }
            Ok(())
        }
    }
}

// Numbers, separated by commas.
pub(crate) fn put_sizes(out: &mut Vec<u8>, key: &str, sizes: &[u32]) -> Result<(), AllocError>
    ensures { OnOk result (out.new.items ≡ out.old.items ++ key.now ++ sizes_text sizes.now) }
{
    match sizes.split_first() {
        None => put_text(out, key),
        Some((first, others)) => {
            put_number(out, key, *first as u64)?;
            for size in others {
                put_number(out, ",", *size as u64)?;
            }
            Ok(())
        }
    }
}
