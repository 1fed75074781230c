//! Reading a head.

ghost use Rattle.std.specs.Prelude.{◌≡◌, Some, None, IfOk, IsErrOf, string_bytes};
ghost use Rattle.std.specs.List.{list_all};
ghost use Rattle.std.specs.BTreeMap.{keys};
ghost use Rattle.toml.specs.View.{table_view};
ghost use Rattle.toml.specs.Parse.{parse_document};
ghost use Rattle.xti_head.specs.Head.{is_provider, keys_pass, profile_at, set_over, valid_only, providers_of, head_of};

use crate::settings::{member_at, profile_of};
use std::alloc::Global;
use thiserror::Error;
use toml::Table;
use xti_base::Prov;
use xti_model::{Profile, Providers, Version};
use xti_words::is_ascii;

/// Why a head was not read.
#[derive(Clone, Copy, Debug, PartialEq, Eq, Error)]
pub enum HeadFail {
    /// The text is no head.
    #[error("the text is no head")]
    Bad,
    /// Out of memory.
    #[error("out of memory")]
    OutOfMemory,
}

fn is_provider(key: &str) -> bool
    ensures { result ≡ is_provider key.now }
{
    matches!(key, "ticots" | "ticotsord" | "ticlts")
}

fn all_providers(tables: &Table) -> bool
    ensures { result ≡ list_all (λ k. is_provider (string_bytes k)) (keys tables.now) }
{
    tables.keys().all(|key| is_provider(key.as_str()))
}

fn names_only(tables: &Table) -> bool
    ensures { result ≡ keys_pass is_provider (table_view tables.now) }
{
    all_providers(tables)
}

fn profile_at(version: Version, tables: &Table, prov: Prov, usual: &Profile) -> Option<Profile>
    ensures { result ≡ profile_at version (table_view tables.now) prov usual.now }
{
    profile_of(version, prov, usual, member_at(tables, prov.name()))
}

/// The values that the tables set, over the usual ones.
fn set_over(usual: &Providers, tables: &Table) -> Option<Providers>
    ensures { result ≡ set_over usual.now (table_view tables.now) }
{
    let version = usual.version;
    Some(Providers {
        version,
        ticots: profile_at(version, tables, Prov::Ticots, &usual.ticots)?,
        ticotsord: profile_at(version, tables, Prov::Ticotsord, &usual.ticotsord)?,
        ticlts: profile_at(version, tables, Prov::Ticlts, &usual.ticlts)?,
    })
}

fn valid_only(providers: Providers) -> Option<Providers>
    ensures { result ≡ valid_only providers }
{
    if providers.valid() {
        Some(providers)
    } else {
        None
    }
}

#[tactic(auto, unfolding(crate::specs::Head::providers_of))]
fn providers_of(version: Version, tables: &Table) -> Option<Providers>
    ensures { result ≡ providers_of version (table_view tables.now) }
{
    if !names_only(tables) {
        return None;
    }
    valid_only(set_over(&Providers::usual_of(version), tables)?)
}

fn read_tables(alloc: Global, text: &str) -> Result<Table, HeadFail>
    ensures found { IfOk result (λ tables. parse_document text.now ≡ Some (table_view tables)) }
    ensures bad { IsErrOf result HeadFail.Bad → parse_document text.now ≡ None }
{
    match toml::table_from_str(alloc, text) {
        Ok(tables) => Ok(tables),
        Err(error) if error.is_memory() => Err(HeadFail::OutOfMemory),
        Err(_) => Err(HeadFail::Bad),
    }
}

/// The providers that the text of a head gives in a script of the version. It is TOML in ASCII with a table for each provider
/// that it sets; what it leaves out has its usual value.
///
/// Errors: `Bad` where the text gives none; `OutOfMemory` where memory runs out.
#[tactic(auto, unfolding(crate::specs::Head::head_of))]
pub fn read_head(alloc: Global, version: Version, text: &[u8]) -> Result<Providers, HeadFail>
    ensures found { IfOk result (λ p. head_of version text.now ≡ Some p) }
    ensures bad { IsErrOf result HeadFail.Bad → head_of version text.now ≡ None }
{
    if !is_ascii(text) {
        return Err(HeadFail::Bad);
    }
    let Ok(text) = str::from_utf8(text) else {
        return Err(HeadFail::Bad);
    };
    let tables = read_tables(alloc, text)?;
    providers_of(version, &tables).ok_or(HeadFail::Bad)
}
