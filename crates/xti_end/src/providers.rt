//! What a provider offers.

ghost use Rattle.std.specs.Prelude.{◌≡◌, ◌≤◌, if◌then◌else◌};
ghost use Rattle.xti_base.specs.declared.limits.TheConstants.{MOST_CONNECT_DATA};
ghost use Rattle.xti_model.specs.Provider.{flags, has_connections, has_datagrams, has_release, has_release_data, info, is_stream, profile, release_limit, service};

use xti_base::limits::{MOST_ADDRESS, MOST_CONNECT_DATA, MOST_EXPEDITED_MESSAGE, MOST_OPTIONS};
use xti_base::{Info, Limit, Prov, ServType, T_ORDRELDATA, T_SENDZERO};
use xti_model::{Profile, Providers};

/// The provider's values.
pub fn profile(p: &Providers, prov: Prov) -> &Profile
    ensures { result.now ≡ profile p.now prov }
{
    match prov {
        Prov::Ticotsord => &p.ticotsord,
        Prov::Ticlts => &p.ticlts,
        Prov::Ticots | Prov::Other => &p.ticots,
    }
}

/// Whether the provider has datagrams.
pub fn has_datagrams(prov: Prov) -> bool
    ensures { result ≡ has_datagrams prov }
{
    match prov {
        Prov::Ticlts => true,
        Prov::Ticots | Prov::Ticotsord | Prov::Other => false,
    }
}

/// Whether the provider has connections.
pub fn has_connections(prov: Prov) -> bool
    ensures { result ≡ has_connections prov }
{
    !has_datagrams(prov)
}

/// Whether the provider has orderly release.
pub fn has_release(prov: Prov) -> bool
    ensures { result ≡ has_release prov }
{
    match prov {
        Prov::Ticotsord => true,
        Prov::Ticots | Prov::Ticlts | Prov::Other => false,
    }
}

/// Whether data may go with an orderly release of the provider (T_ORDRELDATA).
pub fn has_release_data(p: &Providers, prov: Prov) -> bool
    ensures { result ≡ has_release_data p.now prov }
{
    has_release(prov) && profile(p, prov).reldata
}

/// The most bytes of data that go with an orderly release of the provider.
pub fn release_limit(p: &Providers, prov: Prov) -> usize
    ensures limit { result ≡ release_limit p.now prov }
    ensures most { result ≤ MOST_CONNECT_DATA }
{
    if has_release_data(p, prov) {
        MOST_CONNECT_DATA
    } else {
        0
    }
}

/// Whether normal data are a stream of bytes, without ends.
pub fn is_stream(p: &Providers, prov: Prov) -> bool
    ensures { result ≡ is_stream p.now prov }
{
    match profile(p, prov).tsdu {
        Limit::At(bytes) => bytes == 0,
        Limit::Infinite | Limit::Invalid => false,
    }
}

/// The provider's service type.
fn service(prov: Prov) -> ServType
    ensures { result ≡ service prov }
{
    match prov {
        Prov::Ticots | Prov::Other => ServType::T_COTS,
        Prov::Ticotsord => ServType::T_COTS_ORD,
        Prov::Ticlts => ServType::T_CLTS,
    }
}

/// A limit of a provider of connections; another has no such thing.
fn with_connections(prov: Prov, most: u32) -> Limit
    ensures { result ≡ (if has_datagrams prov then Limit.Invalid else Limit.At most) }
{
    match prov {
        Prov::Ticots | Prov::Ticotsord | Prov::Other => Limit::At(most),
        Prov::Ticlts => Limit::Invalid,
    }
}

/// The flags of a provider: T_SENDZERO and T_ORDRELDATA, of what it has.
fn flags(p: &Providers, prov: Prov) -> u32
    ensures { result ≡ flags p.now prov }
{
    let empty_messages = if profile(p, prov).sendzero {
        T_SENDZERO
    } else {
        0
    };
    let release_data = if has_release_data(p, prov) {
        T_ORDRELDATA
    } else {
        0
    };
    empty_messages + release_data
}

/// What t_getinfo tells of a provider.
pub(crate) fn info(p: &Providers, prov: Prov) -> Info
    ensures { result ≡ info p.now prov }
{
    let profile = profile(p, prov);
    let data = with_connections(prov, MOST_CONNECT_DATA as u32);
    Info {
        addr: Limit::At(MOST_ADDRESS as u32),
        options: Limit::At(MOST_OPTIONS as u32),
        tsdu: profile.tsdu,
        etsdu: with_connections(prov, MOST_EXPEDITED_MESSAGE),
        connect: data,
        discon: data,
        servtype: service(prov),
        flags: flags(p, prov),
    }
}
