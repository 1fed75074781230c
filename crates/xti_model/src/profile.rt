//! What a script's head may set for each provider.

ghost use Rattle.std.specs.Prelude.{◌≡◌, ◌≤◌, ◌<◌, true, IfOk, IfErr};
ghost use Rattle.std.specs.declared.option.Option.TheVariants.{Some};
ghost use Rattle.xti_base.specs.declared.limits.TheConstants.{MOST_PLACES};
ghost use Rattle.xti_model.specs.Profile.{usual, usual_two, usual_of, has_release_data, tells_reldata, is_size, has_limit, has_messages, is_stream_limit, has_buffers, valid_connections, valid_orderly, valid_datagrams, valid, first_wrong};
ghost use Rattle.xti_model.specs.World.{places, last_generation, place_of, generation_of, descriptor};

use thiserror::Error;
use xti_base::limits::{
    DESCRIPTORS, MOST_PLACES, MOST_SIZE, PLACES_ONE, USUAL_BUFFER, USUAL_DATAGRAM,
};
use xti_base::{Fd, Limit, Prov};

/// The version of scripts and journals, by which there are more or fewer endpoints.
#[derive(Clone, Copy, Debug, PartialEq, Eq)]
pub enum Version {
    /// 64 endpoints. No text sets or has data with a release.
    One,
    /// 256 endpoints, and data may go with a release of `ticotsord`.
    Two,
}

impl Version {
    /// Whether scripts and journals of this version have t_sndreldata and t_rcvreldata.
    pub fn has_release_data(self) -> bool
        ensures { result ≡ has_release_data self }
    {
        self == Version::Two
    }

    /// Whether heads of this version say of the provider whether data may go with a release.
    pub fn tells_reldata(self, prov: Prov) -> bool
        ensures { result ≡ tells_reldata self prov }
    {
        prov == Prov::Ticotsord && self.has_release_data()
    }
}

/// The values of a provider that a script's head may set.
#[derive(Clone, Copy, Debug, PartialEq, Eq)]
pub struct Profile {
    /// The most bytes of a message; 0 for a stream of bytes without ends.
    pub tsdu: Limit,
    /// Whether a message may be empty, T_SENDZERO.
    pub sendzero: bool,
    /// Whether an accepting endpoint must have the listener's address.
    pub same_addr: bool,
    /// The send size of a new endpoint, in bytes.
    pub sndbuf: u32,
    /// The receive size of a new endpoint, in bytes.
    pub rcvbuf: u32,
    /// Whether data may go with an orderly release, T_ORDRELDATA. It counts for `ticotsord` alone.
    pub reldata: bool,
}

/// The values of the three loopback providers, and the version, which says how many endpoints they have.
#[derive(Clone, Copy, Debug, PartialEq, Eq)]
pub struct Providers {
    /// How many endpoints there may be, and the form of a text that has these providers.
    pub version: Version,
    /// Connections, T_COTS.
    pub ticots: Profile,
    /// Connections with orderly release, T_COTS_ORD.
    pub ticotsord: Profile,
    /// Datagrams, T_CLTS.
    pub ticlts: Profile,
}

/// No script may set these values of the provider (`Providers::valid`).
#[derive(Clone, Copy, Debug, PartialEq, Eq, Error)]
#[error("the values of {prov:?} are not valid")]
pub struct WrongValues {
    /// The provider.
    pub prov: Prov,
}

/// Whether a message or a buffer may have so many bytes.
fn is_size(bytes: u32) -> bool
    ensures { result ≡ is_size bytes }
{
    1 <= bytes && bytes <= MOST_SIZE
}

/// Whether messages have ends, and a limit.
fn has_limit(tsdu: Limit) -> bool
    ensures { result ≡ has_limit tsdu }
{
    match tsdu {
        Limit::At(bytes) => is_size(bytes),
        Limit::Infinite | Limit::Invalid => false,
    }
}

/// Whether messages have ends, with a limit or without.
fn has_messages(tsdu: Limit) -> bool
    ensures { result ≡ has_messages tsdu }
{
    match tsdu {
        Limit::Infinite => true,
        Limit::At(_) | Limit::Invalid => has_limit(tsdu),
    }
}

/// Whether bytes are sent without ends.
fn is_stream(tsdu: Limit) -> bool
    ensures { result ≡ is_stream_limit tsdu }
{
    match tsdu {
        Limit::At(bytes) => bytes == 0,
        Limit::Infinite | Limit::Invalid => false,
    }
}

impl Profile {
    fn has_buffers(&self) -> bool
        ensures { result ≡ has_buffers self.now }
    {
        is_size(self.sndbuf) && is_size(self.rcvbuf)
    }

    fn valid_connections(&self) -> bool
        ensures { result ≡ valid_connections self.now }
    {
        self.has_buffers() && has_messages(self.tsdu)
    }

    fn valid_orderly(&self) -> bool
        ensures { result ≡ valid_orderly self.now }
    {
        self.has_buffers() && (has_messages(self.tsdu) || (is_stream(self.tsdu) && !self.sendzero))
    }

    fn valid_datagrams(&self) -> bool
        ensures { result ≡ valid_datagrams self.now }
    {
        self.has_buffers() && has_limit(self.tsdu) && !self.same_addr
    }
}

impl Providers {
    /// The starting values in version 1, which are valid.
    pub fn usual() -> Providers
        ensures values { result ≡ usual }
        ensures valid { valid result ≡ true }
    {
        Providers::usual_of(Version::One)
    }

    /// The starting values in version 2, which are valid.
    pub fn usual_two() -> Providers
        ensures values { result ≡ usual_two }
        ensures valid { valid result ≡ true }
    {
        Providers::usual_of(Version::Two)
    }

    /// The starting values in a version, which are valid.
    pub fn usual_of(version: Version) -> Providers
        ensures values { result ≡ usual_of version }
        ensures valid { valid result ≡ true }
    {
        let plain = Profile {
            tsdu: Limit::At(MOST_SIZE),
            sendzero: true,
            same_addr: false,
            sndbuf: USUAL_BUFFER,
            rcvbuf: USUAL_BUFFER,
            reldata: false,
        };
        Providers {
            version,
            ticots: plain,
            ticotsord: Profile {
                tsdu: Limit::At(0),
                sendzero: false,
                ..plain
            },
            ticlts: Profile {
                tsdu: Limit::At(USUAL_DATAGRAM),
                ..plain
            },
        }
    }

    /// Whether a script may set these values. The message size is 1 to `MOST_SIZE` bytes; for connections it may also be
    /// without a limit, and for `ticotsord` 0 bytes, and then no message may be empty. `same_addr` is for
    /// connections only. Each buffer has 1 to `MOST_SIZE` bytes. Takes no memory.
    pub fn valid(&self) -> bool
        ensures { result ≡ valid self.now }
    {
        self.ticots.valid_connections()
            && self.ticotsord.valid_orderly()
            && self.ticlts.valid_datagrams()
    }

    /// These values, where they are valid; else which provider's aren't, the first in the order `ticots`, `ticotsord`, `ticlts`.
    /// Who wants other sizes sets them in the usual values, and ends with this.
    pub fn checked(self) -> Result<Providers, WrongValues>
        ensures ok { IfOk result (λ p. (p ≡ self) × (valid p ≡ true)) }
        ensures err { IfErr result (λ wrong. first_wrong self ≡ Some wrong.prov) }
    {
        let prov = if !self.ticots.valid_connections() {
            Prov::Ticots
        } else if !self.ticotsord.valid_orderly() {
            Prov::Ticotsord
        } else if !self.ticlts.valid_datagrams() {
            Prov::Ticlts
        } else {
            return Ok(self);
        };
        Err(WrongValues { prov })
    }

    /// How many places of endpoints there are: 64 in version 1, and 256 in version 2.
    pub fn places(&self) -> u32
        ensures places { result ≡ places self.now }
        ensures some { 1 < result }
        ensures most { result ≤ MOST_PLACES }
    {
        match self.version {
            Version::One => PLACES_ONE as u32,
            Version::Two => MOST_PLACES as u32,
        }
    }

    /// The generation of a place that isn't opened again, so that no endpoint ever has the greatest descriptor.
    pub fn last_generation(&self) -> u32
        ensures { result ≡ last_generation self.now }
    {
        match self.version {
            Version::One => (DESCRIPTORS / PLACES_ONE as u64 - 1) as u32,
            Version::Two => (DESCRIPTORS / MOST_PLACES as u64 - 1) as u32,
        }
    }

    /// The place of a descriptor, which is the number of its cell.
    pub fn place_of(&self, fd: Fd) -> u32
        ensures place { result ≡ place_of self.now fd.0 }
        ensures bound { result < places self.now }
    {
        match self.version {
            Version::One => fd.0 % PLACES_ONE as u32,
            Version::Two => fd.0 % MOST_PLACES as u32,
        }
    }

    /// The generation of its place for which a descriptor stands.
    pub fn generation_of(&self, fd: Fd) -> u32
        ensures { result ≡ generation_of self.now fd.0 }
    {
        match self.version {
            Version::One => fd.0 / PLACES_ONE as u32,
            Version::Two => fd.0 / MOST_PLACES as u32,
        }
    }

    /// The number of the switch's cell, which comes after those of the places.
    pub fn switch_number(&self) -> u32
        ensures { result ≡ places self.now }
    {
        self.places()
    }
}
