//! What a provider tells of itself.

use crate::kinds::ServType;

/// A message may be empty (XNS, `flags` of t_info).
pub const T_SENDZERO: u32 = 1;

/// Data may go with an orderly release (XNS, `flags` of t_info).
pub const T_ORDRELDATA: u32 = 2;

/// A limit of a provider, in bytes (XNS, t_info).
#[derive(Clone, Copy, Debug, PartialEq, Eq)]
pub enum Limit {
    /// At most so many bytes.
    At(u32),
    /// No limit, T_INFINITE.
    Infinite,
    /// The provider doesn't have this, T_INVALID.
    Invalid,
}

impl Limit {
    ghost use Rattle.std.specs.Prelude.{◌≡◌};
    ghost use Rattle.xti_base.specs.Limit.{limit_number};

    /// The signed number that t_info has: the limit, -1 for T_INFINITE, -2 for T_INVALID.
    pub fn number(self) -> i64
        ensures { result ≡ limit_number self }
    {
        match self {
            Limit::At(n) => n as i64,
            Limit::Infinite => -1,
            Limit::Invalid => -2,
        }
    }
}

/// What t_getinfo answers: the provider's limits, service type and flags (XNS, t_info).
#[derive(Clone, Copy, Debug, PartialEq, Eq)]
pub struct Info {
    /// The most bytes of an address.
    pub addr: Limit,
    /// The most bytes of options.
    pub options: Limit,
    /// The most bytes of a message; 0 for a stream of bytes.
    pub tsdu: Limit,
    /// The most bytes of an expedited message.
    pub etsdu: Limit,
    /// The most bytes of data with a request or a confirmation.
    pub connect: Limit,
    /// The most bytes of data with a disconnect.
    pub discon: Limit,
    /// The service type.
    pub servtype: ServType,
    /// The sum of T_SENDZERO and T_ORDRELDATA, where the provider has them.
    pub flags: u32,
}
