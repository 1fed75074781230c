//! The buffers of the structures that XTI's calls take.

ghost use Rattle.std.specs.Prelude.{◌≡◌, true, false, replicate, IfOk, Err, MatchResult};
ghost use Rattle.xti_base.specs.Structures.{is_refused, IsAt, AreAt, size, bufs, buffers};
ghost use Rattle.xti_base.specs.declared.structures.AllocFail.TheVariants.{NoStructType, OutOfMemory};

use crate::{Info, Limit, Octets, ServType};
use std::alloc::{AllocError, Global};
use thiserror::Error;

/// A structure of XTI (XNS, t_alloc).
#[derive(Clone, Copy, Debug, PartialEq, Eq)]
pub enum StructKind {
    /// T_BIND: an address and a queue length.
    Bind,
    /// T_OPTMGMT: options.
    OptMgmt,
    /// T_CALL: address, options and data of a connection.
    Call,
    /// T_DIS: data of a disconnect.
    Dis,
    /// T_UNITDATA: address, options and data of a datagram.
    UnitData,
    /// T_UDERROR: address and options of a datagram that was not delivered.
    UdError,
    /// T_INFO: no buffers.
    Info,
}

/// The buffers of a structure; one that it doesn't have is empty.
#[derive(Debug, Drop)]
pub struct Bufs {
    /// The address.
    pub addr: Octets,
    /// The options.
    pub opt: Octets,
    /// The data.
    pub udata: Octets,
}

/// Why a structure wasn't made.
#[derive(Clone, Copy, Debug, PartialEq, Eq, Error)]
pub enum AllocFail {
    /// TNOSTRUCTYPE: the provider's service doesn't have this structure.
    #[error("the provider does not have this structure")]
    NoStructType,
    /// Out of memory.
    #[error("out of memory")]
    OutOfMemory,
}

impl From<AllocError> for AllocFail {
    ghost use Rattle.xti_base.specs.declared.structures.AllocFail.TheVariants.{OutOfMemory};

    ghost from_gives = { λ _ e. e ≡ OutOfMemory };

    fn from(_error: AllocError) -> AllocFail {
        AllocFail::OutOfMemory
    }
}

impl StructKind {
    /// Whether a service doesn't have the structure.
    fn is_refused(self, service: ServType) -> bool
        ensures { result ≡ is_refused service self }
    {
        match service {
            ServType::T_CLTS => matches!(self, StructKind::Call | StructKind::Dis),
            ServType::T_COTS | ServType::T_COTS_ORD => {
                matches!(self, StructKind::UnitData | StructKind::UdError)
            }
        }
    }
}

/// The number of bytes of a limit.
fn size(limit: Limit) -> u32
    requires { IsAt limit }
    ensures { result ≡ size limit }
{
    match limit {
        Limit::At(bytes) => bytes,
        Limit::Infinite | Limit::Invalid => unreachable!(),
    }
}

/// How many bytes of address, options and data a structure has.
fn sizes(info: &Info, kind: StructKind) -> (u32, u32, u32)
    requires { AreAt info.now kind }
    ensures { buffers info.now kind ≡ bufs result.0 result.1 result.2 }
{
    match kind {
        StructKind::Bind => (size(info.addr), 0, 0),
        StructKind::OptMgmt => (0, size(info.options), 0),
        StructKind::Call => {
            let udata = size(info.connect).max(size(info.discon));
            (size(info.addr), size(info.options), udata)
        }
        StructKind::Dis => (0, 0, size(info.discon)),
        StructKind::UnitData => (size(info.addr), size(info.options), size(info.tsdu)),
        StructKind::UdError => (size(info.addr), size(info.options), 0),
        StructKind::Info => (0, 0, 0),
    }
}

/// So many zero bytes.
fn zeros(alloc: Global, bytes: u32) -> Result<Octets, AllocError>
    ensures { IfOk result (λ zeros. zeros ≡ replicate bytes 0) }
{
    Ok(Octets::from_vec(Vec::from_elem(alloc, 0u8, bytes as usize)?))
}

/// The buffers of a structure, of zero bytes, as long as the provider's limits say (XNS, t_alloc). The limits of its buffers are
/// numbers.
/// Errors: `NoStructType` exactly where the provider's service doesn't have the structure; else `OutOfMemory` where memory runs
/// out.
pub fn t_alloc(alloc: Global, info: &Info, kind: StructKind) -> Result<Bufs, AllocFail>
    requires { is_refused info.now.servtype kind ≡ false → AreAt info.now kind }
    ensures refused { is_refused info.now.servtype kind ≡ true → result ≡ Err NoStructType }
    ensures made { is_refused info.now.servtype kind ≡ false → MatchResult result
        (λ b. b ≡ buffers info.now kind) (λ e. e ≡ OutOfMemory) }
{
    if kind.is_refused(info.servtype) {
        return Err(AllocFail::NoStructType);
    }
    let (addr, opt, udata) = sizes(info, kind);
    Ok(Bufs {
        addr: zeros(alloc, addr)?,
        opt: zeros(alloc, opt)?,
        udata: zeros(alloc, udata)?,
    })
}
