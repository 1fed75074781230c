//! Structures and their buffers, the names of errors, and what the system sets.

use std::test::*;
use xti_base::{Errno, Info, Limit, ServType, let_go};
use xti_calls::{AllocFail, Bufs, StructKind, t_alloc, t_strerror, t_sysconf};

/// What the provider of datagrams tells.
const DATAGRAMS: Info = Info {
    addr: Limit::At(64),
    options: Limit::At(256),
    tsdu: Limit::At(8192),
    etsdu: Limit::Invalid,
    connect: Limit::Invalid,
    discon: Limit::Invalid,
    servtype: ServType::T_CLTS,
    flags: 1,
};

/// What the provider of connections tells.
const CONNECTIONS: Info = Info {
    addr: Limit::At(64),
    options: Limit::At(256),
    tsdu: Limit::At(65536),
    etsdu: Limit::At(128),
    connect: Limit::At(64),
    discon: Limit::At(64),
    servtype: ServType::T_COTS,
    flags: 1,
};

/// Whether there is room for an address alone, which is zero.
fn is_room_for_address(bufs: &Bufs) -> bool {
    bufs.addr.as_slice() == [0; 64].as_slice()
        && bufs.opt.as_slice().is_empty()
        && bufs.udata.as_slice().is_empty()
}

/// A request, which the provider of datagrams has none of, and an address of connections.
#[test]
fn structures(rt: HostRuntime) {
    let request = t_alloc(rt.alloc(), &DATAGRAMS, StructKind::Call);
    let address = t_alloc(rt.alloc(), &CONNECTIONS, StructKind::Bind);
    let is_refused = matches!(&request, Err(AllocFail::NoStructType));
    let is_room = matches!(&address, Ok(bufs) if is_room_for_address(bufs));
    let_go((request, address));
    assert!(rt; is_refused && is_room);
}

#[test]
fn names_and_limits(rt: HostRuntime) {
    assert!(rt; [t_strerror(9), t_strerror(30)] == ["TLOOK", "unknown"]);
    assert!(rt; [t_sysconf(0), t_sysconf(1)] == [Ok(16), Err(Errno::TBADFLAG)]);
}
