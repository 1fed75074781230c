//! The switch's table: which descriptor is found at an address, and which address is chosen.

use crate::cases::{are_bytes, expect};
use std::alloc::Global;
use xti_base::{Fd, Octets, Prov};
use xti_model::Providers;
use xti_registry::Registry;

/// What is done with the table, or asked and answered.
enum Step {
    /// The descriptor is bound to the address; it listens if it is even.
    Bind(Prov, &'static [u8], u32),
    /// The descriptor is bound to no address any more.
    Remove(u32),
    /// The least descriptor at the address, or of those that listen.
    Bound(Prov, &'static [u8], bool, Option<Fd>),
    /// The least descriptor but this one that listens at the address.
    Listener(Prov, &'static [u8], u32, Option<Fd>),
    /// The first free address of the provider.
    Free(Prov, &'static [u8]),
}

static FINDS: [Step; 18] = [
    Step::Bind(Prov::Ticots, b"b", 7),
    Step::Bind(Prov::Ticots, b"a", 5),
    Step::Bind(Prov::Ticlts, b"a", 2),
    Step::Bind(Prov::Ticots, b"a", 4),
    Step::Bind(Prov::Ticots, b"c", 1),
    Step::Bind(Prov::Ticots, b"a", 3),
    Step::Bound(Prov::Ticots, b"a", false, Some(Fd(3))),
    Step::Bound(Prov::Ticots, b"a", true, Some(Fd(4))),
    Step::Bound(Prov::Ticlts, b"a", false, Some(Fd(2))),
    Step::Bound(Prov::Ticots, b"c", true, None),
    Step::Listener(Prov::Ticots, b"a", 3, Some(Fd(4))),
    Step::Listener(Prov::Ticots, b"a", 4, None),
    Step::Bound(Prov::Ticots, b"", false, None),
    Step::Remove(3),
    Step::Bound(Prov::Ticots, b"a", false, Some(Fd(4))),
    Step::Bound(Prov::Ticots, b"b", false, Some(Fd(7))),
    Step::Bind(Prov::Ticots, b"b", 3),
    Step::Bound(Prov::Ticots, b"b", false, Some(Fd(3))),
];

static CHOOSES: [Step; 8] = [
    Step::Free(Prov::Ticlts, b"#0"),
    Step::Bind(Prov::Ticlts, b"#0", 1),
    Step::Bind(Prov::Ticlts, b"#2", 2),
    Step::Bind(Prov::Ticots, b"#1", 3),
    Step::Free(Prov::Ticlts, b"#1"),
    Step::Free(Prov::Ticots, b"#0"),
    Step::Remove(1),
    Step::Free(Prov::Ticlts, b"#0"),
];

/// Whether there was memory to bind the descriptor.
fn bind(alloc: Global, table: &mut Registry, prov: Prov, addr: &[u8], fd: u32) -> bool {
    let Ok(addr) = Octets::copy_of(alloc, addr) else {
        return false;
    };
    match table.reserve() {
        Ok(()) => {
            table.put(prov, addr, Fd(fd), fd % 2 == 0);
            true
        }
        Err(_) => {
            drop(addr);
            false
        }
    }
}

/// Whether the step is done, or answered so.
fn holds(alloc: Global, table: &mut Registry, step: &Step) -> bool {
    match step {
        Step::Bind(prov, addr, fd) => bind(alloc, table, *prov, addr, *fd),
        Step::Remove(fd) => {
            table.remove(Fd(*fd));
            true
        }
        Step::Bound(prov, addr, listening, fd) => table.bound(*prov, addr, *listening) == *fd,
        Step::Listener(prov, addr, except, fd) => {
            table.listener(*prov, addr, Fd(*except)) == *fd
        }
        Step::Free(prov, addr) => are_bytes(table.free_address(alloc, *prov), addr),
    }
}

/// The steps hold, each list of them from an empty table on.
#[test]
fn finds_and_chooses(rt: HostRuntime) {
    for steps in [FINDS.as_slice(), CHOOSES.as_slice()] {
        let table = Registry::fresh(rt.alloc(), &Providers::usual());
        let mut table = table.expect(&rt, "memory");
        for (number, step) in steps.iter().enumerate() {
            expect(&rt, holds(rt.alloc(), &mut table, step), &number);
        }
        drop(table);
    }
}
