//! The carrier of datagrams.

ghost use Rattle.std.specs.Prelude.{◌≡◌, ◌≤◌, length, true};
ghost use Rattle.xti_gbn.specs.Carriers.{IsReady};

use std::alloc::Global;
use std::mem::ManuallyDrop;
use xti_gbn::{Carrier, DatagramCarrier};

/// Whether 1 to 517 bytes come as they are, to the receiver or back.
fn comes_whole(
    alloc: Global,
    carrier: &mut DatagramCarrier,
    to_receiver: bool,
    bytes: &[u8],
) -> bool
    requires ready { IsReady carrier.old }
    requires some { 1 ≤ length bytes.now }
    requires most { length bytes.now ≤ 517 }
    ensures { result ≡ true → IsReady carrier.new }
{
    match carrier.carry(alloc, to_receiver, bytes) {
        Ok(came) => {
            let is_same = came.as_slice() == bytes;
            drop(came);
            is_same
        }
        Err(_) => false,
    }
}

/// As many bytes as a packet may have.
static MOST: [u8; 517] = [0xa5; 517];

/// Whether bytes go both ways, twice.
fn carries_both_ways(alloc: Global) -> bool {
    let Ok(mut carrier) = DatagramCarrier::new(alloc) else {
        return false;
    };
    let is_whole = comes_whole(alloc, &mut carrier, true, b"D")
        && comes_whole(alloc, &mut carrier, false, b"A\0\0\0\x01")
        && comes_whole(alloc, &mut carrier, true, &MOST)
        && comes_whole(alloc, &mut carrier, true, b"D")
        && comes_whole(alloc, &mut carrier, false, &MOST);
    // Not dropped, as that would be proved here for each type of its parts, and each test has a process of its own.
    let _kept = ManuallyDrop::new(carrier);
    is_whole
}

#[test]
fn bytes_both_ways(rt: HostRuntime) {
    assert!(rt; carries_both_ways(rt.alloc()));
}
