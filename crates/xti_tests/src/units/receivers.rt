//! What a receiver makes of packets.

use crate::cases::expect;
use std::alloc::Global;
use xti_base::Octets;
use xti_gbn::{Packet, Receiver};

/// The number of a packet that comes, whether its body is taken, and the acknowledgement.
static PACKETS: [(u32, bool, u32); 8] = [
    (1, false, 0),
    (0, true, 1),
    (0, false, 1),
    (2, false, 1),
    (1, true, 2),
    (0xffff_fffe, false, 2),
    (2, true, 3),
    (1, false, 3),
];

/// Gives a packet of this number to the receiver, and tells whether that came of it which should.
fn is_right(alloc: Global, receiver: &mut Receiver, number: u32, is_taken: bool, ack: u32) -> bool {
    if number == u32::MAX {
        return false;
    }
    let Ok(body) = Octets::copy_of(alloc, b"body") else {
        return false;
    };
    let packet = Packet { seq: number, body };
    let taken = receiver.data(alloc, &packet);
    drop(packet);
    let is_right = match &taken {
        Ok(taken) => {
            let has_body =
                matches!(&taken.body, Some(body) if body.as_slice() == b"body".as_slice());
            has_body == is_taken && taken.ack == ack
        }
        Err(_) => false,
    };
    drop(taken);
    is_right && receiver.expected() == ack
}

#[test]
fn packets_in_any_order(rt: HostRuntime) {
    let mut receiver = Receiver::new();
    for (place, (number, is_taken, ack)) in PACKETS.iter().enumerate() {
        let is_right = is_right(rt.alloc(), &mut receiver, *number, *is_taken, *ack);
        expect(&rt, is_right, &place);
    }
}
