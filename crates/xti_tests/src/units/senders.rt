//! What a sender makes of bodies, acknowledgements and timeouts.

use crate::cases::expect;
use std::alloc::Global;
use xti_gbn::{OfferFail, Packets, Sender};

/// What befalls a sender, and what comes of it.
enum Step {
    /// A body of so many bytes is offered: the number of its packet, or the error.
    Offer(usize, Result<u32, OfferFail>),
    /// An acknowledgement comes: the least number that isn't acknowledged afterwards.
    Acknowledge(u32, u32),
    /// The sender waited too long: the lengths of the bodies that are put again.
    Wait(&'static [usize]),
}

use Step::{Acknowledge, Offer, Wait};

static STEPS: [Step; 22] = [
    Wait(&[]),
    Acknowledge(1, 0),
    Offer(513, Err(OfferFail::TooLong)),
    Offer(512, Ok(0)),
    Offer(0, Ok(1)),
    Wait(&[512, 0]),
    Offer(1, Ok(2)),
    Offer(2, Ok(3)),
    Offer(3, Ok(4)),
    Offer(4, Ok(5)),
    Offer(5, Ok(6)),
    Offer(6, Ok(7)),
    Offer(7, Err(OfferFail::Full { base: 0, next: 8 })),
    Offer(513, Err(OfferFail::TooLong)),
    Wait(&[512, 0, 1, 2, 3, 4, 5, 6]),
    Acknowledge(9, 0),
    Acknowledge(3, 3),
    Acknowledge(2, 3),
    Offer(7, Ok(8)),
    Wait(&[2, 3, 4, 5, 6, 7]),
    Acknowledge(9, 9),
    Wait(&[]),
];

static BYTES: [u8; 513] = [7; 513];

/// The number of the packet that a body of so many bytes, at most 513, gets; its packet has that body.
fn offered(alloc: Global, sender: &mut Sender, length: usize) -> Option<Result<u32, OfferFail>> {
    let (body, _) = BYTES.split_at_checked(length)?;
    match sender.offer(alloc, body) {
        Ok(packet) => {
            let number = packet.seq;
            let is_same = packet.body.as_slice() == body;
            drop(packet);
            if is_same { Some(Ok(number)) } else { None }
        }
        Err(fail) => Some(Err(fail)),
    }
}

/// Whether the packets are numbered from `base` on, and their bodies have these lengths.
fn are_packets(packets: &Packets, base: u32, lengths: &[usize]) -> bool {
    let packets = packets.as_slice();
    for (place, packet) in packets.iter().enumerate() {
        let is_numbered = packet.seq as usize == base as usize + place;
        if !is_numbered || lengths.get(place) != Some(&packet.body.as_slice().len()) {
            return false;
        }
    }
    packets.len() == lengths.len()
}

/// Whether these are put again at a timeout.
fn are_put_again(alloc: Global, sender: &Sender, lengths: &[usize]) -> bool {
    let packets = sender.timeout(alloc);
    let are_right = matches!(&packets, Ok(packets) if are_packets(packets, sender.base(), lengths));
    drop(packets);
    are_right
}

/// Makes a step, and tells whether that came of it which should.
fn is_right(alloc: Global, sender: &mut Sender, step: &Step) -> bool {
    match step {
        Offer(length, wanted) => offered(alloc, sender, *length) == Some(*wanted),
        Acknowledge(number, base) => {
            let next = sender.next();
            sender.ack(*number);
            sender.base() == *base && sender.next() == next
        }
        Wait(lengths) => are_put_again(alloc, sender, lengths),
    }
}

#[test]
fn steps_of_a_sender(rt: HostRuntime) {
    let mut sender = Sender::new(rt.alloc());
    for (place, step) in STEPS.iter().enumerate() {
        expect(&rt, is_right(rt.alloc(), &mut sender, step), &place);
    }
    drop(sender);
}
