//! Whom a step may let go on. Nothing that a seat is told depends on it: one that is woken in vain waits on, and one that isn't
//! woken is so at the latest when no other seat goes on.

use xti_gather::Cell;
use xti_hall::Pen;
use xti_hall_rule::Mark;
use xti_lent::Lent;
use xti_model::Call;
use xti_wants::{Want, WantKind};

/// Whether the step of the call, which touched just the cells that are lent, may change whether this is blocked. That depends on
/// the endpoint of the want; of a send also on the queue of the other side and on how much it may hold, of a datagram's on
/// whoever is bound to its address. Neither of these need be among those cells.
fn concerns(want: &Want, lent: &Lent, call: &Call) -> bool {
    if lent.has(lent.place_of(want.fd)) {
        return true;
    }
    match want.kind {
        WantKind::Snd => matches!(
            call,
            Call::TRcv { .. } | Call::TRcvV { .. } | Call::TOptMgmt { .. }
        ),
        WantKind::SndUData => matches!(
            call,
            Call::TRcvUData { .. }
                | Call::TRcvVUData { .. }
                | Call::TBind { .. }
                | Call::TUnbind { .. }
                | Call::TClose { .. }
        ),
        WantKind::RcvConnect | WantKind::Listen | WantKind::Rcv | WantKind::RcvUData => false,
    }
}

/// The seats that wait for what this step may have changed, each by the bit of its number.
pub(crate) fn concerned(pen: &Pen<Cell>, lent: &Lent, call: &Call) -> u64 {
    let waiting = pen.waiting();
    let mut seats = 0;
    for (number, mark) in pen.marks().iter().enumerate() {
        if waiting >> (number % 64) == 0 {
            return seats;
        }
        if let Mark::Waiting(want, _) = mark {
            if concerns(want, lent, call) {
                seats |= 1u64 << (number % 64);
            }
        }
    }
    seats
}
