//! The gate at which a step may pause.

ghost use Rattle.std.specs.Prelude.{◌≡◌, length, false};
ghost use Rattle.xti_hall_rule.specs.Steps.{at};
ghost use Rattle.xti_gather.specs.Lends.{Just};

use std::sync::Wait;
use xti_gather::Cell;
use xti_hall::Seat;
use xti_model::Call;

/// Is asked once for each attempt at a step, while the seat holds just the cells that the call touches, and not the
/// journal.
pub trait Gate: Sync {
    /// May hold the seat back. `worker` is the seat's number, and `point` how many entries of the history are its own so
    /// far.
    fn pause<R: Wait + Sync>(&self, rt: &R, worker: u32, point: u64, seat: &Seat<Cell>, call: &Call)
        requires worker { worker ≡ seat.now.view.number }
        requires point { point ≡ length seat.now.view.mine }
        requires free { seat.now.view.journal ≡ false }
        requires cells { Just seat.now.view.setting.providers (at seat.now.view) call.now };
}

/// A gate that does nothing.
#[derive(Clone, Copy, Debug, PartialEq, Eq)]
pub struct NoGate;

impl Gate for NoGate {
    fn pause<R: Wait + Sync>(
        &self,
        _rt: &R,
        _worker: u32,
        _point: u64,
        _seat: &Seat<Cell>,
        _call: &Call,
    ) {}
}
