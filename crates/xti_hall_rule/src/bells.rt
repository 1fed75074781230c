//! Who is to be woken.

/// The bit of a number, which is at most 63.
fn bit(number: u32) -> u64 {
    1 << (number % 64)
}

/// Whom a bell concerns, each seat by the bit of its number. Nothing but who is woken depends on it, so contracts don't speak of
/// it.
#[derive(Clone, Copy)]
pub struct Bells {
    waiting: u64,
    rung: u64,
}

impl Bells {
    /// Nobody waits.
    pub fn silent() -> Bells {
        Bells {
            waiting: 0,
            rung: 0,
        }
    }

    /// The seats that wait.
    pub fn waiting(&self) -> u64 {
        self.waiting
    }

    /// Whether the seat was rung since it began to wait, and hasn't looked yet.
    pub fn is_rung(&self, number: u32) -> bool {
        self.rung & bit(number) != 0
    }

    /// The seat has looked, and waits from now on, or doesn't.
    pub fn looked(&mut self, number: u32, waits: bool) {
        self.rung &= !bit(number);
        if waits {
            self.waiting |= bit(number);
        } else {
            self.waiting &= !bit(number);
        }
    }

    /// Those of these seats that are to be rung now: who waits, and wasn't rung already. They count as rung then.
    pub fn ring(&mut self, seats: u64) -> u64 {
        let now = seats & self.waiting & !self.rung;
        self.rung |= now;
        now
    }
}
