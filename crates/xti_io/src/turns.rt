//! Calls that are counted, some of which fail.

ghost use Rattle.std.specs.Prelude.{◌≡◌, ◌<◌, ◌-◌, ◌^◌, false};
ghost use Rattle.xti_io.specs.Turns.{is_listed, first_turn, fails_now, next_turn};

use std::marker::Model;
use xti_base::Calls;

/// Whether the number is in the list.
pub fn is_listed(numbers: &Calls, number: u64) -> bool
    ensures { result ≡ is_listed number numbers.now }
{
    numbers.as_slice().contains(&number)
}

// Calls that are counted from 0, and the numbers of those that fail.
#[derive(Drop)]
pub(crate) struct Turns {
    fails: Calls,
    number: u64,
    faults: u64,
}

impl Model for Turns {
    ghost use Rattle.xti_io.specs.Turns.{Turns, IsCounted};

    ghost Value = { Turns };

    ghost view = { λ t. record { fails = t.fails; number = t.number; faults = t.faults } };

    ghost invariant = { λ t. IsCounted (record { fails = t.fails; number = t.number; faults = t.faults }) };
}

impl Turns {
    pub(crate) fn new(fails: Calls) -> Turns
        requires { is_listed (2 ^ 64 - 1) fails ≡ false }
        ensures { result ≡ first_turn fails }
    {
        // A list in memory has fewer than 2 ^ 64 - 1 members, which the proof sees at its slice.
        let _ = fails.as_slice();
        Turns {
            fails,
            number: 0,
            faults: 0,
        }
    }

    // Counts this call, and answers whether it fails.
    pub(crate) fn turn(&mut self) -> bool
        ensures fails { result ≡ fails_now self.old }
        ensures next { self.new ≡ next_turn self.old }
        ensures few { self.new.faults < 2 ^ 64 - 1 }
    {
        let fails = is_listed(&self.fails, self.number);
        if fails {
            self.faults += 1;
        }
        self.number = self.number.saturating_add(1);
        fails
    }
}
