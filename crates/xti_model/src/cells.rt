//! The cells of a call, in rising order.

ghost use Rattle.std.specs.Prelude.{◌≡◌, ◌<◌, ◌≤◌, ◌⊎◌, [], true, length, slice_get, IfSome, IfNone};
ghost use Rattle.xti_base.specs.declared.limits.TheConstants.{MOST_TOUCHED};
ghost use Rattle.xti_model.specs.Cells.{listed, with_number, IsPlaceFor};
ghost use Rattle.xti_model.specs.World.{is_among};

use arrayvec::ArrayVec;
use std::marker::Model;
use xti_base::limits::MOST_TOUCHED;

/// The numbers of the cells that a call touches, at most `MOST_TOUCHED`, strictly rising. They take no memory.
#[derive(Drop)]
pub struct Cells {
    numbers: ArrayVec<u32, MOST_TOUCHED>,
}

impl Model for Cells {
    ghost use Rattle.std.specs.Prelude.{List, ℕ};
    ghost use Rattle.xti_model.specs.Cells.{IsRising};

    ghost Value = { List ℕ };

    ghost view = { λ c. c.numbers.items };

    ghost invariant = { λ c. IsRising 0 c.numbers.items };
}

/// Where a number belongs among rising numbers; `None` where it is there.
fn place_for(numbers: &[u32], n: u32) -> Option<usize>
    ensures there { IfNone result (is_among numbers.now n ≡ true) }
    ensures place { IfSome result (IsPlaceFor n numbers.now) }
{
    for (place, m) in numbers.iter().enumerate() {
        if *m == n {
            return None;
        }
        if *m > n {
            return Some(place);
        }
    }
    Some(numbers.len())
}

impl Cells {
    /// No numbers.
    pub fn new() -> Cells
        ensures { result ≡ [] }
    {
        Cells {
            numbers: ArrayVec::new(),
        }
    }

    /// Adds a number, which may be there already.
    pub fn insert(&mut self, n: u32)
        requires { (length self.old < MOST_TOUCHED) ⊎ (is_among self.old n ≡ true) }
        ensures { self.new ≡ with_number n self.old }
    {
        if let Some(place) = place_for(self.numbers.as_slice(), n) {
            self.numbers.insert(place, n);
        }
    }

    /// The number at a place of the rising order; `None` exactly past the end.
    pub fn get(&self, place: usize) -> Option<u32>
        ensures { result ≡ slice_get self.now place }
    {
        self.numbers.as_slice().get(place).copied()
    }

    /// How many numbers there are.
    pub fn len(&self) -> usize
        ensures len { result ≡ length self.now }
        ensures most { result ≤ MOST_TOUCHED }
        ensures rising { self.now ≡ listed self.now }
    {
        self.numbers.len()
    }
}
