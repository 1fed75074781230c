//! What threads share.

ghost use Rattle.std.specs.Prelude.{◌≡◌, true};
ghost use Rattle.xti_model.specs.Profile.{valid};
ghost use Rattle.xti_hall.specs.Words.{setting_of};
ghost use Rattle.xti_gather.specs.Cells.{IsWhole};

use std::fmt;
use xti_gather::Cell;
use xti_hall::Hall;
use xti_model::Providers;

/// The library: a hall that has all cells of its providers, whose values are valid. Threads share it by a reference, and each
/// calls with a seat of its own.
#[derive(Drop)]
pub struct Xti {
    pub(crate) hall: Hall<Cell>,
    pub(crate) providers: Providers,
    ghost all_cells: { IsWhole (setting_of hall) (setting_of hall).providers },
    ghost valid_providers: { valid (setting_of hall).providers ≡ true },
    ghost same_providers: { providers ≡ (setting_of hall).providers },
}

impl fmt::Debug for Xti {
    fn fmt<W: fmt::Write>(&self, f: &mut fmt::Formatter<W>) -> fmt::Result {
        write!(f, "Xti {{ providers: {:?} }}", self.providers)
    }
}
