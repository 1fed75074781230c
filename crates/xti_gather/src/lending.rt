//! A cell of the hall, lent to a step and taken back.

ghost use Rattle.std.specs.Prelude.{◌≡◌, ◌≢◌, ◌∷◌, [], ℕ, Some, None, true, MatchOption};
ghost use Rattle.xti_model.specs.Profile.{valid};
ghost use Rattle.xti_model.specs.World.{Cell as MCell};
ghost use Rattle.xti_lent.specs.Lending.{cell_lent};
ghost use Rattle.xti_core.specs.Standing.{IsLoan};
ghost use Rattle.xti_gather.specs.Cells.{StandsFor};
ghost use Rattle.xti_gather.specs.Lends.{IsEmpty};

use crate::cell::Cell;
use std::alloc::Global;
use xti_lent::Lent;
use xti_model::Providers;

/// No cell is lent yet. Takes no memory.
pub fn nothing_lent(alloc: Global, p: &Providers) -> Lent
    requires { valid p.now ≡ true }
    ensures empty { IsEmpty result }
    ensures providers { result.providers ≡ p.now }
{
    Lent::new(alloc, p)
}

/// Takes a cell back; `None` exactly where it is not lent. Takes no memory.
pub(crate) fn take_cell(lent: &mut Lent, cell: u32) -> Option<Cell>
    requires loan { IsLoan lent.old }
    ensures providers { lent.new.providers ≡ lent.old.providers }
    ensures loan { IsLoan lent.new }
    ensures value { MatchOption result (cell_lent lent.old cell ≡ None)
        (λ x. (m : MCell) × (cell_lent lent.old cell ≡ Some m) × StandsFor lent.old.providers x ((cell, m) ∷ [])) }
    ensures here { cell_lent lent.new cell ≡ None }
    ensures others { (n : ℕ) → n ≢ cell → cell_lent lent.new n ≡ cell_lent lent.old n }
{
    if cell == lent.providers().switch_number() {
        match lent.take_registry() {
            Some(r) => Some(Cell::Switch(r)),
            None => None,
        }
    } else {
        match lent.take_back(cell) {
            Some(e) => Some(Cell::End(e)),
            None => None,
        }
    }
}
