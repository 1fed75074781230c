//! A cell of a hall.

ghost use Rattle.std.specs.Prelude.{◌≡◌, ◌≢◌, ◌∷◌, [], ℕ, Some, None};
ghost use Rattle.xti_model.specs.World.{Cell as MCell};
ghost use Rattle.xti_lent.specs.Lending.{cell_lent};
ghost use Rattle.xti_core.specs.Standing.{IsLoan};
ghost use Rattle.xti_gather.specs.Cells.{StandsFor};

use std::fmt;
use xti_end::Endpoint;
use xti_hall_rule::Stands;
use xti_lent::Lent;
use xti_registry::Registry;

/// The endpoint of a place, or the switch's table.
pub enum Cell {
    /// The endpoint of a place.
    End(Box<Endpoint>),
    /// The switch's table.
    Switch(Box<Registry>),
}

// Written out, so that a crate that lets a cell go proves a call of this, and nothing of what is in it.
impl Drop for Cell {
    fn drop(self) {
        match self {
            Cell::End(_) => {}
            Cell::Switch(_) => {}
        }
    }
}

impl fmt::Debug for Cell {
    fn fmt<W: fmt::Write>(&self, f: &mut fmt::Formatter<W>) -> fmt::Result {
        f.write_str(match self {
            Cell::End(_) => "End",
            Cell::Switch(_) => "Switch",
        })
    }
}

impl Cell {
    /// Lends the cell under its number, under which none may be lent. Takes no memory.
    pub(crate) fn lend_cell(self, lent: &mut Lent, cell: u32)
        requires loan { IsLoan lent.old }
        requires apart { cell_lent lent.old cell ≡ None }
        requires stands { (m : MCell) × StandsFor lent.old.providers self ((cell, m) ∷ []) }
        ensures providers { lent.new.providers ≡ lent.old.providers }
        ensures loan { IsLoan lent.new }
        ensures here { (m : MCell)
            → StandsFor lent.old.providers self ((cell, m) ∷ []) → cell_lent lent.new cell ≡ Some m }
        ensures others { (n : ℕ) → n ≢ cell → cell_lent lent.new n ≡ cell_lent lent.old n }
    {
        match self {
            Cell::End(e) => lent.lend(cell, e),
            Cell::Switch(r) => lent.lend_registry(r),
        }
    }
}

impl Stands for Cell {
    ghost use Rattle.xti_gather.specs.Cells.{StandsFor};

    ghost stands = { λ p. StandsFor p.providers };
}
