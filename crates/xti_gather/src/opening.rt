//! The hall of the opening world.

ghost use Rattle.std.specs.Prelude.{◌≡◌, ◌+◌, true, IfOk, vec_len};
ghost use Rattle.xti_model.specs.World.{places};
ghost use Rattle.xti_hall.specs.Words.{setting_of};
ghost use Rattle.xti_gather.specs.Cells.{AreOpeningCells, IsFirstSeat, whole};

use crate::cell::Cell;
use std::alloc::{AllocError, Global};
use xti_end::Endpoint;
use xti_hall::{Hall, Seat};
use xti_model::Providers;
use xti_registry::Registry;

/// The cells of the opening world, in their order.
pub fn opening_cells(alloc: Global, p: &Providers) -> Result<Vec<Cell>, AllocError>
    ensures many { IfOk result (λ v. vec_len v ≡ places p.now + 1) }
    ensures stand { IfOk result (λ v. AreOpeningCells p.now v.items) }
{
    let registry = Box::new(alloc, Registry::fresh(alloc, p)?)?;
    let mut cells = Vec::with_capacity(alloc, p.places() as usize + 1)?;
    for place in 0..p.places() {
        let closed = Box::new(alloc, Endpoint::closed(alloc, place))?;
        cells.push_reserved(Cell::End(closed));
    }
    cells.push_reserved(Cell::Switch(registry));
    Ok(cells)
}

/// A hall over the opening world of the providers, whose history is kept or not, and its first seat.
pub fn open_hall(
    alloc: Global,
    p: &Providers,
    keeps: bool,
) -> Result<(Hall<Cell>, Seat<Cell>), AllocError>
    ensures hall { IfOk result (λ r. setting_of r.0 ≡ whole p.now keeps) }
    ensures seat { IfOk result (λ r. IsFirstSeat p.now keeps r.0 r.1) }
{
    let cells = opening_cells(alloc, p)?;
    Hall::new(alloc, p, cells, keeps)
}
