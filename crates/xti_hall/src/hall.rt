//! The hall.

ghost use Rattle.std.specs.Prelude.{◌≡◌};
ghost use Rattle.xti_hall.specs.Sizes.{IsSized};

use crate::sleepers::Sleepers;
use atomic_table::Table;
use std::alloc::Global;
use xti_hall_rule::{Held, Ruled, Setting, Stands, View};

mod cells;
mod journal;
mod lingering;
mod making;
mod pens;
mod seats;
mod turns;
mod waits;

pub use journal::Rings;
pub use seats::NoSeat;

/// Cells and a journal, each with a turn. Threads share it by a reference, and each steps with a seat of its own.
#[derive(Drop)]
pub struct Hall<C: Stands> {
    table: Table<Option<Held<C>>, View, Setting, Ruled<C>, Global>,
    cells: u32,
    keeps: bool,
    sleepers: Sleepers,
    ghost sized: { IsSized table.shared.table_id table.shared.key cells },
    ghost keeping: { table.shared.key.keeps ≡ keeps },
}
