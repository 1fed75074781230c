ghost use Rattle.std.specs.Prelude.{◌≡◌, ◌<◌, ◌^◌, ◌+◌, map, IfOk, vec_len, vec_capacity, ◌≤◌, Some};
ghost use Rattle.xti_hall_rule.specs.declared.view.Held.TheVariants.{Cell};
ghost use Rattle.xti_hall_rule.specs.Rule.{opening_marks};
ghost use Rattle.xti_hall.specs.Seats.{StandInOrder};
ghost use Rattle.xti_hall.specs.Words.{first_view, setting, setting_of, id_of};

use super::Hall;
use crate::record::empty;
use crate::seat::Seat;
use crate::sleepers::Sleepers;
use atomic_table::{Refused, Table};
use std::alloc::{AllocError, Global};
use xti_base::let_go;
use xti_hall_rule::{Held, Mark, Setting, Stands};
use xti_model::Providers;

/// The marks before any seat is cut in two.
fn first_marks(alloc: Global) -> Result<Vec<Mark>, AllocError>
    ensures { IfOk result (λ marks. marks.items ≡ opening_marks) }
{
    let mut marks = Vec::from_elem(alloc, Mark::Absent, 33)?;
    marks[0] = Mark::Free;
    Ok(marks)
}

/// What was made; where memory ran out, what is owned is let go by calls, and the function ends.
macro_rules! or_drop {
    ($made:expr, $($owned:ident),+) => {
        match $made {
            Ok(made) => made,
            Err(error) => {
                $(xti_base::let_go($owned);)+
                return Err(error);
            }
        }
    };
}

/// The cells in their slots, and room for the journal's.
fn slots_of<C: Drop>(alloc: Global, cells: Vec<C>) -> Result<Vec<Option<Held<C>>>, AllocError>
    ensures slots { IfOk result (λ v. v.items ≡ map (λ x. Some (Cell x)) cells.items) }
    ensures room { IfOk result (λ v. vec_len v + 1 ≤ vec_capacity v) }
{
    let mut slots = or_drop!(Vec::with_capacity(alloc, cells.len()), cells);
    for cell in cells {
        if let Err(failed) = slots.push(Some(Held::Cell(cell))) {
            let_go(failed);
            let_go(slots);
            return Err(AllocError);
        }
    }
    or_drop!(slots.reserve(1), slots);
    Ok(slots)
}

impl<C: Stands> Hall<C> {
    /// A hall with an empty history, whose entries are kept or not, and the seat with number 0, whose spare numbers are 1 to
    /// 32. The cells stand for the opening world of the providers, in order.
    pub fn new(
        alloc: Global,
        p: &Providers,
        cells: Vec<C>,
        keeps: bool,
    ) -> Result<(Hall<C>, Seat<C>), AllocError>
        requires few { vec_len cells < 2 ^ 32 }
        requires stand { StandInOrder C.stands (setting p.now (vec_len cells) keeps) cells.items }
        ensures hall { IfOk result (λ r. setting_of r.0 ≡ setting p.now (vec_len cells) keeps) }
        ensures hall_of_seat { IfOk result (λ r. r.1.hall ≡ id_of r.0) }
        ensures seat { IfOk result (λ r. r.1.view ≡ first_view p.now (vec_len cells) keeps) }
    {
        let setting = Setting {
            providers: *p,
            cells: cells.len() as u32,
            keeps,
        };
        let words = or_drop!(Vec::from_elem(alloc, 0u64, cells.len() + 35), cells);
        let marks = or_drop!(first_marks(alloc), cells, words);
        let mut slots = or_drop!(slots_of(alloc, cells), words, marks);
        let journal = or_drop!(empty(alloc, keeps, marks), slots, words);
        slots.push_reserved(Some(Held::Journal(journal)));
        match Table::new(alloc, words.as_slice(), slots, &setting) {
            Ok((table, pass)) => Ok((
                Hall {
                    table,
                    cells: setting.cells,
                    keeps,
                    sleepers: Sleepers::none(),
                },
                Seat {
                    pass,
                    number: 0,
                    next: 1,
                    steps: 0,
                    unfinished: None,
                },
            )),
            Err(Refused { slots: _ }) => Err(AllocError),
        }
    }
}
