//! What follows from the rule.

ghost use Rattle.xti_hall_rule.specs.Marks.{MarksAreOfSeatsOut};

use crate::setting::Stands;

/// The marks in a hall's journal are those of just the seats that are out: a mark is absent exactly where no seat with its
/// number is out. A seat is out from the step on by which the `split` that made it gives the journal back.
pub fn marks_are_of_seats_out<C: Stands>()
    ensures { MarksAreOfSeatsOut C.stands }
{}
