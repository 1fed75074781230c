//! The kinds of step of a hall.

use crate::setting::Stands;
use crate::view::{Held, View};
use atomic_table::{Join, Play, Split};

/// Takes a cell's turn, and its slot with the value.
pub struct Take;

impl<C: Stands> Play<Option<Held<C>>, View> for Take {
    ghost use Rattle.xti_hall_rule.specs.Steps.{entered};

    ghost then = { entered C.stands };
}

/// Takes a cell's turn, and its slot with the value; where the turn is held, the seat's view has that recorded.
pub struct Try;

impl<C: Stands> Play<Option<Held<C>>, View> for Try {
    ghost use Rattle.xti_hall_rule.specs.Steps.{tried};

    ghost then = { tried C.stands };
}

/// Gives a cell's slot back empty, and keeps the turn.
pub struct Settle;

impl<C> Play<Option<Held<C>>, View> for Settle {
    ghost use Rattle.xti_hall_rule.specs.Steps.{settled};

    ghost then = { λ st m r m'. settled m m' };
}

/// Takes the empty slot of a cell whose turn is held.
pub struct Reopen;

impl<C> Play<Option<Held<C>>, View> for Reopen {
    ghost use Rattle.xti_hall_rule.specs.Steps.{reopened};

    ghost then = { λ st m r m'. reopened st m m' };
}

/// Gives a cell's turn back, and its slot with the value.
pub struct Leave;

impl<C> Play<Option<Held<C>>, View> for Leave {
    ghost use Rattle.xti_hall_rule.specs.Steps.{left};

    ghost then = { λ st m r m'. left st m m' };
}

/// Takes the journal's turn, and its slot.
pub struct Begin;

impl<C> Play<Option<Held<C>>, View> for Begin {
    ghost use Rattle.xti_hall_rule.specs.Steps.{began};

    ghost then = { began };
}

/// Adds 1 to the length, as the history has one entry more, which the journal in the open slot shows.
pub struct Commit;

impl<C> Play<Option<Held<C>>, View> for Commit {
    ghost use Rattle.xti_hall_rule.specs.Steps.{wrote};

    ghost then = { λ st m r m'. wrote m m' };
}

/// Gives the journal's turn and slot back. The seat has then seen the history.
pub struct Return;

impl<C> Play<Option<Held<C>>, View> for Return {
    ghost use Rattle.xti_hall_rule.specs.Steps.{returned};

    ghost then = { λ st m r m'. returned m m' };
}

/// Gives the journal's turn and slot back. The seat has seen as much as before.
pub struct ReturnUnseen;

impl<C> Play<Option<Held<C>>, View> for ReturnUnseen {
    ghost use Rattle.xti_hall_rule.specs.Steps.{returned_unseen};

    ghost then = { λ st m r m'. returned_unseen m m' };
}

/// Reads the length. The seat has then seen the history.
pub struct Look;

impl<C> Play<Option<Held<C>>, View> for Look {
    ghost use Rattle.xti_hall_rule.specs.Steps.{looked};

    ghost then = { λ st m r m'. looked m r m' };
}

/// Rings the bell of a seat.
pub struct Ring;

impl<C> Play<Option<Held<C>>, View> for Ring {
    ghost use Rattle.std.specs.Prelude.{◌≡◌};

    ghost then = { λ st m r m'. m' ≡ m };
}

/// Cuts a seat in two: the new one has the least spare number.
pub struct Give;

impl Split<View> for Give {
    ghost use Rattle.xti_hall_rule.specs.Steps.{giver, given};

    ghost left = { giver };

    ghost right = { given };
}

/// Cuts off a note of what a seat has seen, or joins one.
pub struct Note;

impl Split<View> for Note {
    ghost use Rattle.xti_hall_rule.specs.Steps.{note_of};

    ghost left = { λ v. v };

    ghost right = { note_of };
}

impl Join<View> for Note {
    ghost use Rattle.xti_hall_rule.specs.Steps.{told, spent};

    ghost both = { told };

    ghost spent = { spent };
}
