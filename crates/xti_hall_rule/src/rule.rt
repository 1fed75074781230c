use crate::setting::{Setting, Stands};
use crate::view::{Held, View};
use atomic_table::{Seat, TableRule};
use std::marker::PhantomData;

/// A slot of a hall, which is empty while its turn is held.
pub type Slot<C> = Option<Held<C>>;

/// A seat of a hall's table.
pub type Pass<C> = Seat<Option<Held<C>>, View>;

/// The rule of a hall with such cells.
pub struct Ruled<C> {
    marker: PhantomData<C>,
}

impl<C: Stands> TableRule<Option<Held<C>>, View, Setting> for Ruled<C> {
    ghost use Rattle.xti_hall_rule.specs.Rule.{HallRule, newcomer};

    ghost holds = { λ p s. HallRule (C.stands p) p s };

    ghost first = { newcomer };
}
