//! Where an endpoint stands while it is lent.

ghost use Rattle.std.specs.Prelude.{◌≡◌, Some, is_some, option_map, true};
ghost use Rattle.std.specs.Borrow.{sem};
ghost use Rattle.std.specs.Option.{option_copied};
ghost use Rattle.xti_lent.specs.Slots.{LendsInside};

use std::marker::Model;
use xti_end::Endpoint;

/// An endpoint in its box, which stays where it is while it is lent; or none.
#[derive(Drop)]
pub(crate) struct Slot {
    boxed: Option<Box<Endpoint>>,
}

impl Model for Slot {
    ghost use Rattle.std.specs.Prelude.{Option, option_map};
    ghost use Rattle.xti_end.specs.Held.{Held};

    ghost Value = { Option Held };

    ghost view = { λ s. option_map (λ b. b.value) s.boxed };
}

impl Default for Slot {
    ghost use Rattle.std.specs.Prelude.{◌≡◌, None};

    ghost is_default = { λ s. s ≡ None };

    fn default() -> Slot {
        Slot { boxed: None }
    }
}

impl Slot {
    /// This endpoint.
    pub(crate) fn of(e: Box<Endpoint>) -> Slot
        ensures { result ≡ Some e.value }
    {
        Slot { boxed: Some(e) }
    }

    /// The endpoint with its box.
    pub(crate) fn into_box(self) -> Option<Box<Endpoint>>
        ensures { option_map (λ b. b.value) result ≡ self }
    {
        let Slot { boxed } = self;
        boxed
    }

    /// The endpoint.
    pub(crate) fn endpoint(&self) -> Option<&Endpoint>
        ensures { option_copied result ≡ self.now }
    {
        match &self.boxed {
            Some(e) => Some(e),
            None => None,
        }
    }

    /// The endpoint, which must be there, to be changed.
    pub(crate) fn endpoint_mut(&mut self) -> &mut Endpoint
        requires { is_some self.old ≡ true }
        ensures* writes_back { sem 𝓛 (LendsInside self.entry result) }
        ensures now { Some result.now ≡ self.old }
    {
        self.boxed.as_mut().unwrap()
    }
}
