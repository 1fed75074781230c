//! The entry that a commit adds, for contracts alone.

ghost use Rattle.std.specs.Prelude.{◌≡◌, Option};
ghost use Rattle.std.specs.Borrow.{ftrue};
ghost use Rattle.xti_hall_rule.specs.declared.view.Shown.{Shown as TheShown};

use crate::view::Shown;
use std::marker::{Model, PhantomData};

/// An entry that is shown, or none. It has no bytes.
#[derive(Drop)]
pub struct Last {
    of: PhantomData<()>,
    pub ghost value: { Option TheShown },
}

impl Model for Last {
    ghost also_owns = { λ _. ftrue };
}

// It owns nothing.
unsafe impl Send for Last {}

impl Last {
    /// The entry that is shown, or none.
    pub fn of(shown: &Option<Shown>) -> Last
        ensures { result.value ≡ shown.now }
    {
        let _ = shown;
        Last { of: PhantomData }
    }
}
