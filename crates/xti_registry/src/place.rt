//! A place of endpoints.

use std::marker::Model;

/// How often a place was closed, and whether it is open.
#[derive(Drop)]
pub(crate) struct Place {
    pub(crate) generation: u32,
    pub(crate) is_open: bool,
}

impl Model for Place {
    ghost use Rattle.xti_model.specs.World.{Place};

    ghost Value = { Place };

    ghost view = { λ p. record { generation = p.generation; is_open = p.is_open } };
}
