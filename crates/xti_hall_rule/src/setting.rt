//! What a hall is of, and what its cells stand for.

use std::marker::Model;
use xti_model::Providers;

/// The providers of a hall, the number of its cells, and whether its history is kept.
#[derive(Drop)]
pub struct Setting {
    /// The values of the providers.
    pub providers: Providers,
    /// How many cells the hall has.
    pub cells: u32,
    /// Whether the entries of the history are kept, so that they can be handed out.
    pub keeps: bool,
}

/// A cell of the definitions, for fields that contracts alone see. No value of it is made.
pub struct Recorded;

impl Model for Recorded {
    ghost use Rattle.std.specs.Prelude.{None};
    ghost use Rattle.xti_model.specs.World.{Cell, endpoint_cell};

    ghost Value = { Cell };

    ghost view = { λ r. endpoint_cell 0 None };
}

/// A value that stands for cells of the definitions, each with its number, in a hall of these providers and so many cells.
pub trait Stands: Drop {
    ghost use Rattle.std.specs.Prelude.{List, ℕ};
    ghost use Rattle.xti_model.specs.World.{Cell};
    ghost use Rattle.xti_hall_rule.specs.declared.setting.Setting.{Setting};

    ghost stands: { Setting → Self → List (ℕ × Cell) → Type 0 };
}
