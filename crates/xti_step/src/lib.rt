//! One step of a call by a seat of a hall, over the cells that the call touches.
#![tactic(auto)]

/// What was made; where memory ran out, what is owned is let go by calls, and the function ends.
macro_rules! or_drop {
    ($made:expr, $($owned:ident),+) => {
        match $made {
            Ok(made) => made,
            Err(error) => {
                $(xti_base::let_go($owned);)+
                return Err(error);
            }
        }
    };
}

mod gate;
mod stepping;
mod waking;

pub use gate::{Gate, NoGate};
pub use stepping::step;
