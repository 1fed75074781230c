//! The calls that go through the switch: t_open, t_close, t_bind, t_unbind, t_connect, t_accept and t_snddis.
#![tactic(auto)]

/// What was made; where memory ran out, what is owned is let go by calls, and the function ends.
macro_rules! or_drop {
    ($made:expr, $($owned:ident),+) => {
        match $made {
            Ok(made) => made,
            Err(error) => {
                $(xti_base::let_go($owned);)+
                return Err(error);
            }
        }
    };
}

mod accept;
mod bind;
mod breaking;
mod callers;
mod close;
mod connect;
mod disconnect;
mod frames;
mod links;
mod notices;
mod open;
mod refusals;
mod requests;
mod step;
mod unbind;

pub use step::switch_step;
pub use xti_lent::Lent;
pub use xti_registry::Registry;
