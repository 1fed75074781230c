//! Calls, replies, scripts and histories as plain data, and what they mean.
#![tactic(auto)]

/// What was made; where it wasn't, the function ends with that error. It is two calls less to prove than a `?`.
macro_rules! made {
    ($made:expr) => {
        match $made {
            Ok(made) => made,
            Err(fail) => return Err(fail),
        }
    };
}

mod call;
mod cells;
mod copying;
mod entry;
mod laws;
mod name;
mod profile;
mod script;
mod spot;

pub use call::Call;
pub use cells::Cells;
pub use entry::{Act, Applied, Entries, Entry, Go, Outcome, Reply, Tried};
pub use laws::{calls_send_bytes, robin_follows, robin_goes_on, robin_is_complete, robin_is_legal};
pub use name::Name;
pub use profile::{Profile, Providers, Version, WrongValues};
pub use script::{Journal, Line, Lines, NamedCall, Script, StallLine, Stalls};
pub use spot::Spot;
