//! What each command answers to what it reads: runs of scripts, verdicts, and what is told of frames, links and copies.
#![tactic(auto)]

/// What was made; where it wasn't, what is owned is let go by calls, and the function ends with that error.
macro_rules! or_drop {
    ($made:expr, $($owned:ident),+) => {
        match $made {
            Ok(made) => made,
            Err(error) => {
                $(xti_base::let_go($owned);)+
                return Err(error);
            }
        }
    };
}

mod answers;
mod laws;
pub mod limits;
mod report;
mod round_robin;
mod threading;

pub use answers::{Answer, answer_to, generated_answer};
pub use laws::check_says_legal_of_runs;
pub use round_robin::replay;
pub use threading::run;
