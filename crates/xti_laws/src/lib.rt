//! Laws of the definitions of a step: what a step reads, what it changes, and how; which worlds are sound; and what is answered.
#![tactic(auto)]

mod answers;
mod bytes;
mod laws;
mod requests;
mod sound;

pub use answers::steps_answer_in_form;
pub use bytes::answers_have_values;
pub use laws::{
    changes_are_named, counts_follow_the_table, some_cells_are_enough, states_follow_the_table,
    steps_are_local, steps_wait_for_their_wants, touched_cells_settle_a_step,
};
pub use requests::requests_stay_linked;
pub use sound::{
    connections_have_two_ends, few_ends_wait, premises_are_needed, providers_stay,
    replies_are_short, some_errors_are_never_answered, sound_endpoints_fit,
    sound_switch_has_addresses, sound_when_lent, steps_tell_progress, worlds_stay_sound,
};
