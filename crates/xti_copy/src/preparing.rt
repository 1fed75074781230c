//! What a step's entry takes of memory, which is taken before the step.

ghost use Rattle.std.specs.Prelude.{◌≡◌, ◌<◌, IfOk, OnOk, vec_len, vec_capacity};
ghost use Rattle.xti_model.specs.Robin.{act_of};
ghost use Rattle.xti_copy.specs.Rides.{IsCopy};

use std::alloc::{AllocError, Global};
use xti_base::or_drop;
use xti_core::Spare;
use xti_model::{Act, Call, Entry, Go};

/// What the entry of a step shows of its call.
fn act(call: &Call, go: Go) -> Result<Act, AllocError>
    ensures { IfOk result (λ a. a ≡ act_of go call.now) }
{
    match go {
        Go::Begin => Ok(Act::Begin(call.copy()?)),
        Go::More(_) => Ok(Act::More),
    }
}

/// What the entry of a step shows of its call, room for a second copy of the reply, and room for one more entry.
pub(crate) fn prepared(
    alloc: Global,
    entries: &mut Vec<Entry>,
    call: &Call,
    go: Go,
) -> Result<(Act, Spare), AllocError>
    ensures copy { IfOk result (IsCopy call.now go) }
    ensures room { OnOk result (vec_len entries.new < vec_capacity entries.new) }
    ensures entries { entries.new.items ≡ entries.old.items }
{
    entries.reserve(1)?;
    let spare = Spare::of(alloc, call)?;
    let act = or_drop!(act(call, go), spare);
    Ok((act, spare))
}
