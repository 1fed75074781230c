//! What a step's outcome leaves for C.

ghost use Rattle.std.specs.Prelude.{◌≡◌};
ghost use Rattle.xti_flat.specs.Answers.{told_of, end_of, rooms_of, filled};

use crate::replying::{addr_of, data_of, give, opt_of, told_of};
use crate::told::Told;
use xti_base::State;
use xti_model::Outcome;

/// Writes an outcome and the state of the endpoint afterwards where C reads them. 0: the call is done; 1: a part of it is made.
pub fn tell(
    outcome: &Outcome,
    after: State,
    told: &mut Told,
    addr: &mut [u8],
    opt: &mut [u8],
    udata: &mut [u8],
) -> u32
    ensures end { result ≡ end_of outcome.now }
    ensures told { told.new ≡ told_of outcome.now after }
    ensures rooms { rooms_of addr.new opt.new udata.new
        ≡ filled outcome.now (rooms_of addr.old opt.old udata.old) }
{
    *told = told_of(outcome, after);
    match outcome {
        Outcome::Done(reply) => {
            give(addr_of(reply), addr);
            give(opt_of(reply), opt);
            give(data_of(reply), udata);
            0
        }
        Outcome::Part { .. } => 1,
    }
}
