//! Tables.

ghost use Rattle.std.specs.Prelude.{IfOk};
ghost use Rattle.xti_hall.specs.Words.{IsSameSeat};
ghost use Rattle.xti_gather.specs.Glances.{IsSameLater};
ghost use Rattle.xti_poll.specs.Tables.{TellsGlances};

use crate::lines::put_line;
use std::alloc::AllocError;
use xti_base::Fd;
use xti_calls::Caller;

/// A line for each descriptor, in order: the descriptor, and what a glance at it finds.
///
/// A line is `FD STATE EVENT N`, with `0` for no event, `FD gone N` where no endpoint is open with the descriptor, or `FD busy
/// CELL` where the glance met a turn that was held. N is the number of entries after which the line tells the world; it never
/// falls from one line to the next. The glances are made one after the other, so two lines may tell two worlds. The error says
/// that memory ran out; nothing has changed then but what the seat has seen.
pub fn table<R>(caller: &mut Caller<R>, fds: &[Fd]) -> Result<Vec<u8>, AllocError>
    ensures seat { IsSameSeat caller.old caller.new }
    ensures same { IsSameLater caller.old.view caller.new.view }
    ensures table { IfOk result (λ text. TellsGlances caller.old fds.now caller.new text.items) }
{
    let mut out = Vec::new(caller.alloc());
    for fd in fds {
        let glance = caller.glance(*fd);
        put_line(&mut out, *fd, glance)?;
    }
    Ok(out)
}
