//! All seats meet at the end of the library, and its history is handed out.

ghost use Rattle.std.specs.Prelude.{◌≡◌, true};
ghost use Rattle.xti_model.specs.Complete.{IsHistoryOf};
ghost use Rattle.xti_calls.specs.declared.shared.Xti.{Xti as TheXti};
ghost use Rattle.xti_calls.specs.Library.{keeps_of, providers_of};
ghost use Rattle.xti_threads.specs.Meeting.{AllPlayed, TellsHistory};

use std::sync::Wait;
use xti_calls::{Ended, Seat, Xti};
use xti_model::{Entries, Line};

/// Every other seat meets main's, which has ended the library: the history has all that it made, and nothing else of it.
fn meet_main(ended: &mut Ended, _lines: &[Line], seats: Vec<Seat>)
    requires { (xti : TheXti) × AllPlayed xti _lines.now ended.old seats }
    ensures same { ended.new ≡ ended.old }
    ensures history { TellsHistory _lines.now ended.old seats }
{
    for seat in seats {
        let seat = ended.meet(seat);
    }
}

/// The history of the library, which main's seat ends before the seats that came back meet it. Takes no memory.
pub(crate) fn meet_all<R: Wait>(
    rt: &R,
    xti: Xti,
    lines: &[Line],
    main: Seat,
    seats: Vec<Seat>,
) -> Entries
    requires keeps { keeps_of xti ≡ true }
    requires played { AllPlayed xti lines.now main seats }
    ensures { IsHistoryOf (providers_of xti) lines.now result }
{
    let mut ended = xti.end(rt, main);
    meet_main(&mut ended, lines, seats);
    ended.into_history()
}
