//! The callers that a listener gives up.

ghost use Rattle.std.specs.Prelude.{◌≡◌, ◌<◌, Some, length, map, IfOk, OnErr, OnOk};
ghost use Rattle.std.specs.List.{AllByRecursion};
ghost use Rattle.xti_end.specs.Callers.{numbers_of};
ghost use Rattle.xti_lent.specs.Answers.{Changed, IsUnchanged};
ghost use Rattle.xti_lent.specs.Fit.{AtOwnPlaces, IsFit, SameCells};
ghost use Rattle.xti_switch.specs.Closes.{giving_up, unanswered_at, unanswered_place, CanGiveUp, IsReadyAmong};
ghost use Rattle.xti_switch.specs.Hearing.{telling, TakesRoom};

use crate::notices::{News, Notice, prepare, tell};
use std::alloc::AllocError;
use std::collections::VecDeque;
use xti_base::reasons::PEER_CLOSED;
use xti_base::{Fd, Seq, let_go};
use xti_lent::Lent;

/// How many requests the endpoint that is open with this descriptor didn't answer.
fn requests(lent: &Lent, fd: Fd) -> usize
    requires { IsFit lent.now }
    ensures { result ≡ length (unanswered_at lent.now fd.0) }
{
    match lent.open_endpoint(fd) {
        Some(e) => e.requests(),
        None => 0,
    }
}

/// The caller and the number of one of them.
fn request(lent: &Lent, fd: Fd, place: usize) -> (Fd, Seq)
    requires own { AtOwnPlaces lent.now }
    requires there { place < length (unanswered_at lent.now fd.0) }
    ensures { Some (numbers_of result) ≡ unanswered_place lent.now fd.0 place }
{
    match lent.open_endpoint(fd) {
        Some(e) => match e.request_at(place) {
            Some(request) => request,
            None => unreachable!(),
        },
        None => unreachable!(),
    }
}

/// A notice for each caller that the endpoint didn't answer, and room for it there; where memory runs out the cells are as before.
fn notices_to_callers(lent: &mut Lent, fd: Fd) -> Result<VecDeque<Notice>, AllocError>
    requires fit { IsFit lent.old }
    requires reach { CanGiveUp lent.old fd.0 }
    ensures room { TakesRoom lent.old lent.new }
    ensures notices { IfOk result (λ ns. map telling ns.items ≡ giving_up lent.old fd.0) }
    ensures ready { IfOk result (λ ns. AllByRecursion (IsReadyAmong lent.new) ns.items) }
{
    let count = requests(lent, fd);
    let mut notices = VecDeque::with_capacity(lent.alloc(), count)?;
    for place in 0..count {
        let (caller, number) = request(lent, fd, place);
        let news = News::GivenUp {
            listener: fd,
            number,
        };
        let notice = or_drop!(prepare(lent, caller, news, PEER_CLOSED, &[]), notices);
        match notices.push_back(notice) {
            Ok(()) => {}
            Err(failed) => {
                let_go(failed);
                let_go(notices);
                return Err(AllocError);
            }
        }
    }
    Ok(notices)
}

/// The callers hear, one after the other. Takes no memory.
fn tell_all(lent: &mut Lent, mut notices: VecDeque<Notice>)
    requires own { AtOwnPlaces lent.old }
    requires ready { AllByRecursion (IsReadyAmong lent.old) notices.items }
    ensures cells { Changed (map telling notices.items) lent.old lent.new }
    ensures kept { SameCells lent.old lent.new }
    ensures registry { lent.new.registry ≡ lent.old.registry }
{
    while let Some(notice) = notices.pop_front() {
        tell(lent, notice);
    }
    let_go(notices);
}

/// The callers of the endpoint that is open with this descriptor hear that it gives them up; where memory runs out the cells are
/// as before.
pub(crate) fn give_up_callers(lent: &mut Lent, fd: Fd) -> Result<(), AllocError>
    requires fit { IsFit lent.old }
    requires reach { CanGiveUp lent.old fd.0 }
    ensures ok { OnOk result (Changed (giving_up lent.old fd.0) lent.old lent.new) }
    ensures kept { SameCells lent.old lent.new }
    ensures registry { lent.new.registry ≡ lent.old.registry }
    ensures err { OnErr result (IsUnchanged lent.old lent.new) }
{
    let notices = notices_to_callers(lent, fd)?;
    tell_all(lent, notices);
    Ok(())
}
