//! Marks, tested and counted.

ghost use Rattle.std.specs.Prelude.{◌≡◌, ◌≤◌, length, count_by};
ghost use Rattle.std.specs.List.{list_all};
ghost use Rattle.xti_hall.specs.Stalls.{is_settled, waits, rests};

use xti_hall_rule::{Bells, Mark};

/// Whether nobody has the number, or its seat rests, or it waits since the history had this length.
fn is_settled(mark: &Mark, at: u64) -> bool
    ensures { result ≡ is_settled at mark.now }
{
    match mark {
        Mark::Absent | Mark::Resting => true,
        Mark::Free => false,
        Mark::Waiting(_, len) => *len == at,
    }
}

/// Whether the seat waits.
pub(crate) fn waits(mark: &Mark) -> bool
    ensures { result ≡ waits mark.now }
{
    match mark {
        Mark::Waiting(_, _) => true,
        Mark::Absent | Mark::Free | Mark::Resting => false,
    }
}

fn rests(mark: &Mark) -> bool
    ensures { result ≡ rests mark.now }
{
    match mark {
        Mark::Resting => true,
        Mark::Absent | Mark::Free | Mark::Waiting(_, _) => false,
    }
}

/// Whether every mark is settled in the history of this length.
pub(crate) fn all_settled(marks: &[Mark], at: u64) -> bool
    ensures { result ≡ list_all (is_settled at) marks.now }
{
    marks.iter().all(|mark| is_settled(mark, at))
}

/// The seats that wait since another length than this, each by the bit of its number; `None` where a seat beside this one goes
/// on by itself, as it neither rests nor waits, or was rung.
pub(crate) fn left_behind(marks: &[Mark], bells: &Bells, own: u32, at: u64) -> Option<u64> {
    let mut behind = 0;
    for (number, mark) in marks.iter().enumerate() {
        if number == own as usize {
            continue;
        }
        let number = (number % 64) as u32;
        match mark {
            Mark::Absent | Mark::Resting => {}
            Mark::Free => return None,
            Mark::Waiting(_, since) => {
                if bells.is_rung(number) {
                    return None;
                }
                if *since != at {
                    behind |= 1u64 << number;
                }
            }
        }
    }
    Some(behind)
}

/// How many seats wait.
pub(crate) fn waiting(marks: &[Mark]) -> u32
    requires { length marks.now ≤ 33 }
    ensures { result ≡ count_by waits marks.now }
{
    marks.iter().filter(|mark| waits(mark)).count() as u32
}

/// How many seats rest.
pub(crate) fn resting(marks: &[Mark]) -> u32
    requires { length marks.now ≤ 33 }
    ensures { result ≡ count_by rests marks.now }
{
    marks.iter().filter(|mark| rests(mark)).count() as u32
}
