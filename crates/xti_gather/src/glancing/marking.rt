//! The cells that a survey wants are marked.

ghost use Rattle.std.specs.Prelude.{◌≡◌, ◌<◌, ◌&&◌, not, length, MatchOption};
ghost use Rattle.std.specs.List.{AllByRecursion};
ghost use Rattle.xti_lent.specs.Fit.{AtOwnPlaces, IsSound};
ghost use Rattle.xti_lent.specs.Lending.{is_lent};
ghost use Rattle.xti_gather.specs.Marks.{is_marked, looked_at, AllMarked, AreFor, CanMark, HaveRoomFor, IsFirstUnlent, Keep, MarkedAreLent};

use xti_base::Fd;
use xti_core::touch;
use xti_lent::Lent;
use xti_model::{Call, Cells};

/// Marks these cells.
fn mark(marks: &mut [bool], cells: &Cells)
    requires { AllByRecursion (λ n. n < length marks.old) cells.now }
    ensures length { length marks.new ≡ length marks.old }
    ensures kept { Keep marks.old marks.new }
    ensures marked { AllMarked marks.new cells.now }
{
    for place in 0..cells.len() {
        let Some(cell) = cells.get(place) else {
            unreachable!()
        };
        marks[cell as usize] = true;
    }
}

/// The cells that a look at the descriptor touches, as the lent cells tell.
fn looked_at(lent: &Lent, fd: Fd) -> Cells
    requires places { AtOwnPlaces lent.now }
    requires sound { AllByRecursion IsSound lent.now.held }
    ensures { result ≡ looked_at lent.now fd }
{
    touch(&Call::TLookAt { fd }, lent)
}

/// Marks each cell that a look at one of the descriptors touches, as the lent cells tell.
pub(crate) fn mark_looks(marks: &mut [bool], lent: &Lent, fds: &[Fd])
    requires places { AtOwnPlaces lent.now }
    requires sound { AllByRecursion IsSound lent.now.held }
    requires room { CanMark lent.now marks.old }
    ensures length { length marks.new ≡ length marks.old }
    ensures kept { Keep marks.old marks.new }
    ensures marked { AllByRecursion (AreFor lent.now marks.new) fds.now }
{
    for fd in fds {
        mark(marks, &looked_at(lent, *fd));
    }
}

/// Whether the cell is marked.
pub(crate) fn is_marked(marks: &[bool], cell: u32) -> bool
    requires { cell < length marks.now }
    ensures { result ≡ is_marked marks.now cell }
{
    marks[cell as usize]
}

/// Whether the cell is marked and isn't lent.
fn is_unlent(marks: &[bool], lent: &Lent, cell: u32) -> bool
    requires { cell < length marks.now }
    ensures { result ≡ (is_marked marks.now cell && not (is_lent lent.now cell)) }
{
    is_marked(marks, cell) && !lent.has(cell)
}

/// The first marked cell that isn't lent; `None` exactly where all are.
pub(crate) fn first_unlent(marks: &[bool], lent: &Lent) -> Option<u32>
    requires { HaveRoomFor lent.now marks.now }
    ensures { MatchOption result
        (MarkedAreLent lent.now marks.now)
        (IsFirstUnlent lent.now marks.now) }
{
    for cell in 0..lent.providers().places() + 1 {
        if is_unlent(marks, lent, cell) {
            return Some(cell);
        }
    }
    None
}
