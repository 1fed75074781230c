//! Which cells a step gives back, and which it enters next.

ghost use Rattle.std.specs.Prelude.{◌≡◌, ◌<◌, ◌≤◌, ◌+◌, ◌&&◌, ℕ, true, false, not, nat_lt, MatchBool, MatchOption};
ghost use Rattle.std.specs.List.{find, list_all};
ghost use Rattle.xti_model.specs.World.{is_among, places};
ghost use Rattle.xti_lent.specs.Fit.{AllLent};
ghost use Rattle.xti_lent.specs.Lending.{is_lent};
ghost use Rattle.xti_core.specs.Standing.{IsLoan};
ghost use Rattle.xti_gather.specs.Orders.{AllBelow, SomeNotBelow, LentWithin, IsLeastMissing};

use xti_lent::Lent;
use xti_model::Cells;

/// Whether the number is one of these.
fn is_among(cells: &Cells, n: u32) -> bool
    ensures { result ≡ is_among cells.now n }
{
    for place in 0..cells.len() {
        let Some(m) = cells.get(place) else {
            unreachable!()
        };
        if m == n {
            return true;
        }
    }
    false
}

/// The first of the places that is not one of these cells.
fn first_beside(places: &[u32], cells: &Cells) -> Option<u32>
    ensures { result ≡ find (λ n. not (is_among cells.now n)) places.now }
{
    places
        .iter()
        .copied()
        .find(|place| !is_among(cells, *place))
}

/// Whether the cell is lent and is not one of these.
fn is_surplus(lent: &Lent, cells: &Cells, cell: u32) -> bool
    ensures { result ≡ (is_lent lent.now cell && not (is_among cells.now cell)) }
{
    lent.has(cell) && !is_among(cells, cell)
}

/// A cell that is lent and is not one of these, first the switch, for which most others wait; `None` exactly where there is none.
pub(crate) fn surplus(lent: &Lent, cells: &Cells) -> Option<u32>
    requires { IsLoan lent.now }
    ensures { MatchOption result (LentWithin lent.now cells.now)
        (λ n. (is_lent lent.now n ≡ true) × (is_among cells.now n ≡ false)) }
{
    let switch = lent.providers().switch_number();
    if is_surplus(lent, cells, switch) {
        return Some(switch);
    }
    first_beside(lent.places(), cells)
}

/// Whether these are the same cells.
pub(crate) fn are_same(cells: &Cells, others: &Cells) -> bool
    ensures { result ≡ true → cells.now ≡ others.now }
{
    if cells.len() != others.len() {
        return false;
    }
    for place in 0..cells.len() {
        let Some(n) = cells.get(place) else {
            return false;
        };
        let Some(m) = others.get(place) else {
            return false;
        };
        if n != m {
            return false;
        }
    }
    true
}

/// The least of these cells that is not lent; `None` exactly where all are. Takes no memory.
pub fn missing(lent: &Lent, cells: &Cells) -> Option<u32>
    ensures { MatchOption result (AllLent lent.now cells.now) (IsLeastMissing lent.now cells.now) }
{
    for place in 0..cells.len() {
        let Some(n) = cells.get(place) else {
            unreachable!()
        };
        if !lent.has(n) {
            return Some(n);
        }
    }
    None
}

/// Whether all the places are lower than the number.
fn all_lower(places: &[u32], cell: u32) -> bool
    ensures { result ≡ list_all (λ n. nat_lt n cell) places.now }
{
    places.iter().all(|place| *place < cell)
}

/// Whether every cell that is lent has a lower number than this one. Takes no memory.
pub fn all_below(lent: &Lent, cell: u32) -> bool
    requires loan { IsLoan lent.now }
    requires cell { cell < places lent.now.providers + 1 }
    ensures { MatchBool result (AllBelow lent.now cell) (SomeNotBelow lent.now cell) }
{
    if lent.has(lent.providers().switch_number()) {
        return false;
    }
    all_lower(lent.places(), cell)
}
