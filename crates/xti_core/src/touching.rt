//! The cells that a call touches.

ghost use Rattle.std.specs.Prelude.{◌≡◌, ◌≤◌, ◌<◌, ◌∷◌, [], true, length, List, ℕ, ◌+◌, option_to_list};
ghost use Rattle.std.specs.List.{AllByRecursion};
ghost use Rattle.xti_base.specs.declared.limits.TheConstants.{MOST_TOUCHED};
ghost use Rattle.xti_model.specs.Cells.{listed};
ghost use Rattle.xti_model.specs.Sound.{is_sound_body};
ghost use Rattle.xti_model.specs.Switch.{bound, listener, opening_place};
ghost use Rattle.xti_model.specs.Touched.{touched, of_some, cell_of};
ghost use Rattle.xti_model.specs.World.{place_of};
ghost use Rattle.xti_end.specs.Held.{is_open, parts};
ghost use Rattle.xti_lent.specs.Lending.{cells};
ghost use Rattle.xti_lent.specs.Fit.{AtOwnPlaces, IsSound};
ghost use Rattle.xti_core.specs.Touches.{number_of, lent_switch, known, told, marked_by, with_switch, opening_cells, closing_cells, accepting_cells, disconnecting_cells, receiving_cell, listening_cell, calling_cell, connected_cell, looking_cells, HasRoomForTwo, ListsWith};

use xti_base::{Fd, Prov, Seq};
use xti_end::Endpoint;
use xti_lent::{Lent, is_provider};
use xti_model::{Call, Cells};

/// The descriptor that is bound to the address, as far as the switch is lent. Takes no memory.
pub(crate) fn bound(lent: &Lent, prov: Prov, addr: &[u8]) -> Option<Fd>
    ensures { number_of result ≡ bound (lent_switch lent.now) prov addr.now }
{
    let registry = lent.find_registry()?;
    registry.bound(prov, addr, false)
}

/// The least descriptor but this one that listens at the address, as far as the switch is lent.
fn listener(lent: &Lent, prov: Prov, addr: &[u8], except: Fd) -> Option<Fd>
    ensures { number_of result ≡ listener (lent_switch lent.now) prov addr.now except.0 }
{
    let registry = lent.find_registry()?;
    registry.listener(prov, addr, except)
}

/// The place that opens, as far as the switch is lent.
fn opening_place(lent: &Lent, prov: Prov) -> Option<u32>
    ensures { result ≡ opening_place lent.now.providers (lent_switch lent.now) prov }
{
    if !is_provider(prov) {
        return None;
    }
    let registry = lent.find_registry()?;
    registry.free_place(lent.providers())
}

/// These cells, and one more where it is named. Takes no memory.
fn with(mut cells: Cells, cell: Option<u32>) -> Cells
    requires { length cells < MOST_TOUCHED }
    ensures cells { ListsWith cell cells result }
    ensures few { length result ≤ length cells + 1 }
{
    if let Some(n) = cell {
        cells.insert(n);
    }
    cells
}

/// The place of a descriptor that is named.
fn place_of_named(lent: &Lent, fd: Option<Fd>) -> Option<u32>
    ensures { option_to_list result ≡ cell_of lent.now.providers (number_of fd) }
{
    match fd {
        Some(fd) => Some(lent.place_of(fd)),
        None => None,
    }
}

/// The cell of a descriptor that is named.
fn named_cell(lent: &Lent, fd: Option<Fd>) -> Cells
    ensures { result ≡ listed (cell_of lent.now.providers (number_of fd)) }
{
    with(Cells::new(), place_of_named(lent, fd))
}

/// The cells of an open: the switch's, and that of the place that opens.
fn opening_cells(lent: &Lent, prov: Prov) -> Cells
    ensures { result ≡ opening_cells lent.now prov }
{
    let place = with(Cells::new(), opening_place(lent, prov));
    with(place, Some(lent.providers().switch_number()))
}

/// The cell of a descriptor, and one more where it is named.
fn own_cells(lent: &Lent, fd: Fd, other: Option<u32>) -> Cells
    ensures { result ≡ listed (place_of lent.now.providers fd.0 ∷ option_to_list other) }
{
    let others = with(Cells::new(), other);
    with(others, Some(lent.place_of(fd)))
}

/// These cells, the switch's and a descriptor's.
fn with_own_and_switch(lent: &Lent, others: Cells, fd: Fd) -> Cells
    requires { HasRoomForTwo others }
    ensures { (ns : List ℕ) → others ≡ listed ns → result ≡ with_switch lent.now fd.0 ns }
{
    let switch = with(others, Some(lent.providers().switch_number()));
    with(switch, Some(lent.place_of(fd)))
}

/// The cell of a descriptor, the switch's, and one more where it is named.
fn switch_cells(lent: &Lent, fd: Fd, other: Option<u32>) -> Cells
    ensures { result ≡ with_switch lent.now fd.0 (option_to_list other) }
{
    with_own_and_switch(lent, with(Cells::new(), other), fd)
}

/// The cells of the other endpoints that an open endpoint knows: its peer, its listener and its callers.
fn known_cells(lent: &Lent, e: &Endpoint) -> Cells
    requires { is_sound_body e.now.body ≡ true }
    ensures cells { result ≡ listed (of_some e.now.body (known lent.now.providers)) }
    ensures few { HasRoomForTwo result }
{
    let asking = with(
        e.callers(lent.providers()),
        place_of_named(lent, e.target()),
    );
    with(asking, place_of_named(lent, e.peer()))
}

/// The cells of a close.
fn closing_cells(lent: &Lent, fd: Fd) -> Cells
    requires places { AtOwnPlaces lent.now }
    requires sound { AllByRecursion IsSound lent.now.held }
    ensures { result ≡ closing_cells lent.now fd.0 }
{
    match lent.open_endpoint(fd) {
        Some(e) => with_own_and_switch(lent, known_cells(lent, e), fd),
        None => with_own_and_switch(lent, Cells::new(), fd),
    }
}

/// The place of the endpoint that is bound to the address at the provider of this one, as far as the switch is lent.
fn bound_place(lent: &Lent, fd: Fd, addr: &[u8]) -> Option<u32>
    requires { AtOwnPlaces lent.now }
    ensures { option_to_list result ≡ receiving_cell lent.now fd.0 addr.now }
{
    match lent.open_endpoint(fd) {
        Some(e) => place_of_named(lent, bound(lent, e.prov(), addr)),
        None => None,
    }
}

/// The same of the other one that listens there.
fn listening_place(lent: &Lent, fd: Fd, addr: &[u8]) -> Option<u32>
    requires { AtOwnPlaces lent.now }
    ensures { option_to_list result ≡ listening_cell lent.now fd.0 addr.now }
{
    match lent.open_endpoint(fd) {
        Some(e) => place_of_named(lent, listener(lent, e.prov(), addr, fd)),
        None => None,
    }
}

/// The place of the caller that waits for an answer under the number.
fn calling_place(lent: &Lent, fd: Fd, seq: Seq) -> Option<u32>
    requires { AtOwnPlaces lent.now }
    ensures { option_to_list result ≡ calling_cell lent.now fd.0 seq.0 }
{
    match lent.open_endpoint(fd) {
        Some(e) => place_of_named(lent, e.caller(seq)),
        None => None,
    }
}

/// The place of the peer.
fn peer_place(lent: &Lent, fd: Fd) -> Option<u32>
    requires { AtOwnPlaces lent.now }
    ensures { option_to_list result ≡ connected_cell lent.now fd.0 }
{
    match lent.open_endpoint(fd) {
        Some(e) => place_of_named(lent, e.peer()),
        None => None,
    }
}

/// The cells of an accept.
fn accepting_cells(lent: &Lent, fd: Fd, resfd: Fd, seq: Seq) -> Cells
    requires { AtOwnPlaces lent.now }
    ensures { result ≡ accepting_cells lent.now fd.0 resfd.0 seq.0 }
{
    let caller = with(Cells::new(), calling_place(lent, fd, seq));
    let both = with(caller, Some(lent.place_of(resfd)));
    with_own_and_switch(lent, both, fd)
}

/// The cells of those whom an open endpoint's disconnect tells: its peer, its listener, and the caller with the number.
fn told_cells(lent: &Lent, e: &Endpoint, seq: Seq) -> Cells
    requires { is_open e.now ≡ true }
    ensures cells { result ≡ listed (told lent.now.providers seq.0 (parts e.now)) }
    ensures few { HasRoomForTwo result }
{
    let caller = with(Cells::new(), place_of_named(lent, e.caller(seq)));
    let asking = with(caller, place_of_named(lent, e.target()));
    with(asking, place_of_named(lent, e.peer()))
}

/// The cells of a disconnect.
fn disconnecting_cells(lent: &Lent, fd: Fd, seq: Seq) -> Cells
    requires { AtOwnPlaces lent.now }
    ensures { result ≡ disconnecting_cells lent.now fd.0 seq.0 }
{
    match lent.open_endpoint(fd) {
        Some(e) => with(told_cells(lent, e, seq), Some(lent.place_of(fd))),
        None => own_cells(lent, fd, None),
    }
}

/// The cells of an open endpoint's datagram mark.
fn marked_cells(lent: &Lent, e: &Endpoint) -> Cells
    requires { is_open e.now ≡ true }
    ensures cells { result ≡ listed (marked_by lent.now (parts e.now)) }
    ensures few { HasRoomForTwo result }
{
    match e.flow_datagram() {
        Some(address) => {
            let receiver = bound(lent, e.prov(), address.as_slice());
            let marked = with(Cells::new(), place_of_named(lent, receiver));
            with(marked, Some(lent.providers().switch_number()))
        }
        None => Cells::new(),
    }
}

/// The cells of a look.
fn looking_cells(lent: &Lent, fd: Fd) -> Cells
    requires { AtOwnPlaces lent.now }
    ensures { result ≡ looking_cells lent.now fd.0 }
{
    match lent.open_endpoint(fd) {
        Some(e) => {
            let others = with(marked_cells(lent, e), place_of_named(lent, e.peer()));
            with(others, Some(lent.place_of(fd)))
        }
        None => own_cells(lent, fd, None),
    }
}

/// The cells that a call touches, as far as the lent ones tell, in rising order: with nothing lent, that of its descriptor,
/// and that of the switch where each such call needs it. Takes no memory.
///
/// A step is settled by these cells of a whole world, and changes no others: the law `touched_cells_settle_a_step`. Once the
/// lent cells have all that is named here, these are the cells that the call touches in the whole world, and a step on them is
/// the step of that world: the law `some_cells_are_enough`.
pub fn touch(call: &Call, lent: &Lent) -> Cells
    requires places { AtOwnPlaces lent.now }
    requires sound { AllByRecursion IsSound lent.now.held }
    ensures { result ≡ touched lent.now.providers (cells lent.now) call.now }
{
    match call {
        Call::TOpen { prov, .. } => opening_cells(lent, *prov),
        Call::TClose { fd } => closing_cells(lent, *fd),
        Call::TBind { fd, .. } | Call::TUnbind { fd } => switch_cells(lent, *fd, None),
        Call::TConnect { fd, addr, .. } => {
            switch_cells(lent, *fd, listening_place(lent, *fd, addr.as_slice()))
        }
        Call::TAccept { fd, resfd, seq, .. } => accepting_cells(lent, *fd, *resfd, *seq),
        Call::TSnd { fd, .. }
        | Call::TSndV { fd, .. }
        | Call::TSndRel { fd }
        | Call::TSndRelData { fd, .. } => own_cells(lent, *fd, peer_place(lent, *fd)),
        Call::TSndDis { fd, seq, .. } => disconnecting_cells(lent, *fd, *seq),
        Call::TSndUData { fd, addr, .. } | Call::TSndVUData { fd, addr, .. } => {
            switch_cells(lent, *fd, bound_place(lent, *fd, addr.as_slice()))
        }
        Call::TLookAt { fd } => looking_cells(lent, *fd),
        _ => named_cell(lent, call.fd()),
    }
}
