//! The requests to connect that wait at an endpoint, and what is told of its own.

ghost use Rattle.std.specs.Prelude.{◌≡◌, ◌≤◌, ◌<◌, ◌+◌, ◌++◌, [], true, Some, None, is_some, length, map, max, remove, slice_get, IfSome, IfNone, OnOk, OnErr};
ghost use Rattle.std.specs.Option.{option_map};
ghost use Rattle.tpi_grammar.specs.declared.kind.Kind.TheVariants.{T_CONN_IND, T_CONN_CON, T_DISCON_IND};
ghost use Rattle.tpi_prim.specs.Fields.{kind_in};
ghost use Rattle.xti_base.specs.declared.limits.TheConstants.{MOST_TOUCHED};
ghost use Rattle.xti_model.specs.Cells.{listed};
ghost use Rattle.xti_model.specs.Calls.Listen.{taken_out};
ghost use Rattle.xti_model.specs.Endpoint.{find_number, without_number};
ghost use Rattle.xti_model.specs.Events.{some_wait};
ghost use Rattle.xti_model.specs.Sound.{is_sound_body, requests};
ghost use Rattle.xti_model.specs.Touched.{of_some, caller_cells};
ghost use Rattle.xti_end.specs.Callers.{caller_place, caller_with, numbers_at, numbers_of, request_with, unanswered, with_numbers, StandsFirstAt, StandsNowhere};
ghost use Rattle.xti_end.specs.Frames.{indication_of, request_in, confirmation_in, disconnect_in, seen_as, AreRequests, IsRequest};
ghost use Rattle.xti_end.specs.Held.{is_open, parts, with_confirmation, with_parts, without_pending, without_pending_at, without_outstanding, without_outstanding_at, without_disconnect_at};
ghost use Rattle.xti_end.specs.Held.{pending_at, outstanding_at, disconnect_at};
ghost use Rattle.xti_end.specs.Held.{AddsPending, AddsOutstanding, AddsDisconnect, OnlyRoomForDisconnects};

use crate::endpoint::Endpoint;
use std::alloc::AllocError;
use tpi_prim::Frame;
use xti_base::{Fd, Seq, State, write_over};
use xti_model::{Cells, Providers};

/// A request to connect: a T_CONN_IND, and the descriptor of the endpoint that asks.
#[derive(Drop)]
pub struct Ind {
    pub caller: Fd,
    pub frame: Frame,
}

impl Endpoint {
    /// The pending request at a place, a T_CONN_IND; `None` exactly past the end. Takes no memory.
    pub fn pending(&self, place: usize) -> Option<&Ind>
        requires { is_open self.now ≡ true }
        ensures indication { seen_as indication_of result ≡ pending_at self.now place }
        ensures kind { IfSome result (λ indication. kind_in indication.now.frame ≡ T_CONN_IND) }
    {
        self.waiting.pending.get(place)
    }

    /// Whether a pending request waits at the open endpoint.
    pub fn has_pending(&self) -> bool
        requires { is_open self.now ≡ true }
        ensures { result ≡ some_wait (parts self.now).pending }
    {
        !self.waiting.pending.is_empty()
    }

    /// Makes room for one more pending request; where memory runs out all is as before.
    pub fn reserve_pending(&mut self) -> Result<(), AllocError>
        ensures same { self.new ≡ record self.old { spare_pending = self.new.spare_pending } }
        ensures kept { self.old.spare_pending ≤ self.new.spare_pending }
        ensures spare { OnOk result (1 ≤ self.new.spare_pending) }
        ensures most { self.new.spare_pending ≤ max self.old.spare_pending 1 }
        ensures err { OnErr result (self.new ≡ self.old) }
    {
        self.waiting.pending.reserve()
    }

    /// Adds a pending request of a caller, a T_CONN_IND for which there must be spare room. Takes no memory.
    pub fn push_pending(&mut self, caller: Fd, frame: Frame)
        requires open { is_open self.old ≡ true }
        requires room { 1 ≤ self.old.spare_pending }
        requires kind { kind_in frame ≡ T_CONN_IND }
        ensures added { AddsPending (request_in caller.0 frame) self.old self.new }
        ensures spare { self.old.spare_pending ≤ self.new.spare_pending + 1 }
    {
        self.waiting.pending.push(Ind { caller, frame });
    }

    /// The outstanding request at a place, a T_CONN_IND; `None` exactly past the end. Takes no memory.
    pub fn outstanding(&self, place: usize) -> Option<&Ind>
        requires { is_open self.now ≡ true }
        ensures indication { seen_as indication_of result ≡ outstanding_at self.now place }
        ensures kind { IfSome result (λ indication. kind_in indication.now.frame ≡ T_CONN_IND) }
    {
        self.waiting.outstanding.get(place)
    }

    /// The disconnect at a place, a T_DISCON_IND; `None` exactly past the end. Takes no memory.
    pub fn disconnect(&self, place: usize) -> Option<&Frame>
        requires { is_open self.now ≡ true }
        ensures disconnect { seen_as disconnect_in result ≡ disconnect_at self.now place }
        ensures kind { IfSome result (λ disconnect. kind_in disconnect.now ≡ T_DISCON_IND) }
    {
        self.waiting.disconnects.get(place)
    }

    /// Whether a disconnect waits at the open endpoint.
    pub fn has_disconnect(&self) -> bool
        requires { is_open self.now ≡ true }
        ensures { result ≡ some_wait (parts self.now).disconnects }
    {
        !self.waiting.disconnects.is_empty()
    }

    /// Takes the disconnect at a place out, a T_DISCON_IND; the others stay in their order. Takes no memory.
    pub fn take_disconnect(&mut self, place: usize) -> Frame
        requires open { is_open self.old ≡ true }
        requires there { place < length (parts self.old).disconnects }
        ensures disconnect { Some (disconnect_in result) ≡ disconnect_at self.old place }
        ensures kind { kind_in result ≡ T_DISCON_IND }
        ensures taken { self.new ≡ with_parts (without_disconnect_at place) self.old }
    {
        self.waiting.disconnects.remove(place)
    }

    /// Makes room for one more disconnect; where memory runs out all is as before.
    pub fn reserve_disconnects(&mut self) -> Result<(), AllocError>
        ensures same { OnlyRoomForDisconnects self.old self.new }
        ensures kept { self.old.spare_disconnects ≤ self.new.spare_disconnects }
        ensures spare { OnOk result (1 ≤ self.new.spare_disconnects) }
        ensures most { self.new.spare_disconnects ≤ max self.old.spare_disconnects 1 }
        ensures err { OnErr result (self.new ≡ self.old) }
    {
        self.waiting.disconnects.reserve()
    }

    /// Adds a disconnect, a T_DISCON_IND for which there must be spare room. Takes no memory.
    pub fn push_disconnect(&mut self, frame: Frame)
        requires open { is_open self.old ≡ true }
        requires room { 1 ≤ self.old.spare_disconnects }
        requires kind { kind_in frame ≡ T_DISCON_IND }
        ensures added { AddsDisconnect (disconnect_in frame) self.old self.new }
        ensures spare { self.old.spare_disconnects ≤ self.new.spare_disconnects + 1 }
    {
        self.waiting.disconnects.push(frame);
    }

    /// The confirmation of its own request, a T_CONN_CON; `None` exactly where there is none. Takes no memory.
    pub fn confirmation(&self) -> Option<&Frame>
        requires { is_open self.now ≡ true }
        ensures confirmation { seen_as confirmation_in result ≡ (parts self.now).confirmation }
        ensures kind { IfSome result (λ frame. kind_in frame.now ≡ T_CONN_CON) }
    {
        self.open_parts().connection.confirmation.as_ref()
    }

    /// Whether the confirmation of its own request waits.
    pub fn has_confirmation(&self) -> bool
        requires { is_open self.now ≡ true }
        ensures { result ≡ is_some (parts self.now).confirmation }
    {
        self.confirmation().is_some()
    }

    /// Sets the confirmation of the open endpoint's own request, a T_CONN_CON. Takes no memory.
    pub fn set_confirmation(&mut self, frame: Frame)
        requires open { is_open self.old ≡ true }
        requires kind { kind_in frame ≡ T_CONN_CON }
        ensures { self.new ≡ with_parts (with_confirmation (confirmation_in frame)) self.old }
    {
        if let Some(parts) = &mut self.body {
            write_over(&mut parts.connection.confirmation, Some(frame));
        }
    }

    /// Takes the confirmation out, if there is one. Takes no memory.
    pub fn clear_confirmation(&mut self)
        requires { is_open self.old ≡ true }
        ensures { self.new ≡ with_parts (λ e. record e { confirmation = None }) self.old }
    {
        if let Some(parts) = &mut self.body {
            write_over(&mut parts.connection.confirmation, None);
        }
    }

    /// How many requests to connect the open endpoint hasn't answered.
    pub fn requests(&self) -> usize
        requires open { is_open self.now ≡ true }
        requires sound { is_sound_body self.now.body ≡ true }
        ensures { result ≡ requests (parts self.now) }
    {
        self.waiting.pending.len() + self.waiting.outstanding.len()
    }

    /// The outstanding request with this sequence number, a T_CONN_IND; `None` exactly where there is none. Takes no memory.
    pub fn request(&self, seq: Seq) -> Option<&Ind>
        requires { is_open self.now ≡ true }
        ensures request { seen_as indication_of result ≡ request_with seq.0 self.now }
        ensures kind { IfSome result (λ ind. IsRequest ind.now) }
    {
        find_number(self.waiting.outstanding.as_slice(), seq)
    }

    /// The caller of the outstanding request with this sequence number; `None` exactly where there is none. Takes no memory.
    pub fn caller(&self, seq: Seq) -> Option<Fd>
        requires { is_open self.now ≡ true }
        ensures { option_map (λ fd. fd.0) result ≡ caller_with seq.0 self.now }
    {
        let ind = find_number(self.waiting.outstanding.as_slice(), seq)?;
        Some(ind.caller)
    }

    /// Whether a pending request has this sequence number. Takes no memory.
    pub fn is_pending(&self, seq: Seq) -> bool
        requires { is_open self.now ≡ true }
        ensures { result ≡ is_some (find_number seq.0 (parts self.now).pending) }
    {
        find_number(self.waiting.pending.as_slice(), seq).is_some()
    }

    /// The pending request with this sequence number is gone, if it is there. Takes no memory.
    pub fn drop_pending(&mut self, seq: Seq)
        requires { is_open self.old ≡ true }
        ensures { self.new ≡ with_parts (without_pending seq.0) self.old }
    {
        if let Some(place) = number_place(self.waiting.pending.as_slice(), seq) {
            self.waiting.pending.discard(place);
        }
    }

    /// The caller and the sequence number of the request at a place, where the outstanding ones stand after the pending ones;
    /// `None` exactly past the end. Takes no memory.
    pub fn request_at(&self, place: usize) -> Option<(Fd, Seq)>
        requires { is_open self.now ≡ true }
        ensures { option_map numbers_of result ≡ numbers_at (unanswered (parts self.now)) place }
    {
        let pending = self.waiting.pending.as_slice();
        if place < pending.len() {
            caller_and_number(pending, place)
        } else {
            caller_and_number(self.waiting.outstanding.as_slice(), place - pending.len())
        }
    }

    /// The outstanding request with this sequence number is gone, if it is there. Takes no memory.
    fn drop_number(&mut self, seq: Seq)
        requires { is_open self.old ≡ true }
        ensures { self.new ≡ with_parts (without_outstanding seq.0) self.old }
    {
        if let Some(place) = number_place(self.waiting.outstanding.as_slice(), seq) {
            self.waiting.outstanding.discard(place);
        }
    }

    /// The outstanding request with this sequence number is gone; where it was the last one the state is T_IDLE. Takes no memory.
    pub fn take_out(&mut self, seq: Seq)
        requires { is_open self.old ≡ true }
        ensures { self.new ≡ with_parts (taken_out seq.0) self.old }
    {
        let is_last = self.waiting.outstanding.len() == 1;
        self.drop_number(seq);
        if is_last {
            self.set_state(State::T_IDLE);
        }
    }

    /// The cells of those who ask it for a connection, and were not answered. Takes no memory.
    pub fn callers(&self, p: &Providers) -> Cells
        requires { is_sound_body self.now.body ≡ true }
        ensures { result ≡ listed (of_some self.now.body (caller_cells p.now)) }
    {
        let outstanding = with_callers(Cells::new(), self.waiting.outstanding.as_slice(), p);
        with_callers(outstanding, self.waiting.pending.as_slice(), p)
    }
}

/// The request with this sequence number; `None` exactly where there is none.
fn find_number(inds: &[Ind], seq: Seq) -> Option<&Ind>
    requires { AreRequests inds.now }
    ensures found { seen_as indication_of result ≡ find_number seq.0 (map indication_of inds.now) }
    ensures kind { IfSome result (λ ind. IsRequest ind.now) }
{
    for ind in inds {
        if ind.frame.seq() == seq.0 {
            return Some(ind);
        }
    }
    None
}

/// The caller and the sequence number of the request at a place; `None` exactly past the end.
fn caller_and_number(inds: &[Ind], place: usize) -> Option<(Fd, Seq)>
    requires { AreRequests inds.now }
    ensures { option_map numbers_of result ≡ numbers_at (map indication_of inds.now) place }
{
    let ind = inds.get(place)?;
    Some((ind.caller, Seq(ind.frame.seq())))
}

/// Where the request with this sequence number stands; `None` exactly where there is none.
fn number_place(inds: &[Ind], seq: Seq) -> Option<usize>
    requires { AreRequests inds.now }
    ensures found { IfSome result (StandsFirstAt seq.0 inds.now) }
    ensures bound { IfSome result (λ place. place < length inds.now) }
    ensures none { IfNone result (StandsNowhere seq.0 inds.now) }
{
    for (place, ind) in inds.iter().enumerate() {
        if ind.frame.seq() == seq.0 {
            return Some(place);
        }
    }
    None
}

/// These cells, and those of the callers.
fn with_callers(mut cells: Cells, inds: &[Ind], p: &Providers) -> Cells
    requires { length cells + length inds.now ≤ MOST_TOUCHED }
    ensures cells { result ≡ with_numbers (map (caller_place p.now) inds.now) cells }
    ensures few { length result ≤ length cells + length inds.now }
{
    let mut place = inds.len();
    while place > 0 {
        place -= 1;
        cells.insert(p.place_of(inds[place].caller));
    }
    cells
}
