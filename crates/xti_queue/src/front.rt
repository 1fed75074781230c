//! Taking from the start of waiting frames.

ghost use Rattle.std.specs.Prelude.{◌≡◌, ◌≤◌, ◌<◌, ◌+◌, ◌-◌, ◌++◌, [], ◌∷◌, ℕ, List, true, false, if◌then◌else◌, length, take, drop, vec_len, vec_capacity, IfOk, IfSome, IfNone, IsOk, OnErr};
ghost use Rattle.std.specs.VecDeque.{deque_len, deque_capacity};
ghost use Rattle.tpi_grammar.specs.declared.kind.TheConstants.{MOST_DATA};
ghost use Rattle.tpi_grammar.specs.Frame.{AreBytes};
ghost use Rattle.tpi_prim.specs.Primitive.{user_of};
ghost use Rattle.tpi_prim.specs.Fields.{kind_in, primitive_in};
ghost use Rattle.xti_model.specs.Symbols as waiting;
ghost use Rattle.xti_queue.specs.Indications.{can_wait, ends_message, begun};
ghost use Rattle.xti_queue.specs.Kept.{AllWait, IsWithin};
ghost use Rattle.xti_queue.specs.Front.{symbols_in, in_line, left_of, AreLastOf, AsBefore, HasRoomFor, IsTakenFrom, LeavesBehind, Stops};

use crate::queue::Piece;
use std::alloc::{AllocError, Global};
use std::collections::VecDeque;
use std::mem;
use tpi_prim::{Frame, Kind};
use xti_base::{BYTES_IN_VALUE, Octets};

/// The user data of a frame after the first bytes.
pub(crate) fn rest_of(frame: &Frame, taken: usize) -> &[u8]
    requires { taken ≤ length (user_of (primitive_in frame.now)) }
    ensures rest { result.now ≡ drop taken (user_of (primitive_in frame.now)) }
    ensures bytes { AreBytes result.now }
    ensures most { taken + length result.now ≤ MOST_DATA }
{
    &frame.user()[taken..]
}

/// Whether a message ends after a frame.
pub(crate) fn ends(frame: &Frame) -> bool
    requires { can_wait (kind_in frame.now) ≡ true }
    ensures { result ≡ ends_message (primitive_in frame.now) }
{
    match frame.kind() {
        Kind::T_DATA_IND | Kind::T_EXDATA_IND => !frame.more(),
        _ => true,
    }
}

/// How many bytes stand at the start, at most `max`, before an end.
fn run_len(held: &VecDeque<Frame>, taken: usize, max: usize) -> usize
    requires wait { AllWait held.now.items }
    requires within { IsWithin taken held.now.items }
    ensures { result ≡ length (waiting.front max (symbols_in taken held.now.items)) }
{
    let mut count = 0;
    let mut skipped = taken;
    for i in 0..held.len() {
        let frame = &held[i];
        let len = rest_of(frame, skipped).len();
        if max - count <= len {
            return max;
        }
        count += len;
        if ends(frame) {
            return count;
        }
        skipped = 0;
    }
    count
}

/// What taking from the first frame comes to.
#[derive(Debug, Clone, Copy, PartialEq, Eq)]
enum Step {
    /// A message ended.
    Ended,
    /// Nothing more may be taken.
    Stopped,
    /// The frame is gone, and its message goes on.
    More,
}

/// Takes what the first frame gives, up to `max` bytes in all.
fn take_front(
    held: &mut VecDeque<Frame>,
    taken: &mut usize,
    bytes: &mut Vec<u8>,
    max: usize,
) -> Step
    requires wait { AllWait held.old.items }
    requires within { IsWithin taken.old held.old.items }
    requires most { vec_len bytes.old ≤ max }
    requires are_bytes { AreBytes bytes.old.items }
    requires room { HasRoomFor bytes.old max (in_line bytes.old.items taken.old held.old.items) }
    ensures ended { result ≡ Step.Ended → in_line bytes.old.items taken.old held.old.items ≡
        bytes.new.items ++ waiting.end_of_message ∷ symbols_in taken.new held.new.items }
    ensures other { (result ≡ Step.Ended → ⊥) →
        in_line bytes.old.items taken.old held.old.items ≡ in_line bytes.new.items taken.new held.new.items }
    ensures stops { result ≡ Step.Stopped → Stops max (vec_len bytes.new) taken.new held.new.items }
    ensures left { (result ≡ Step.More → ⊥) →
        left_of max (vec_len bytes.old) taken.old held.old.items ≡ begun taken.new held.new.items }
    ensures goes_on { result ≡ Step.More →
        left_of max (vec_len bytes.old) taken.old held.old.items ≡
        left_of max (vec_len bytes.new) taken.new held.new.items }
    ensures falls { result ≡ Step.More → deque_len held.new < deque_len held.old }
    ensures wait { AllWait held.new.items }
    ensures within { IsWithin taken.new held.new.items }
    ensures most { vec_len bytes.new ≤ max }
    ensures are_bytes { AreBytes bytes.new.items }
    ensures items { AreLastOf held.old.items held.new.items }
    ensures shorter { length held.new.items ≤ length held.old.items }
    ensures bytes_capacity { vec_capacity bytes.old ≤ vec_capacity bytes.new }
    ensures capacity { deque_capacity held.new ≡ deque_capacity held.old }
{
    let Some(frame) = held.front() else {
        return Step::Stopped;
    };
    let rest = rest_of(frame, *taken);
    let count = rest.len().min(max - bytes.len());
    bytes.extend_from_slice(&rest[..count]).unwrap();
    if count < rest.len() {
        *taken += count;
        return Step::Stopped;
    }
    let ended = ends(frame);
    held.pop_front();
    *taken = 0;
    if ended { Step::Ended } else { Step::More }
}

/// Takes frames from the start until an end, `max` bytes, or the end of the queue.
fn take_run(held: &mut VecDeque<Frame>, taken: &mut usize, bytes: &mut Vec<u8>, max: usize) -> bool
    requires wait { AllWait held.old.items }
    requires within { IsWithin taken.old held.old.items }
    requires empty { bytes.old.items ≡ [] }
    requires room { HasRoomFor bytes.old max (symbols_in taken.old held.old.items) }
    ensures moved { symbols_in taken.old held.old.items ≡
        in_line (waiting.piece bytes.new.items result) taken.new held.new.items }
    ensures stops { result ≡ false → Stops max (vec_len bytes.new) taken.new held.new.items }
    ensures left { LeavesBehind max taken.old held.old.items taken.new held.new.items }
    ensures wait { AllWait held.new.items }
    ensures within { IsWithin taken.new held.new.items }
    ensures most { vec_len bytes.new ≤ max }
    ensures are_bytes { AreBytes bytes.new.items }
    ensures items { AreLastOf held.old.items held.new.items }
    ensures shorter { length held.new.items ≤ length held.old.items }
    ensures capacity { deque_capacity held.new ≡ deque_capacity held.old }
{
    loop {
        match take_front(held, taken, bytes, max) {
            Step::Ended => return true,
            Step::Stopped => return false,
            Step::More => {}
        }
    }
}

/// An empty list with room for so many bytes: the room that is kept where it is large enough, and new memory otherwise, which
/// leaves the kept room as it is.
fn with_room(alloc: Global, count: usize, room: &mut Vec<u8>) -> Result<Vec<u8>, AllocError>
    ensures empty { IfOk result (λ bytes. bytes.items ≡ []) }
    ensures room { IfOk result (λ bytes. count ≤ vec_capacity bytes) }
    ensures sure { count ≤ vec_capacity room.old → IsOk result }
{
    if room.capacity() < count {
        return Ok(Vec::with_capacity(alloc, count)?);
    }
    let mut bytes = mem::replace(room, Vec::new(alloc));
    bytes.clear();
    Ok(bytes)
}

/// A copy of bytes of one frame, in the kept room where they don't stand in the value itself.
fn copied(alloc: Global, bytes: &[u8], room: &mut Vec<u8>) -> Result<Octets, AllocError>
    ensures copy { IfOk result (λ o. o ≡ bytes.now) }
    ensures sure { length bytes.now ≤ vec_capacity room.old → IsOk result }
{
    if room.capacity() < bytes.len() || bytes.len() <= BYTES_IN_VALUE {
        return Octets::copy_of(alloc, bytes);
    }
    let mut copy = with_room(alloc, bytes.len(), room)?;
    copy.extend_from_slice(bytes).unwrap();
    Ok(Octets::from_vec(copy))
}

/// Takes what the first frame alone gives: its next `max` bytes where it has more, and all of it where a message ends after it.
/// `None` where the piece goes on after it, and where no frame waits; then, and where memory runs out, all is as before.
fn take_first(
    alloc: Global,
    held: &mut VecDeque<Frame>,
    taken: &mut usize,
    max: usize,
    room: &mut Vec<u8>,
) -> Result<Option<Piece>, AllocError>
    requires wait { AllWait held.old.items }
    requires within { IsWithin taken.old held.old.items }
    ensures piece { IfOk result (λ some. IfSome some (λ p.
        IsTakenFrom max taken.old held.old.items taken.new held.new.items p.bytes p.ended)) }
    ensures none { IfOk result (λ p. IfNone p (AsBefore held.old taken.old held.new taken.new)) }
    ensures kept { IfOk result (λ p. IfNone p (room.new ≡ room.old)) }
    ensures sure { max ≤ vec_capacity room.old → IsOk result }
    ensures err { OnErr result (AsBefore held.old taken.old held.new taken.new) }
    ensures capacity { deque_capacity held.new ≡ deque_capacity held.old }
{
    let Some(frame) = held.front() else {
        return Ok(None);
    };
    let rest = rest_of(frame, *taken);
    if max < rest.len() {
        let bytes = copied(alloc, &rest[..max], room)?;
        *taken += max;
        return Ok(Some(Piece {
            bytes,
            ended: false,
        }));
    }
    if !ends(frame) {
        return Ok(None);
    }
    let bytes = copied(alloc, rest, room)?;
    held.pop_front();
    *taken = 0;
    Ok(Some(Piece { bytes, ended: true }))
}

/// The list of these bytes. So few as stand in the value itself are copied there, and their memory is kept in the room.
fn listed(alloc: Global, bytes: Vec<u8>, room: &mut Vec<u8>) -> Octets
    ensures { result ≡ bytes.items }
{
    if bytes.len() > BYTES_IN_VALUE {
        return Octets::from_vec(bytes);
    }
    let few = Octets::copy_of(alloc, bytes.as_slice()).unwrap();
    *room = bytes;
    few
}

/// Takes from the frames at the start until an end, `max` bytes, or the end of the queue; where memory runs out all is as before.
pub(crate) fn take_piece(
    alloc: Global,
    held: &mut VecDeque<Frame>,
    taken: &mut usize,
    max: usize,
    room: &mut Vec<u8>,
) -> Result<Piece, AllocError>
    requires wait { AllWait held.old.items }
    requires within { IsWithin taken.old held.old.items }
    ensures piece { IfOk result (λ p.
        IsTakenFrom max taken.old held.old.items taken.new held.new.items p.bytes p.ended) }
    ensures sure { max ≤ vec_capacity room.old → IsOk result }
    ensures err { OnErr result (AsBefore held.old taken.old held.new taken.new) }
    ensures capacity { deque_capacity held.new ≡ deque_capacity held.old }
{
    if let Some(piece) = take_first(alloc, held, taken, max, room)? {
        return Ok(piece);
    }
    let count = run_len(held, *taken, max);
    let mut bytes = with_room(alloc, count, room)?;
    let ended = take_run(held, taken, &mut bytes, max);
    Ok(Piece {
        bytes: listed(alloc, bytes, room),
        ended,
    })
}
