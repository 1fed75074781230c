//! Room for a second copy of a reply.

ghost use Rattle.std.specs.Prelude.{◌≡◌, ◌≤◌, ◌^◌, [], ℕ, length, sum, min, IfOk, IsTrue};
ghost use Rattle.xti_base.specs.declared.limits.TheConstants.{MOST_ADDRESS, MOST_OPTIONS};
ghost use Rattle.xti_model.specs.Families.{is_connection_news, is_received};
ghost use Rattle.xti_laws.specs.Replies.{lengths, lengths_of, news_lengths, bound_length, answered_length};
ghost use Rattle.xti_laws.specs.Replies.{IsShort, IsShortOutcome};
ghost use Rattle.xti_core.specs.Families.{has_no_bytes};
ghost use Rattle.xti_core.specs.Rooms.{datagram_lengths};

use std::alloc::{AllocError, Global};
use std::marker::Model;
use xti_base::limits::{MOST_ADDRESS, MOST_CONNECT_DATA, MOST_OPTIONS, MOST_SIZE};
use xti_base::{Octets, Room, let_go, or_drop};
use xti_model::{Call, Outcome, Reply};

/// The most bytes of an address that the provider chooses.
const LONGEST_CHOICE: usize = 4;

/// The most bytes that wait at an endpoint: those of its buffer, and of its peer's.
const TWO_BUFFERS: usize = 2 * MOST_SIZE as usize;

/// The fewest bytes of an option that is asked, and the most of one that is answered.
const SHORTEST_OPTION: usize = 16;

const LONGEST_ANSWER: usize = 20;

/// As many bytes as the caller takes, and no more than there are.
fn up_to(limit: u32, most: usize) -> usize
    ensures { result ≡ min limit most }
{
    (limit as usize).min(most)
}

/// The sum of the sizes of the caller's buffers, and no more than there are.
fn sum_up_to(sizes: &[u32], most: usize) -> usize
    requires { most ≤ 2 ^ 32 }
    ensures { result ≡ min (sum sizes.now) most }
{
    let mut total = 0;
    for size in sizes {
        total = (total + *size as usize).min(most);
    }
    total
}

/// The most bytes of the address that a bind answers.
fn bound_length(address: &[u8]) -> usize
    ensures { result ≡ bound_length address.now }
{
    if address.is_empty() {
        LONGEST_CHOICE
    } else {
        address.len().min(MOST_ADDRESS)
    }
}

/// The most bytes of the answers to options.
fn answered_length(options: &[u8]) -> usize
    ensures { result ≡ answered_length options.now }
{
    LONGEST_ANSWER * (options.len().min(MOST_OPTIONS) / SHORTEST_OPTION)
}

/// The same bytes in room that was taken for them. Takes no memory.
fn copy_in(mut room: Room, bytes: &Octets) -> Octets
    requires unused { room.bytes ≡ [] }
    requires room { length bytes.now ≤ room.spare }
    ensures { result ≡ bytes.now }
{
    room.append(bytes.as_slice());
    room.finish()
}

/// A reply that has no field of bytes, once more.
fn without_bytes(reply: &Reply) -> Reply
    requires { IsTrue (has_no_bytes reply.now) }
    ensures { result ≡ reply.now }
{
    match reply {
        Reply::Plain => Reply::Plain,
        Reply::Opened { fd } => Reply::Opened { fd: *fd },
        Reply::Sent { n } => Reply::Sent { n: *n },
        Reply::Seen { event } => Reply::Seen { event: *event },
        Reply::Stands { state } => Reply::Stands { state: *state },
        Reply::Limits { info } => Reply::Limits { info: *info },
        Reply::Refused { errno } => Reply::Refused { errno: *errno },
        Reply::Look { event } => Reply::Look { event: *event },
        Reply::Overflow { seq } => Reply::Overflow { seq: *seq },
        _ => unreachable!(),
    }
}

/// Room for the fields of bytes of a reply, in their order, which is taken before the reply is there.
#[derive(Drop)]
pub struct Spare {
    first: Room,
    second: Room,
    third: Room,
}

impl Model for Spare {
    ghost use Rattle.std.specs.Prelude.{◌≡◌, []};
    ghost use Rattle.xti_laws.specs.Replies.{Lengths, lengths};

    ghost Value = { Lengths };

    ghost view = { λ s. lengths s.first.spare s.second.spare s.third.spare };

    ghost invariant = { λ s. (s.first.bytes ≡ []) × (s.second.bytes ≡ []) × (s.third.bytes ≡ []) };
}

impl Spare {
    /// Room for fields of these lengths.
    fn with(alloc: Global, first: usize, second: usize, third: usize) -> Result<Spare, AllocError>
        ensures { IfOk result (λ s. s ≡ lengths first second third) }
    {
        let first = Room::new(alloc, first)?;
        let second = or_drop!(Room::new(alloc, second), first);
        let third = or_drop!(Room::new(alloc, third), first, second);
        Ok(Spare {
            first,
            second,
            third,
        })
    }

    /// Room for an address, options and data that go with a connection.
    fn for_news(alloc: Global, amax: u32, omax: u32, umax: u32) -> Result<Spare, AllocError>
        ensures { IfOk result (λ s. s ≡ news_lengths amax omax umax) }
    {
        Spare::with(
            alloc,
            up_to(amax, MOST_ADDRESS),
            up_to(omax, MOST_OPTIONS),
            up_to(umax, MOST_CONNECT_DATA),
        )
    }

    /// Room for the address, the options and so many bytes of a datagram.
    fn for_datagram(alloc: Global, amax: u32, omax: u32, bytes: usize) -> Result<Spare, AllocError>
        ensures { IfOk result (λ s. s ≡ datagram_lengths amax omax bytes) }
    {
        Spare::with(
            alloc,
            up_to(amax, MOST_ADDRESS),
            up_to(omax, MOST_OPTIONS),
            bytes,
        )
    }

    /// Room for the reply of a step of the call, by its arguments and the limits of the profile.
    pub fn of(alloc: Global, call: &Call) -> Result<Spare, AllocError>
        ensures { IfOk result (λ s. s ≡ lengths_of call.now) }
    {
        match call {
            Call::TBind { addr, amax, .. } => {
                Spare::with(alloc, up_to(*amax, bound_length(addr.as_slice())), 0, 0)
            }
            Call::TConnect {
                amax,
                omax,
                umax,
                ..
            } => Spare::for_news(alloc, *amax, *omax, *umax),
            Call::TRcvConnect {
                amax,
                omax,
                umax,
                ..
            } => Spare::for_news(alloc, *amax, *omax, *umax),
            Call::TListen {
                amax,
                omax,
                umax,
                ..
            } => Spare::for_news(alloc, *amax, *omax, *umax),
            Call::TRcv { max, .. } => Spare::with(alloc, up_to(*max, TWO_BUFFERS), 0, 0),
            Call::TRcvV { sizes, .. } => {
                Spare::with(alloc, sum_up_to(sizes.as_slice(), TWO_BUFFERS), 0, 0)
            }
            Call::TRcvDis { umax, .. } | Call::TRcvRelData { umax, .. } => {
                Spare::with(alloc, up_to(*umax, MOST_CONNECT_DATA), 0, 0)
            }
            Call::TRcvUData {
                max,
                amax,
                omax,
                ..
            } => Spare::for_datagram(alloc, *amax, *omax, up_to(*max, MOST_SIZE as usize)),
            Call::TRcvVUData {
                sizes,
                amax,
                omax,
                ..
            } => Spare::for_datagram(
                alloc,
                *amax,
                *omax,
                sum_up_to(sizes.as_slice(), MOST_SIZE as usize),
            ),
            Call::TRcvUDErr { amax, omax, .. } => Spare::for_datagram(alloc, *amax, *omax, 0),
            Call::TGetProtAddr { amax, pmax, .. } => Spare::with(
                alloc,
                up_to(*amax, MOST_ADDRESS),
                up_to(*pmax, MOST_ADDRESS),
                0,
            ),
            Call::TOptMgmt { opt, omax, .. } => {
                Spare::with(alloc, up_to(*omax, answered_length(opt.as_slice())), 0, 0)
            }
            _ => Spare::with(alloc, 0, 0, 0),
        }
    }

    /// One field once more.
    fn one(self, field: &Octets) -> Octets
        requires { length field.now ≤ self.first }
        ensures { result ≡ field.now }
    {
        let Spare {
            first,
            second,
            third,
        } = self;
        let_go(second);
        let_go(third);
        copy_in(first, field)
    }

    /// Two fields once more.
    fn two(self, one: &Octets, other: &Octets) -> (Octets, Octets)
        requires one { length one.now ≤ self.first }
        requires other { length other.now ≤ self.second }
        ensures { (result.0 ≡ one.now) × (result.1 ≡ other.now) }
    {
        let Spare {
            first,
            second,
            third,
        } = self;
        let_go(third);
        (copy_in(first, one), copy_in(second, other))
    }

    /// Three fields once more.
    fn three(self, one: &Octets, other: &Octets, last: &Octets) -> (Octets, Octets, Octets)
        requires one { length one.now ≤ self.first }
        requires other { length other.now ≤ self.second }
        requires last { length last.now ≤ self.third }
        ensures { (result.0 ≡ one.now) × (result.1 ≡ other.now) × (result.2 ≡ last.now) }
    {
        let Spare {
            first,
            second,
            third,
        } = self;
        (
            copy_in(first, one),
            copy_in(second, other),
            copy_in(third, last),
        )
    }

    /// What the other side asked or answered about a connection, once more.
    fn connection_news(self, reply: &Reply) -> Reply
        requires family { IsTrue (is_connection_news reply.now) }
        requires short { IsShort self reply.now }
        ensures { result ≡ reply.now }
    {
        match reply {
            Reply::Connected { addr, opt, udata } => {
                let (addr, opt, udata) = self.three(addr, opt, udata);
                Reply::Connected { addr, opt, udata }
            }
            Reply::Listened {
                seq,
                addr,
                opt,
                udata,
            } => {
                let (addr, opt, udata) = self.three(addr, opt, udata);
                Reply::Listened {
                    seq: *seq,
                    addr,
                    opt,
                    udata,
                }
            }
            Reply::Discon { reason, seq, udata } => Reply::Discon {
                reason: *reason,
                seq: *seq,
                udata: self.one(udata),
            },
            Reply::RelData { udata } => Reply::RelData {
                udata: self.one(udata),
            },
            _ => unreachable!(),
        }
    }

    /// Data, a datagram or the error of a datagram, once more.
    fn received(self, reply: &Reply) -> Reply
        requires family { IsTrue (is_received reply.now) }
        requires short { IsShort self reply.now }
        ensures { result ≡ reply.now }
    {
        match reply {
            Reply::Got { bytes, flags } => Reply::Got {
                bytes: self.one(bytes),
                flags: *flags,
            },
            Reply::UData {
                addr,
                opt,
                bytes,
                flags,
            } => {
                let (addr, opt, bytes) = self.three(addr, opt, bytes);
                Reply::UData {
                    addr,
                    opt,
                    bytes,
                    flags: *flags,
                }
            }
            Reply::UDErr { addr, opt, code } => {
                let (addr, opt) = self.two(addr, opt);
                Reply::UDErr {
                    addr,
                    opt,
                    code: *code,
                }
            }
            _ => unreachable!(),
        }
    }

    /// The same reply once more, in the room. Takes no memory.
    pub fn reply(self, reply: &Reply) -> Reply
        requires { IsShort self reply.now }
        ensures { result ≡ reply.now }
    {
        match reply {
            Reply::Bound { addr, qlen } => Reply::Bound {
                addr: self.one(addr),
                qlen: *qlen,
            },
            Reply::Addresses { local, peer } => {
                let (local, peer) = self.two(local, peer);
                Reply::Addresses { local, peer }
            }
            Reply::Options { result, opt } => Reply::Options {
                result: *result,
                opt: self.one(opt),
            },
            Reply::Connected { .. }
            | Reply::Listened { .. }
            | Reply::Discon { .. }
            | Reply::RelData { .. } => self.connection_news(reply),
            Reply::Got { .. } | Reply::UData { .. } | Reply::UDErr { .. } => self.received(reply),
            Reply::Plain
            | Reply::Opened { .. }
            | Reply::Sent { .. }
            | Reply::Seen { .. }
            | Reply::Stands { .. }
            | Reply::Limits { .. }
            | Reply::Refused { .. }
            | Reply::Look { .. }
            | Reply::Overflow { .. } => {
                let_go(self);
                without_bytes(reply)
            }
        }
    }

    /// The same outcome of a step once more. Takes no memory.
    pub fn copy(self, outcome: &Outcome) -> Outcome
        requires { IsShortOutcome self outcome.now }
        ensures { result ≡ outcome.now }
    {
        match outcome {
            Outcome::Done(reply) => Outcome::Done(self.reply(reply)),
            Outcome::Part { taken } => {
                let_go(self);
                Outcome::Part { taken: *taken }
            }
        }
    }
}
