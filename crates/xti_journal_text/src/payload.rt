//! What calls send.

ghost use Rattle.std.specs.Prelude.{◌≡◌, length};
ghost use Rattle.std.specs.List.{concat};
ghost use Rattle.xti_model.specs.Streams.{taken_after};
ghost use Rattle.xti_model.specs.Families.{is_error};
ghost use Rattle.xti_journal_text.specs.Summaries.{is_ok, grown};
ghost use Rattle.xti_journal_text.specs.Counting.{capped, payload_of, SendsAtStep};

use xti_base::Octets;
use xti_model::{Call, Outcome, Reply};

/// What a call sends.
#[derive(Clone, Copy)]
pub(crate) enum Payload {
    /// Nothing, or data that goes with a request, a release or a disconnect.
    Nothing,
    /// Bytes of a connection, which are taken step by step.
    Stream,
    /// A datagram, which is taken whole.
    Datagram { bytes: u64 },
}

/// How many bytes the parts have, as far as 64 bits hold it.
fn total(parts: &[Octets]) -> u64
    ensures { result ≡ capped (length (concat parts.now)) }
{
    let mut total = 0u64;
    for part in parts {
        total = total.saturating_add(part.as_slice().len() as u64);
    }
    total
}

/// Whether the call failed.
pub(crate) fn is_error(reply: &Reply) -> bool
    ensures { result ≡ is_error reply.now }
{
    match reply {
        Reply::Refused { .. } => true,
        Reply::Look { .. } => true,
        Reply::Overflow { .. } => true,
        _ => false,
    }
}

/// Whether the call is done without an error.
pub(crate) fn is_ok(outcome: &Outcome) -> bool
    ensures { result ≡ is_ok outcome.now }
{
    match outcome {
        Outcome::Done(reply) => !is_error(reply),
        Outcome::Part { .. } => false,
    }
}

/// By how many bytes the count of those that are taken grew.
fn grown(before: u32, outcome: &Outcome) -> u32
    ensures { result ≡ grown before (taken_after outcome.now) }
{
    match outcome {
        Outcome::Part { taken } => taken.saturating_sub(before),
        Outcome::Done(Reply::Sent { n }) => n.saturating_sub(before),
        Outcome::Done(_) => 0,
    }
}

impl Payload {
    /// What the call sends.
    pub(crate) fn of(call: &Call) -> Payload
        ensures { result ≡ payload_of call.now }
    {
        match call {
            Call::TSnd { .. } => Payload::Stream,
            Call::TSndV { .. } => Payload::Stream,
            Call::TSndUData { bytes, .. } => Payload::Datagram {
                bytes: bytes.as_slice().len() as u64,
            },
            Call::TSndVUData { parts, .. } => Payload::Datagram {
                bytes: total(parts.as_slice()),
            },
            _ => Payload::Nothing,
        }
    }

    /// How many bytes a step sent, before which so many were taken.
    pub(crate) fn sent(self, before: u32, outcome: &Outcome) -> u64
        ensures { SendsAtStep self before outcome.now result }
    {
        match self {
            Payload::Nothing => 0,
            Payload::Stream => grown(before, outcome) as u64,
            Payload::Datagram { bytes } => { if is_ok(outcome) { bytes } else { 0 } }
        }
    }
}
