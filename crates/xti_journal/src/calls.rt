//! Reading calls from their fields. A call is written where the caller has it.

ghost use Rattle.std.specs.Prelude.{◌≡◌, true, []};
ghost use Rattle.xti_journal.specs.Calls.{form, call_values};
ghost use Rattle.xti_verbs.specs.Families.{is_local, is_connecting, is_data, is_datagram};
ghost use Rattle.xti_verbs.specs.Verbs.{is_plain, verb_of};
ghost use Rattle.xti_journal.specs.Unread.{GivesCall, Reads};

use crate::fields::Fields;
use xti_base::write_over;
use xti_model::{Act, Call};
use xti_verbs::Verb;
use xti_words::FieldFail;

/// A call that says no more than which endpoint.
#[tactic(auto, unfolding(crate::specs::Fields::field, crate::specs::Calls::form))]
fn read_plain(verb: Verb, fields: &mut Fields) -> Call
    requires family { is_plain verb ≡ true }
    requires keys { fields.old.keys.now ≡ form verb }
    ensures verb { verb_of result ≡ verb }
    ensures values { Reads (call_values result) fields.old fields.new }
    ensures keys { fields.new.keys.now ≡ [] }
{
    verb.plain_call(fields.fd())
}

/// A call that opens an endpoint, or sets or asks what belongs to it.
#[tactic(auto, unfolding(crate::specs::Fields::field, crate::specs::Calls::form))]
fn read_local(verb: Verb, fields: &mut Fields) -> Call
    requires family { is_local verb ≡ true }
    requires keys { fields.old.keys.now ≡ form verb }
    ensures verb { verb_of result ≡ verb }
    ensures values { Reads (call_values result) fields.old fields.new }
    ensures keys { fields.new.keys.now ≡ [] }
{
    match verb {
        Verb::Open => Call::TOpen {
            prov: fields.provider(),
            nonblock: fields.mode(),
        },
        Verb::Bind => Call::TBind {
            fd: fields.fd(),
            addr: fields.bytes(),
            qlen: fields.number(),
            amax: fields.number(),
        },
        Verb::SetMode => Call::SetMode {
            fd: fields.fd(),
            nonblock: fields.mode(),
        },
        Verb::GetProtAddr => Call::TGetProtAddr {
            fd: fields.fd(),
            amax: fields.number(),
            pmax: fields.number(),
        },
        Verb::OptMgmt => Call::TOptMgmt {
            fd: fields.fd(),
            action: fields.number(),
            opt: fields.bytes(),
            omax: fields.number(),
        },
        _ => unreachable!(),
    }
}

/// A call that makes a connection, breaks it or has data with its release.
#[tactic(auto, unfolding(crate::specs::Fields::field, crate::specs::Calls::form))]
fn read_connecting(verb: Verb, fields: &mut Fields) -> Call
    requires family { is_connecting verb ≡ true }
    requires keys { fields.old.keys.now ≡ form verb }
    ensures verb { verb_of result ≡ verb }
    ensures values { Reads (call_values result) fields.old fields.new }
    ensures keys { fields.new.keys.now ≡ [] }
{
    let fd = fields.fd();
    match verb {
        Verb::Connect => Call::TConnect {
            fd,
            addr: fields.bytes(),
            opt: fields.bytes(),
            udata: fields.bytes(),
            amax: fields.number(),
            omax: fields.number(),
            umax: fields.number(),
        },
        Verb::RcvConnect => Call::TRcvConnect {
            fd,
            amax: fields.number(),
            omax: fields.number(),
            umax: fields.number(),
        },
        Verb::Listen => Call::TListen {
            fd,
            amax: fields.number(),
            omax: fields.number(),
            umax: fields.number(),
        },
        Verb::Accept => Call::TAccept {
            fd,
            resfd: fields.fd(),
            seq: fields.seq(),
            opt: fields.bytes(),
            udata: fields.bytes(),
        },
        Verb::SndDis => Call::TSndDis {
            fd,
            seq: fields.seq(),
            udata: fields.bytes(),
        },
        Verb::RcvDis => Call::TRcvDis {
            fd,
            umax: fields.number(),
        },
        Verb::SndRelData => Call::TSndRelData {
            fd,
            udata: fields.bytes(),
        },
        Verb::RcvRelData => Call::TRcvRelData {
            fd,
            umax: fields.number(),
        },
        _ => unreachable!(),
    }
}

/// A call that sends or receives on a connection.
#[tactic(auto, unfolding(crate::specs::Fields::field, crate::specs::Calls::form))]
fn read_data(verb: Verb, fields: &mut Fields) -> Call
    requires family { is_data verb ≡ true }
    requires keys { fields.old.keys.now ≡ form verb }
    ensures verb { verb_of result ≡ verb }
    ensures values { Reads (call_values result) fields.old fields.new }
    ensures keys { fields.new.keys.now ≡ [] }
{
    let fd = fields.fd();
    match verb {
        Verb::Snd => Call::TSnd {
            fd,
            bytes: fields.bytes(),
            flags: fields.number(),
        },
        Verb::SndV => Call::TSndV {
            fd,
            parts: fields.parts(),
            flags: fields.number(),
        },
        Verb::Rcv => Call::TRcv {
            fd,
            max: fields.number(),
        },
        Verb::RcvV => Call::TRcvV {
            fd,
            sizes: fields.sizes(),
        },
        _ => unreachable!(),
    }
}

/// A call that sends or receives a datagram, or the error of one.
#[tactic(auto, unfolding(crate::specs::Fields::field, crate::specs::Calls::form))]
fn read_datagram(verb: Verb, fields: &mut Fields) -> Call
    requires family { is_datagram verb ≡ true }
    requires keys { fields.old.keys.now ≡ form verb }
    ensures verb { verb_of result ≡ verb }
    ensures values { Reads (call_values result) fields.old fields.new }
    ensures keys { fields.new.keys.now ≡ [] }
{
    let fd = fields.fd();
    match verb {
        Verb::SndUData => Call::TSndUData {
            fd,
            addr: fields.bytes(),
            opt: fields.bytes(),
            bytes: fields.bytes(),
        },
        Verb::SndVUData => Call::TSndVUData {
            fd,
            addr: fields.bytes(),
            opt: fields.bytes(),
            parts: fields.parts(),
        },
        Verb::RcvUData => Call::TRcvUData {
            fd,
            max: fields.number(),
            amax: fields.number(),
            omax: fields.number(),
        },
        Verb::RcvVUData => Call::TRcvVUData {
            fd,
            sizes: fields.sizes(),
            amax: fields.number(),
            omax: fields.number(),
        },
        Verb::RcvUDErr => Call::TRcvUDErr {
            fd,
            amax: fields.number(),
            omax: fields.number(),
        },
        _ => unreachable!(),
    }
}

/// The call whose fields these are.
fn read_fields(verb: Verb, fields: &mut Fields) -> Call
    requires { fields.old.keys.now ≡ form verb }
    ensures verb { verb_of result ≡ verb }
    ensures values { Reads (call_values result) fields.old fields.new }
    ensures keys { fields.new.keys.now ≡ [] }
{
    match verb {
        Verb::Open | Verb::Bind | Verb::SetMode | Verb::GetProtAddr | Verb::OptMgmt => read_local(
            verb, fields,
        ),
        Verb::Connect
        | Verb::RcvConnect
        | Verb::Listen
        | Verb::Accept
        | Verb::SndDis
        | Verb::RcvDis
        | Verb::SndRelData
        | Verb::RcvRelData => read_connecting(verb, fields),
        Verb::Snd | Verb::SndV | Verb::Rcv | Verb::RcvV => read_data(verb, fields),
        Verb::SndUData | Verb::SndVUData | Verb::RcvUData | Verb::RcvVUData | Verb::RcvUDErr =>
            read_datagram(verb, fields),
        _ => read_plain(verb, fields),
    }
}

/// Writes the call whose fields these are, and says whether they were read.
#[tactic(auto, using(crate::proofs::Ended::before_none, crate::proofs::Ended::before_wrong))]
pub(crate) fn read_call(verb: Verb, fields: &mut Fields, act: &mut Act) -> Result<(), FieldFail>
    requires { fields.old.keys.now ≡ form verb }
    ensures { GivesCall verb fields.old act.new fields.new result }
{
    write_over(act, Act::Begin(read_fields(verb, fields)));
    fields.end()
}
