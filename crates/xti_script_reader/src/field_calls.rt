//! Reading calls from their fields.

ghost use Rattle.std.specs.Prelude.{◌≡◌, true, []};
ghost use Rattle.xti_script_reader.specs.Calls.{form};
ghost use Rattle.xti_verbs.specs.Families.{is_local, is_connecting, is_data, is_datagram};
ghost use Rattle.xti_verbs.specs.Verbs.{is_plain};
ghost use Rattle.xti_script_reader.specs.Unread.{Makes};

use crate::fields::{Fields, Key};
use xti_model::NamedCall;
use xti_verbs::Verb;

/// A call that says no more than which endpoint.
#[tactic(auto, unfolding(crate::specs::Fields::field, crate::specs::Calls::form, crate::specs::Calls::call_with))]
fn read_plain(verb: Verb, fields: &mut Fields) -> NamedCall
    requires family { is_plain verb ≡ true }
    requires keys { fields.old.keys.now ≡ form verb }
    ensures call { Makes verb result fields.old fields.new }
    ensures keys { fields.new.keys.now ≡ [] }
{
    verb.plain_named_call(fields.name(Key::Endpoint))
}

/// A call that opens an endpoint, or sets or asks what belongs to it.
#[tactic(auto, unfolding(crate::specs::Fields::field, crate::specs::Calls::form, crate::specs::Calls::call_with))]
fn read_local(verb: Verb, fields: &mut Fields) -> NamedCall
    requires family { is_local verb ≡ true }
    requires keys { fields.old.keys.now ≡ form verb }
    ensures call { Makes verb result fields.old fields.new }
    ensures keys { fields.new.keys.now ≡ [] }
{
    match verb {
        Verb::Open => NamedCall::TOpen {
            name: fields.name(Key::NewEndpoint),
            prov: fields.provider(Key::Provider),
            nonblock: fields.mode(Key::ModeOrBlock),
        },
        Verb::Bind => NamedCall::TBind {
            fd: fields.name(Key::Endpoint),
            addr: fields.bytes(Key::Addr),
            qlen: fields.number(Key::Qlen),
            amax: fields.number(Key::Amax),
        },
        Verb::SetMode => NamedCall::SetMode {
            fd: fields.name(Key::Endpoint),
            nonblock: fields.mode(Key::Mode),
        },
        Verb::GetProtAddr => NamedCall::TGetProtAddr {
            fd: fields.name(Key::Endpoint),
            amax: fields.number(Key::Amax),
            pmax: fields.number(Key::Pmax),
        },
        Verb::OptMgmt => NamedCall::TOptMgmt {
            fd: fields.name(Key::Endpoint),
            action: fields.number(Key::Action),
            opt: fields.bytes(Key::Opt),
            omax: fields.number(Key::Omax),
        },
        _ => unreachable!(),
    }
}

/// A call that makes a connection, breaks it or has data with its release.
#[tactic(auto, unfolding(crate::specs::Fields::field, crate::specs::Calls::form, crate::specs::Calls::call_with))]
fn read_connecting(verb: Verb, fields: &mut Fields) -> NamedCall
    requires family { is_connecting verb ≡ true }
    requires keys { fields.old.keys.now ≡ form verb }
    ensures call { Makes verb result fields.old fields.new }
    ensures keys { fields.new.keys.now ≡ [] }
{
    let fd = fields.name(Key::Endpoint);
    match verb {
        Verb::Connect => NamedCall::TConnect {
            fd,
            addr: fields.bytes(Key::Addr),
            opt: fields.bytes(Key::Opt),
            udata: fields.bytes(Key::UData),
            amax: fields.number(Key::Amax),
            omax: fields.number(Key::Omax),
            umax: fields.number(Key::Umax),
        },
        Verb::RcvConnect => NamedCall::TRcvConnect {
            fd,
            amax: fields.number(Key::Amax),
            omax: fields.number(Key::Omax),
            umax: fields.number(Key::Umax),
        },
        Verb::Listen => NamedCall::TListen {
            fd,
            name: fields.name(Key::NewSequence),
            amax: fields.number(Key::Amax),
            omax: fields.number(Key::Omax),
            umax: fields.number(Key::Umax),
        },
        Verb::Accept => NamedCall::TAccept {
            fd,
            resfd: fields.name(Key::Endpoint),
            seq: fields.name(Key::Sequence),
            opt: fields.bytes(Key::Opt),
            udata: fields.bytes(Key::UData),
        },
        Verb::SndDis => NamedCall::TSndDis {
            fd,
            seq: fields.sequence_or_none(Key::SequenceOrNone),
            udata: fields.bytes(Key::UData),
        },
        Verb::RcvDis => NamedCall::TRcvDis {
            fd,
            umax: fields.number(Key::Umax),
        },
        Verb::SndRelData => NamedCall::TSndRelData {
            fd,
            udata: fields.bytes(Key::UData),
        },
        Verb::RcvRelData => NamedCall::TRcvRelData {
            fd,
            umax: fields.number(Key::Umax),
        },
        _ => unreachable!(),
    }
}

/// A call that sends or receives on a connection.
#[tactic(auto, unfolding(crate::specs::Fields::field, crate::specs::Calls::form, crate::specs::Calls::call_with))]
fn read_data(verb: Verb, fields: &mut Fields) -> NamedCall
    requires family { is_data verb ≡ true }
    requires keys { fields.old.keys.now ≡ form verb }
    ensures call { Makes verb result fields.old fields.new }
    ensures keys { fields.new.keys.now ≡ [] }
{
    let fd = fields.name(Key::Endpoint);
    match verb {
        Verb::Snd => NamedCall::TSnd {
            fd,
            bytes: fields.bytes(Key::Data),
            flags: fields.number(Key::Flags),
        },
        Verb::SndV => NamedCall::TSndV {
            fd,
            parts: fields.parts(Key::Parts),
            flags: fields.number(Key::Flags),
        },
        Verb::Rcv => NamedCall::TRcv {
            fd,
            max: fields.number(Key::Max),
        },
        Verb::RcvV => NamedCall::TRcvV {
            fd,
            sizes: fields.sizes(Key::Sizes),
        },
        _ => unreachable!(),
    }
}

/// A call that sends or receives a datagram, or the error of one.
#[tactic(auto, unfolding(crate::specs::Fields::field, crate::specs::Calls::form, crate::specs::Calls::call_with))]
fn read_datagram(verb: Verb, fields: &mut Fields) -> NamedCall
    requires family { is_datagram verb ≡ true }
    requires keys { fields.old.keys.now ≡ form verb }
    ensures call { Makes verb result fields.old fields.new }
    ensures keys { fields.new.keys.now ≡ [] }
{
    let fd = fields.name(Key::Endpoint);
    match verb {
        Verb::SndUData => NamedCall::TSndUData {
            fd,
            addr: fields.bytes(Key::Addr),
            opt: fields.bytes(Key::Opt),
            bytes: fields.bytes(Key::Data),
        },
        Verb::SndVUData => NamedCall::TSndVUData {
            fd,
            addr: fields.bytes(Key::Addr),
            opt: fields.bytes(Key::Opt),
            parts: fields.parts(Key::Parts),
        },
        Verb::RcvUData => NamedCall::TRcvUData {
            fd,
            max: fields.number(Key::Max),
            amax: fields.number(Key::Amax),
            omax: fields.number(Key::Omax),
        },
        Verb::RcvVUData => NamedCall::TRcvVUData {
            fd,
            sizes: fields.sizes(Key::Sizes),
            amax: fields.number(Key::Amax),
            omax: fields.number(Key::Omax),
        },
        Verb::RcvUDErr => NamedCall::TRcvUDErr {
            fd,
            amax: fields.number(Key::Amax),
            omax: fields.number(Key::Omax),
        },
        _ => unreachable!(),
    }
}

/// The call whose fields these are.
pub(crate) fn read_fields(verb: Verb, fields: &mut Fields) -> NamedCall
    requires { fields.old.keys.now ≡ form verb }
    ensures call { Makes verb result fields.old fields.new }
    ensures keys { fields.new.keys.now ≡ [] }
{
    match verb {
        Verb::Open | Verb::Bind | Verb::SetMode | Verb::GetProtAddr | Verb::OptMgmt => read_local(
            verb, fields,
        ),
        Verb::Connect
        | Verb::RcvConnect
        | Verb::Listen
        | Verb::Accept
        | Verb::SndDis
        | Verb::RcvDis
        | Verb::SndRelData
        | Verb::RcvRelData => read_connecting(verb, fields),
        Verb::Snd | Verb::SndV | Verb::Rcv | Verb::RcvV => read_data(verb, fields),
        Verb::SndUData | Verb::SndVUData | Verb::RcvUData | Verb::RcvVUData | Verb::RcvUDErr =>
            read_datagram(verb, fields),
        _ => read_plain(verb, fields),
    }
}
