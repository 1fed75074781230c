//! The fields of calls.

ghost use Rattle.std.specs.Prelude.{◌≡◌};
ghost use Rattle.xti_script_reader.specs.Calls.{form};

use crate::fields::Key;
use xti_verbs::Verb;

/// The keys of the call's fields in a script, in their order.
#[tactic(auto, unfolding(crate::specs::Calls::form))]
pub fn form(verb: Verb) -> &'static [Key]
    ensures { result.now ≡ form verb }
{
    match verb {
        Verb::Open => &[Key::NewEndpoint, Key::Provider, Key::ModeOrBlock],
        Verb::Bind => &[Key::Endpoint, Key::Addr, Key::Qlen, Key::Amax],
        Verb::Connect => &[
            Key::Endpoint,
            Key::Addr,
            Key::Opt,
            Key::UData,
            Key::Amax,
            Key::Omax,
            Key::Umax,
        ],
        Verb::RcvConnect => &[Key::Endpoint, Key::Amax, Key::Omax, Key::Umax],
        Verb::Listen => &[
            Key::Endpoint,
            Key::NewSequence,
            Key::Amax,
            Key::Omax,
            Key::Umax,
        ],
        Verb::Accept => &[
            Key::Endpoint,
            Key::Endpoint,
            Key::Sequence,
            Key::Opt,
            Key::UData,
        ],
        Verb::Snd => &[Key::Endpoint, Key::Data, Key::Flags],
        Verb::SndV => &[Key::Endpoint, Key::Parts, Key::Flags],
        Verb::Rcv => &[Key::Endpoint, Key::Max],
        Verb::RcvV => &[Key::Endpoint, Key::Sizes],
        Verb::SndDis => &[Key::Endpoint, Key::SequenceOrNone, Key::UData],
        Verb::RcvDis => &[Key::Endpoint, Key::Umax],
        Verb::SndRelData => &[Key::Endpoint, Key::UData],
        Verb::RcvRelData => &[Key::Endpoint, Key::Umax],
        Verb::SndUData => &[Key::Endpoint, Key::Addr, Key::Opt, Key::Data],
        Verb::SndVUData => &[Key::Endpoint, Key::Addr, Key::Opt, Key::Parts],
        Verb::RcvUData => &[Key::Endpoint, Key::Max, Key::Amax, Key::Omax],
        Verb::RcvVUData => &[Key::Endpoint, Key::Sizes, Key::Amax, Key::Omax],
        Verb::RcvUDErr => &[Key::Endpoint, Key::Amax, Key::Omax],
        Verb::GetProtAddr => &[Key::Endpoint, Key::Amax, Key::Pmax],
        Verb::OptMgmt => &[Key::Endpoint, Key::Action, Key::Opt, Key::Omax],
        Verb::SetMode => &[Key::Endpoint, Key::Mode],
        _ => &[Key::Endpoint],
    }
}
