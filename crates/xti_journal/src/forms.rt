//! The fields of calls and of answers, and which call a worker makes.

ghost use Rattle.std.specs.Prelude.{◌≡◌};
ghost use Rattle.xti_journal.specs.Calls.{form, answer_form};
ghost use Rattle.xti_journal.specs.Grammar.{verb_after};

use crate::fields::Key;
use xti_model::Act;
use xti_verbs::{Answer, Verb};

/// The keys of the call's fields, in their order.
#[tactic(auto, unfolding(crate::specs::Calls::form))]
pub(crate) fn form(verb: Verb) -> &'static [Key]
    ensures { result.now ≡ form verb }
{
    match verb {
        Verb::Open => &[Key::Provider, Key::Mode],
        Verb::Bind => &[Key::Number, Key::Addr, Key::Qlen, Key::Amax],
        Verb::Connect => &[
            Key::Number,
            Key::Addr,
            Key::Opt,
            Key::UData,
            Key::Amax,
            Key::Omax,
            Key::Umax,
        ],
        Verb::RcvConnect | Verb::Listen => &[Key::Number, Key::Amax, Key::Omax, Key::Umax],
        Verb::Accept => &[Key::Number, Key::Number, Key::Number, Key::Opt, Key::UData],
        Verb::Snd => &[Key::Number, Key::Data, Key::Flags],
        Verb::SndV => &[Key::Number, Key::Parts, Key::Flags],
        Verb::Rcv => &[Key::Number, Key::Max],
        Verb::RcvV => &[Key::Number, Key::Sizes],
        Verb::SndDis => &[Key::Number, Key::Number, Key::UData],
        Verb::RcvDis => &[Key::Number, Key::Umax],
        Verb::SndRelData => &[Key::Number, Key::UData],
        Verb::RcvRelData => &[Key::Number, Key::Umax],
        Verb::SndUData => &[Key::Number, Key::Addr, Key::Opt, Key::Data],
        Verb::SndVUData => &[Key::Number, Key::Addr, Key::Opt, Key::Parts],
        Verb::RcvUData => &[Key::Number, Key::Max, Key::Amax, Key::Omax],
        Verb::RcvVUData => &[Key::Number, Key::Sizes, Key::Amax, Key::Omax],
        Verb::RcvUDErr => &[Key::Number, Key::Amax, Key::Omax],
        Verb::GetProtAddr => &[Key::Number, Key::Amax, Key::Pmax],
        Verb::OptMgmt => &[Key::Number, Key::Number, Key::Opt, Key::Omax],
        Verb::SetMode => &[Key::Number, Key::Mode],
        _ => &[Key::Number],
    }
}

/// The keys of the answer's fields, in their order.
#[tactic(auto, unfolding(crate::specs::Calls::answer_form))]
pub(crate) fn answer_form(answer: Answer) -> &'static [Key]
    ensures { result.now ≡ answer_form answer }
{
    match answer {
        Answer::Plain => &[],
        Answer::Opened | Answer::Sent | Answer::Overflow | Answer::Part => &[Key::Number],
        Answer::Bound | Answer::Got => &[Key::Bytes, Key::Number],
        Answer::Connected => &[Key::Bytes, Key::Bytes, Key::Bytes],
        Answer::Listened => &[Key::Number, Key::Bytes, Key::Bytes, Key::Bytes],
        Answer::Discon => &[Key::Number, Key::Number, Key::Bytes],
        Answer::RelData => &[Key::Bytes],
        Answer::UData => &[Key::Bytes, Key::Bytes, Key::Bytes, Key::Number],
        Answer::UDErr => &[Key::Bytes, Key::Bytes, Key::Number],
        Answer::Seen => &[Key::EventOrNone],
        Answer::Stands => &[Key::State],
        Answer::Limits => &[
            Key::Limit,
            Key::Limit,
            Key::Limit,
            Key::Limit,
            Key::Limit,
            Key::Limit,
            Key::Service,
            Key::Number,
        ],
        Answer::Addresses => &[Key::Bytes, Key::Bytes],
        Answer::Options => &[Key::Number, Key::Bytes],
        Answer::Refused => &[Key::Errno],
        Answer::Look => &[Key::Event],
    }
}

/// Which call the worker began last, after this act.
pub(crate) fn verb_after(before: Option<Verb>, act: &Act) -> Option<Verb>
    ensures { result ≡ verb_after before act.now }
{
    match act {
        Act::Begin(call) => Some(Verb::of_call(call)),
        Act::More => before,
    }
}
