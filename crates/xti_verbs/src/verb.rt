//! The calls, and their words.

ghost use Rattle.std.specs.Prelude.{◌≡◌};
ghost use Rattle.xti_verbs.specs.Verbs.{verbs_of_length, verb_among, verb_with};

use crate::answer::Answer;
use xti_base::Fd;
use xti_model::{Call, Name, NamedCall, Version};

/// A call, without its arguments.
#[derive(Clone, Copy, Debug, PartialEq, Eq)]
pub enum Verb {
    Open,
    Close,
    Bind,
    Unbind,
    Connect,
    RcvConnect,
    Listen,
    Accept,
    Snd,
    SndV,
    Rcv,
    RcvV,
    SndDis,
    RcvDis,
    SndRel,
    RcvRel,
    SndRelData,
    RcvRelData,
    SndUData,
    SndVUData,
    RcvUData,
    RcvVUData,
    RcvUDErr,
    Look,
    GetState,
    Sync,
    GetInfo,
    GetProtAddr,
    OptMgmt,
    SetMode,
}

impl Verb {
    ghost use Rattle.std.specs.Prelude.{◌≡◌, true, Some};
    ghost use Rattle.std.specs.Option.{option_copied};
    ghost use Rattle.xti_verbs.specs.Verbs.{answer_of, is_in_texts, is_plain, plain_call, plain_name, plain_named_call, verb_at, verb_in, verb_of, verb_of_named, verb_word};

    /// The call that has the word in scripts and journals of the version; `None` where no call of theirs has it.
    pub fn of_word(version: Version, word: &[u8]) -> Option<Verb>
        ensures { result ≡ verb_in version word.now }
    {
        match verb_with(word) {
            Some(Verb::SndRelData | Verb::RcvRelData) if !version.has_release_data() => None,
            verb => verb,
        }
    }

    /// Whether scripts and journals of the version have the call: t_sndreldata and t_rcvreldata stand in version 2 alone.
    pub fn is_in_texts(self, version: Version) -> bool
        ensures { result ≡ is_in_texts version self }
    {
        match self {
            Verb::SndRelData | Verb::RcvRelData => version.has_release_data(),
            _ => true,
        }
    }

    /// Its word in scripts and journals.
    #[tactic(auto, unfolding(crate::specs::Verbs::row_of))]
    pub fn word(self) -> &'static [u8]
        ensures { result.now ≡ verb_word self }
    {
        match self {
            Verb::Open => b"open",
            Verb::Close => b"close",
            Verb::Bind => b"bind",
            Verb::Unbind => b"unbind",
            Verb::Connect => b"connect",
            Verb::RcvConnect => b"rcvconnect",
            Verb::Listen => b"listen",
            Verb::Accept => b"accept",
            Verb::Snd => b"snd",
            Verb::SndV => b"sndv",
            Verb::Rcv => b"rcv",
            Verb::RcvV => b"rcvv",
            Verb::SndDis => b"snddis",
            Verb::RcvDis => b"rcvdis",
            Verb::SndRel => b"sndrel",
            Verb::RcvRel => b"rcvrel",
            Verb::SndRelData => b"sndreldata",
            Verb::RcvRelData => b"rcvreldata",
            Verb::SndUData => b"sndudata",
            Verb::SndVUData => b"sndvudata",
            Verb::RcvUData => b"rcvudata",
            Verb::RcvVUData => b"rcvvudata",
            Verb::RcvUDErr => b"rcvuderr",
            Verb::Look => b"look",
            Verb::GetState => b"getstate",
            Verb::Sync => b"sync",
            Verb::GetInfo => b"getinfo",
            Verb::GetProtAddr => b"getprotaddr",
            Verb::OptMgmt => b"optmgmt",
            Verb::SetMode => b"mode",
        }
    }

    /// The call with this number, by which `xti_flat` is asked for it; `None` where no call has it.
    #[tactic(auto, unfolding(crate::specs::Verbs::verb_at))]
    pub fn numbered(number: u32) -> Option<Verb>
        ensures { result ≡ verb_at number }
    {
        match number {
            0 => Some(Verb::Open),
            1 => Some(Verb::Close),
            2 => Some(Verb::Bind),
            3 => Some(Verb::Unbind),
            4 => Some(Verb::Connect),
            5 => Some(Verb::RcvConnect),
            6 => Some(Verb::Listen),
            7 => Some(Verb::Accept),
            8 => Some(Verb::Snd),
            9 => Some(Verb::SndV),
            10 => Some(Verb::Rcv),
            11 => Some(Verb::RcvV),
            12 => Some(Verb::SndDis),
            13 => Some(Verb::RcvDis),
            14 => Some(Verb::SndRel),
            15 => Some(Verb::RcvRel),
            16 => Some(Verb::SndUData),
            17 => Some(Verb::SndVUData),
            18 => Some(Verb::RcvUData),
            19 => Some(Verb::RcvVUData),
            20 => Some(Verb::RcvUDErr),
            21 => Some(Verb::Look),
            22 => Some(Verb::GetState),
            23 => Some(Verb::Sync),
            24 => Some(Verb::GetInfo),
            25 => Some(Verb::GetProtAddr),
            26 => Some(Verb::OptMgmt),
            27 => Some(Verb::SetMode),
            28 => Some(Verb::SndRelData),
            29 => Some(Verb::RcvRelData),
            _ => None,
        }
    }

    /// Which call it is.
    pub fn of_call(call: &Call) -> Verb
        ensures { result ≡ verb_of call.now }
    {
        match call {
            Call::TOpen { .. } => Verb::Open,
            Call::TClose { .. } => Verb::Close,
            Call::TBind { .. } => Verb::Bind,
            Call::TUnbind { .. } => Verb::Unbind,
            Call::TConnect { .. } => Verb::Connect,
            Call::TRcvConnect { .. } => Verb::RcvConnect,
            Call::TListen { .. } => Verb::Listen,
            Call::TAccept { .. } => Verb::Accept,
            Call::TSnd { .. } => Verb::Snd,
            Call::TSndV { .. } => Verb::SndV,
            Call::TRcv { .. } => Verb::Rcv,
            Call::TRcvV { .. } => Verb::RcvV,
            Call::TSndDis { .. } => Verb::SndDis,
            Call::TRcvDis { .. } => Verb::RcvDis,
            Call::TSndRel { .. } => Verb::SndRel,
            Call::TRcvRel { .. } => Verb::RcvRel,
            Call::TSndRelData { .. } => Verb::SndRelData,
            Call::TRcvRelData { .. } => Verb::RcvRelData,
            Call::TSndUData { .. } => Verb::SndUData,
            Call::TSndVUData { .. } => Verb::SndVUData,
            Call::TRcvUData { .. } => Verb::RcvUData,
            Call::TRcvVUData { .. } => Verb::RcvVUData,
            Call::TRcvUDErr { .. } => Verb::RcvUDErr,
            Call::TLookAt { .. } => Verb::Look,
            Call::TGetState { .. } => Verb::GetState,
            Call::TSync { .. } => Verb::Sync,
            Call::TGetInfo { .. } => Verb::GetInfo,
            Call::TGetProtAddr { .. } => Verb::GetProtAddr,
            Call::TOptMgmt { .. } => Verb::OptMgmt,
            Call::SetMode { .. } => Verb::SetMode,
        }
    }

    /// Which call of a script it is.
    pub fn of_named(call: &NamedCall) -> Verb
        ensures { result ≡ verb_of_named call.now }
    {
        match call {
            NamedCall::TOpen { .. } => Verb::Open,
            NamedCall::TClose { .. } => Verb::Close,
            NamedCall::TBind { .. } => Verb::Bind,
            NamedCall::TUnbind { .. } => Verb::Unbind,
            NamedCall::TConnect { .. } => Verb::Connect,
            NamedCall::TRcvConnect { .. } => Verb::RcvConnect,
            NamedCall::TListen { .. } => Verb::Listen,
            NamedCall::TAccept { .. } => Verb::Accept,
            NamedCall::TSnd { .. } => Verb::Snd,
            NamedCall::TSndV { .. } => Verb::SndV,
            NamedCall::TRcv { .. } => Verb::Rcv,
            NamedCall::TRcvV { .. } => Verb::RcvV,
            NamedCall::TSndDis { .. } => Verb::SndDis,
            NamedCall::TRcvDis { .. } => Verb::RcvDis,
            NamedCall::TSndRel { .. } => Verb::SndRel,
            NamedCall::TRcvRel { .. } => Verb::RcvRel,
            NamedCall::TSndRelData { .. } => Verb::SndRelData,
            NamedCall::TRcvRelData { .. } => Verb::RcvRelData,
            NamedCall::TSndUData { .. } => Verb::SndUData,
            NamedCall::TSndVUData { .. } => Verb::SndVUData,
            NamedCall::TRcvUData { .. } => Verb::RcvUData,
            NamedCall::TRcvVUData { .. } => Verb::RcvVUData,
            NamedCall::TRcvUDErr { .. } => Verb::RcvUDErr,
            NamedCall::TLookAt { .. } => Verb::Look,
            NamedCall::TGetState { .. } => Verb::GetState,
            NamedCall::TSync { .. } => Verb::Sync,
            NamedCall::TGetInfo { .. } => Verb::GetInfo,
            NamedCall::TGetProtAddr { .. } => Verb::GetProtAddr,
            NamedCall::TOptMgmt { .. } => Verb::OptMgmt,
            NamedCall::SetMode { .. } => Verb::SetMode,
        }
    }

    /// This call of the endpoint with the descriptor, where it says no more than which endpoint.
    pub fn plain_call(self, fd: Fd) -> Call
        requires { is_plain self ≡ true }
        ensures { Some result ≡ plain_call self fd }
    {
        match self {
            Verb::Close => Call::TClose { fd },
            Verb::Unbind => Call::TUnbind { fd },
            Verb::SndRel => Call::TSndRel { fd },
            Verb::RcvRel => Call::TRcvRel { fd },
            Verb::Look => Call::TLookAt { fd },
            Verb::GetState => Call::TGetState { fd },
            Verb::Sync => Call::TSync { fd },
            Verb::GetInfo => Call::TGetInfo { fd },
            _ => unreachable!(),
        }
    }

    /// This call of the endpoint with the name, where it says no more than which endpoint.
    pub fn plain_named_call(self, name: Name) -> NamedCall
        requires { is_plain self ≡ true }
        ensures { Some result ≡ plain_named_call self name }
    {
        match self {
            Verb::Close => NamedCall::TClose { fd: name },
            Verb::Unbind => NamedCall::TUnbind { fd: name },
            Verb::SndRel => NamedCall::TSndRel { fd: name },
            Verb::RcvRel => NamedCall::TRcvRel { fd: name },
            Verb::Look => NamedCall::TLookAt { fd: name },
            Verb::GetState => NamedCall::TGetState { fd: name },
            Verb::Sync => NamedCall::TSync { fd: name },
            Verb::GetInfo => NamedCall::TGetInfo { fd: name },
            _ => unreachable!(),
        }
    }

    /// The name in a call that says no more than which endpoint; `None` for the others.
    pub fn plain_name(call: &NamedCall) -> Option<&Name>
        ensures { option_copied result ≡ plain_name call.now }
    {
        match call {
            NamedCall::TClose { fd }
            | NamedCall::TUnbind { fd }
            | NamedCall::TSndRel { fd }
            | NamedCall::TRcvRel { fd }
            | NamedCall::TLookAt { fd }
            | NamedCall::TGetState { fd }
            | NamedCall::TSync { fd }
            | NamedCall::TGetInfo { fd } => Some(fd),
            _ => None,
        }
    }

    /// What the call answers where it is done.
    #[tactic(auto, unfolding(crate::specs::Verbs::row_of))]
    pub fn answer(self) -> Answer
        ensures { result ≡ answer_of self }
    {
        match self {
            Verb::Open => Answer::Opened,
            Verb::Close
            | Verb::Unbind
            | Verb::Accept
            | Verb::SndDis
            | Verb::SndRel
            | Verb::RcvRel
            | Verb::SndRelData
            | Verb::SndUData
            | Verb::SndVUData
            | Verb::SetMode => Answer::Plain,
            Verb::Bind => Answer::Bound,
            Verb::Connect | Verb::RcvConnect => Answer::Connected,
            Verb::Listen => Answer::Listened,
            Verb::Snd | Verb::SndV => Answer::Sent,
            Verb::Rcv | Verb::RcvV => Answer::Got,
            Verb::RcvDis => Answer::Discon,
            Verb::RcvRelData => Answer::RelData,
            Verb::RcvUData | Verb::RcvVUData => Answer::UData,
            Verb::RcvUDErr => Answer::UDErr,
            Verb::Look => Answer::Seen,
            Verb::GetState | Verb::Sync => Answer::Stands,
            Verb::GetInfo => Answer::Limits,
            Verb::GetProtAddr => Answer::Addresses,
            Verb::OptMgmt => Answer::Options,
        }
    }
}

/// The call whose word has these three bytes.
#[inline(always)]
#[tactic(auto, unfolding(crate::specs::Verbs::row_of, crate::specs::Verbs::verbs_of_length))]
fn verb_of_three(word: &[u8]) -> Option<Verb>
    ensures { result ≡ verb_among word.now (verbs_of_length 3) }
{
    if word == b"snd".as_slice() {
        Some(Verb::Snd)
    } else if word == b"rcv".as_slice() {
        Some(Verb::Rcv)
    } else {
        None
    }
}

/// The call whose word has these four bytes.
#[inline(always)]
#[tactic(auto, unfolding(crate::specs::Verbs::row_of, crate::specs::Verbs::verbs_of_length))]
fn verb_of_four(word: &[u8]) -> Option<Verb>
    ensures { result ≡ verb_among word.now (verbs_of_length 4) }
{
    if word == b"open".as_slice() {
        Some(Verb::Open)
    } else if word == b"bind".as_slice() {
        Some(Verb::Bind)
    } else if word == b"sndv".as_slice() {
        Some(Verb::SndV)
    } else if word == b"rcvv".as_slice() {
        Some(Verb::RcvV)
    } else if word == b"look".as_slice() {
        Some(Verb::Look)
    } else if word == b"sync".as_slice() {
        Some(Verb::Sync)
    } else if word == b"mode".as_slice() {
        Some(Verb::SetMode)
    } else {
        None
    }
}

/// The call whose word has these five bytes.
#[inline(always)]
#[tactic(auto, unfolding(crate::specs::Verbs::row_of, crate::specs::Verbs::verbs_of_length))]
fn verb_of_five(word: &[u8]) -> Option<Verb>
    ensures { result ≡ verb_among word.now (verbs_of_length 5) }
{
    if word == b"close".as_slice() {
        Some(Verb::Close)
    } else {
        None
    }
}

/// The call whose word has these six bytes.
#[inline(always)]
#[tactic(auto, unfolding(crate::specs::Verbs::row_of, crate::specs::Verbs::verbs_of_length))]
fn verb_of_six(word: &[u8]) -> Option<Verb>
    ensures { result ≡ verb_among word.now (verbs_of_length 6) }
{
    if word == b"unbind".as_slice() {
        Some(Verb::Unbind)
    } else if word == b"listen".as_slice() {
        Some(Verb::Listen)
    } else if word == b"accept".as_slice() {
        Some(Verb::Accept)
    } else if word == b"snddis".as_slice() {
        Some(Verb::SndDis)
    } else if word == b"rcvdis".as_slice() {
        Some(Verb::RcvDis)
    } else if word == b"sndrel".as_slice() {
        Some(Verb::SndRel)
    } else if word == b"rcvrel".as_slice() {
        Some(Verb::RcvRel)
    } else {
        None
    }
}

/// The call whose word has these seven bytes.
#[inline(always)]
#[tactic(auto, unfolding(crate::specs::Verbs::row_of, crate::specs::Verbs::verbs_of_length))]
fn verb_of_seven(word: &[u8]) -> Option<Verb>
    ensures { result ≡ verb_among word.now (verbs_of_length 7) }
{
    if word == b"connect".as_slice() {
        Some(Verb::Connect)
    } else if word == b"getinfo".as_slice() {
        Some(Verb::GetInfo)
    } else if word == b"optmgmt".as_slice() {
        Some(Verb::OptMgmt)
    } else {
        None
    }
}

/// The call whose word has these eight bytes.
#[inline(always)]
#[tactic(auto, unfolding(crate::specs::Verbs::row_of, crate::specs::Verbs::verbs_of_length))]
fn verb_of_eight(word: &[u8]) -> Option<Verb>
    ensures { result ≡ verb_among word.now (verbs_of_length 8) }
{
    if word == b"sndudata".as_slice() {
        Some(Verb::SndUData)
    } else if word == b"rcvudata".as_slice() {
        Some(Verb::RcvUData)
    } else if word == b"rcvuderr".as_slice() {
        Some(Verb::RcvUDErr)
    } else if word == b"getstate".as_slice() {
        Some(Verb::GetState)
    } else {
        None
    }
}

/// The call whose word has these nine bytes.
#[inline(always)]
#[tactic(auto, unfolding(crate::specs::Verbs::row_of, crate::specs::Verbs::verbs_of_length))]
fn verb_of_nine(word: &[u8]) -> Option<Verb>
    ensures { result ≡ verb_among word.now (verbs_of_length 9) }
{
    if word == b"sndvudata".as_slice() {
        Some(Verb::SndVUData)
    } else if word == b"rcvvudata".as_slice() {
        Some(Verb::RcvVUData)
    } else {
        None
    }
}

/// The call whose word has these ten bytes.
#[inline(always)]
#[tactic(auto, unfolding(crate::specs::Verbs::row_of, crate::specs::Verbs::verbs_of_length))]
fn verb_of_ten(word: &[u8]) -> Option<Verb>
    ensures { result ≡ verb_among word.now (verbs_of_length 10) }
{
    if word == b"rcvconnect".as_slice() {
        Some(Verb::RcvConnect)
    } else if word == b"sndreldata".as_slice() {
        Some(Verb::SndRelData)
    } else if word == b"rcvreldata".as_slice() {
        Some(Verb::RcvRelData)
    } else {
        None
    }
}

/// The call whose word has these eleven bytes.
#[inline(always)]
#[tactic(auto, unfolding(crate::specs::Verbs::row_of, crate::specs::Verbs::verbs_of_length))]
fn verb_of_eleven(word: &[u8]) -> Option<Verb>
    ensures { result ≡ verb_among word.now (verbs_of_length 11) }
{
    if word == b"getprotaddr".as_slice() {
        Some(Verb::GetProtAddr)
    } else {
        None
    }
}

/// The call that has the word.
#[tactic(auto, unfolding(crate::specs::Verbs::verb_with, crate::specs::Verbs::verbs_of_length))]
fn verb_with(word: &[u8]) -> Option<Verb>
    ensures { result ≡ verb_with word.now }
{
    match word.len() {
        3 => verb_of_three(word),
        4 => verb_of_four(word),
        5 => verb_of_five(word),
        6 => verb_of_six(word),
        7 => verb_of_seven(word),
        8 => verb_of_eight(word),
        9 => verb_of_nine(word),
        10 => verb_of_ten(word),
        11 => verb_of_eleven(word),
        _ => None,
    }
}
