//! How one option is answered.

ghost use Rattle.std.specs.Prelude.{◌≡◌, [], Some, None};
ghost use Rattle.xti_base.specs.Options.{word_bytes};
ghost use Rattle.xti_base.specs.Negotiation.{only_asks, asked_size, buffer_answer, low_water_answer, answer, badness, worse};
ghost use Rattle.xti_opt.specs.Answers.{answer_of, meaning_of, meaning_at};

use crate::numbers::{
    LOW_WATER_MARK, T_CHECK, T_CURRENT, T_FAILURE, T_NEGOTIATE, T_NOTSUPPORT, T_PARTSUCCESS,
    T_READONLY, T_SUCCESS, XTI_GENERIC, XTI_RCVBUF, XTI_RCVLOWAT, XTI_SNDBUF, XTI_SNDLOWAT,
};
use xti_base::limits::MOST_SIZE;

/// What an option is about.
#[derive(Clone, Copy)]
pub(crate) enum Subject {
    /// The size of the send buffer.
    SendSize,
    /// The size of the receive buffer.
    ReceiveSize,
    /// A low-water mark.
    LowWater,
    /// Nothing that is known here.
    Unknown,
}

impl Subject {
    /// What an option of this level and name is about.
    pub(crate) fn of(level: u32, name: u32) -> Subject
        ensures { meaning_of result ≡ meaning_at level name }
    {
        if level != XTI_GENERIC {
            return Subject::Unknown;
        }
        match name {
            XTI_SNDBUF => Subject::SendSize,
            XTI_RCVBUF => Subject::ReceiveSize,
            XTI_SNDLOWAT | XTI_RCVLOWAT => Subject::LowWater,
            _ => Subject::Unknown,
        }
    }
}

/// The answer to one option.
#[derive(Clone, Copy)]
pub(crate) struct Answer {
    /// The result, which becomes the option's status.
    pub(crate) result: u32,
    /// The value returned; `None` for an empty one.
    pub(crate) value: Option<u32>,
    /// The size that is set, if one is.
    pub(crate) sets: Option<u32>,
}

impl Answer {
    /// An answer without a value.
    pub(crate) fn bare(outcome: u32) -> Answer
        ensures { answer_of result ≡ answer outcome [] None }
    {
        Answer {
            result: outcome,
            value: None,
            sets: None,
        }
    }

    /// An answer that tells a value and sets nothing.
    pub(crate) fn telling(outcome: u32, value: u32) -> Answer
        ensures { answer_of result ≡ answer outcome (word_bytes value) None }
    {
        Answer {
            result: outcome,
            value: Some(value),
            sets: None,
        }
    }

    /// An answer that sets the size that it tells.
    pub(crate) fn setting(outcome: u32, size: u32) -> Answer
        ensures { answer_of result ≡ answer outcome (word_bytes size) (Some size) }
    {
        Answer {
            result: outcome,
            value: Some(size),
            sets: Some(size),
        }
    }
}

/// The answer to an option for the size of a buffer, which is now `current` and was `start` at first.
pub(crate) fn buffer_answer(action: u32, current: u32, start: u32, value: &[u8]) -> Answer
    ensures { answer_of result ≡ buffer_answer action current start value.now }
{
    if only_asks(action, value) {
        return Answer::bare(T_SUCCESS);
    }
    match action {
        T_NEGOTIATE => asked_size(current, value),
        T_CHECK => Answer {
            sets: None,
            ..asked_size(current, value)
        },
        T_CURRENT => Answer::telling(T_SUCCESS, current),
        _ => Answer::telling(T_SUCCESS, start),
    }
}

/// The answer to an option for a low-water mark.
pub(crate) fn low_water_answer(action: u32, value: &[u8]) -> Answer
    ensures { answer_of result ≡ low_water_answer action value.now }
{
    if only_asks(action, value) {
        Answer::bare(T_READONLY)
    } else {
        Answer::telling(T_READONLY, LOW_WATER_MARK)
    }
}

/// Whether this is a check without a value, which asks no more than whether the option is known.
pub(crate) fn only_asks(action: u32, value: &[u8]) -> bool
    ensures { result ≡ only_asks action value.now }
{
    action == T_CHECK && value.is_empty()
}

/// The answer where a buffer is asked to have the size that the value gives.
fn asked_size(current: u32, value: &[u8]) -> Answer
    ensures { answer_of result ≡ asked_size current value.now }
{
    if value.len() != 4 {
        return Answer::telling(T_FAILURE, current);
    }
    match u32::from_be_bytes([value[0], value[1], value[2], value[3]]) {
        0 => Answer::telling(T_FAILURE, current),
        size if size <= MOST_SIZE => Answer::setting(T_SUCCESS, size),
        _ => Answer::setting(T_PARTSUCCESS, MOST_SIZE),
    }
}

/// The worse of two results.
pub(crate) fn worse(first: u32, second: u32) -> u32
    ensures { result ≡ worse first second }
{
    if badness(first) < badness(second) {
        second
    } else {
        first
    }
}

/// How bad a result is: the numbers of the results don't stand in that order.
fn badness(outcome: u32) -> u32
    ensures { result ≡ badness outcome }
{
    match outcome {
        T_SUCCESS => 0,
        T_PARTSUCCESS => 1,
        T_FAILURE => 2,
        T_READONLY => 3,
        _ => 4,
    }
}
