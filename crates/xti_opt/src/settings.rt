//! The sizes that options set.

ghost use Rattle.std.specs.Prelude.{◌≡◌};
ghost use Rattle.xti_base.specs.Negotiation.{answer_meant, set_meant};
ghost use Rattle.xti_opt.specs.Answers.{answer_of, meaning_of, meaning_at};
ghost use Rattle.xti_opt.specs.Requests.{meant_answer};

use crate::answers::{Answer, Subject, buffer_answer, low_water_answer};
use crate::numbers::T_NOTSUPPORT;
use std::marker::Model;

/// The sizes of an endpoint's buffers in bytes, and those that its provider started it with.
#[derive(Clone, Copy, Debug, PartialEq, Eq)]
pub struct Settings {
    /// The current size of the send buffer (XNS, XTI_SNDBUF).
    pub sndbuf: u32,
    /// The current size of the receive buffer (XNS, XTI_RCVBUF).
    pub rcvbuf: u32,
    /// The default size of the send buffer.
    pub start_sndbuf: u32,
    /// The default size of the receive buffer.
    pub start_rcvbuf: u32,
}

impl Model for Settings {
    ghost use Rattle.xti_base.specs.Negotiation.{Settings};

    ghost Value = { Settings };

    ghost view = { λ s. record { sndbuf = s.sndbuf; rcvbuf = s.rcvbuf; start_sndbuf = s.start_sndbuf; start_rcvbuf = s.start_rcvbuf } };

    ghost inverse = { λ s. record { sndbuf = s.sndbuf; rcvbuf = s.rcvbuf; start_sndbuf = s.start_sndbuf; start_rcvbuf = s.start_rcvbuf } };
}

impl Settings {
    /// Negotiates one option of this level, name and value: its answer, and the size that it sets.
    pub(crate) fn negotiate_one(
        &mut self,
        action: u32,
        level: u32,
        name: u32,
        value: &[u8],
    ) -> Answer
        ensures answer { answer_of result ≡ meant_answer self.old action level name value.now }
        ensures settings { self.new ≡ set_meant self.old (meaning_at level name) result.sets }
    {
        let subject = Subject::of(level, name);
        let answer = self.answer(action, subject, value);
        self.set(subject, answer.sets);
        answer
    }

    fn answer(&self, action: u32, subject: Subject, value: &[u8]) -> Answer
        ensures { answer_of result ≡ answer_meant self.now action value.now (meaning_of subject) }
    {
        match subject {
            Subject::SendSize => buffer_answer(action, self.sndbuf, self.start_sndbuf, value),
            Subject::ReceiveSize => buffer_answer(action, self.rcvbuf, self.start_rcvbuf, value),
            Subject::LowWater => low_water_answer(action, value),
            Subject::Unknown => Answer::bare(T_NOTSUPPORT),
        }
    }

    /// Sets the size that this is about; nothing else is set.
    fn set(&mut self, subject: Subject, size: Option<u32>)
        ensures { self.new ≡ set_meant self.old (meaning_of subject) size }
    {
        match (subject, size) {
            (Subject::SendSize, Some(size)) => self.sndbuf = size,
            (Subject::ReceiveSize, Some(size)) => self.rcvbuf = size,
            _ => {}
        }
    }
}
