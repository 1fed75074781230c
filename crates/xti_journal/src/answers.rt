//! Reading what calls answered from its fields. It is written where the caller has it.

ghost use Rattle.std.specs.Prelude.{◌≡◌, true, []};
ghost use Rattle.xti_model.specs.declared.entry.Outcome.TheVariants.{Done};
ghost use Rattle.xti_model.specs.declared.entry.Reply.TheVariants.{Limits};
ghost use Rattle.xti_journal.specs.Calls.{answer_form, answer_values};
ghost use Rattle.xti_verbs.specs.Families.{is_report, is_news, is_error};
ghost use Rattle.xti_verbs.specs.Verbs.{answer_to};
ghost use Rattle.xti_journal.specs.Unread.{GivesOutcome, Reads};

use crate::fields::Fields;
use xti_base::{Info, write_over};
use xti_model::{Outcome, Reply};
use xti_verbs::Answer;
use xti_words::FieldFail;

/// What a provider offers.
#[inline(always)]
#[tactic(auto, unfolding(crate::specs::Fields::field, crate::specs::Calls::answer_form))]
fn read_info(fields: &mut Fields) -> Info
    requires { fields.old.keys.now ≡ answer_form Answer.Limits }
    ensures values { Reads (answer_values (Done (Limits result))) fields.old fields.new }
    ensures keys { fields.new.keys.now ≡ [] }
{
    Info {
        addr: fields.limit(),
        options: fields.limit(),
        tsdu: fields.limit(),
        etsdu: fields.limit(),
        connect: fields.limit(),
        discon: fields.limit(),
        servtype: fields.service(),
        flags: fields.number(),
    }
}

/// An answer that tells of an endpoint or of a provider.
#[tactic(auto, unfolding(crate::specs::Fields::field, crate::specs::Calls::answer_form))]
fn read_report(answer: Answer, fields: &mut Fields) -> Reply
    requires family { is_report answer ≡ true }
    requires keys { fields.old.keys.now ≡ answer_form answer }
    ensures answer { answer_to (Done result) ≡ answer }
    ensures values { Reads (answer_values (Done result)) fields.old fields.new }
    ensures keys { fields.new.keys.now ≡ [] }
{
    match answer {
        Answer::Opened => Reply::Opened { fd: fields.fd() },
        Answer::Bound => Reply::Bound {
            addr: fields.bytes(),
            qlen: fields.number(),
        },
        Answer::Seen => Reply::Seen {
            event: fields.event_or_none(),
        },
        Answer::Stands => Reply::Stands {
            state: fields.state(),
        },
        Answer::Limits => Reply::Limits {
            info: read_info(fields),
        },
        Answer::Addresses => Reply::Addresses {
            local: fields.bytes(),
            peer: fields.bytes(),
        },
        Answer::Options => Reply::Options {
            result: fields.number(),
            opt: fields.bytes(),
        },
        _ => unreachable!(),
    }
}

/// An answer that tells of a connection, of data or of a datagram.
#[tactic(auto, unfolding(crate::specs::Fields::field, crate::specs::Calls::answer_form))]
fn read_news(answer: Answer, fields: &mut Fields) -> Reply
    requires family { is_news answer ≡ true }
    requires keys { fields.old.keys.now ≡ answer_form answer }
    ensures answer { answer_to (Done result) ≡ answer }
    ensures values { Reads (answer_values (Done result)) fields.old fields.new }
    ensures keys { fields.new.keys.now ≡ [] }
{
    match answer {
        Answer::Connected => Reply::Connected {
            addr: fields.bytes(),
            opt: fields.bytes(),
            udata: fields.bytes(),
        },
        Answer::Listened => Reply::Listened {
            seq: fields.seq(),
            addr: fields.bytes(),
            opt: fields.bytes(),
            udata: fields.bytes(),
        },
        Answer::Sent => Reply::Sent { n: fields.number() },
        Answer::Got => Reply::Got {
            bytes: fields.bytes(),
            flags: fields.number(),
        },
        Answer::Discon => Reply::Discon {
            reason: fields.number(),
            seq: fields.seq(),
            udata: fields.bytes(),
        },
        Answer::RelData => Reply::RelData {
            udata: fields.bytes(),
        },
        Answer::UData => Reply::UData {
            addr: fields.bytes(),
            opt: fields.bytes(),
            bytes: fields.bytes(),
            flags: fields.number(),
        },
        Answer::UDErr => Reply::UDErr {
            addr: fields.bytes(),
            opt: fields.bytes(),
            code: fields.number(),
        },
        _ => unreachable!(),
    }
}

/// An error.
#[tactic(auto, unfolding(crate::specs::Fields::field, crate::specs::Calls::answer_form))]
fn read_error(answer: Answer, fields: &mut Fields) -> Reply
    requires family { is_error answer ≡ true }
    requires keys { fields.old.keys.now ≡ answer_form answer }
    ensures answer { answer_to (Done result) ≡ answer }
    ensures values { Reads (answer_values (Done result)) fields.old fields.new }
    ensures keys { fields.new.keys.now ≡ [] }
{
    match answer {
        Answer::Refused => Reply::Refused {
            errno: fields.errno(),
        },
        Answer::Look => Reply::Look {
            event: fields.event(),
        },
        Answer::Overflow => Reply::Overflow { seq: fields.seq() },
        _ => unreachable!(),
    }
}

/// The outcome whose fields these are.
#[tactic(auto, unfolding(crate::specs::Fields::field, crate::specs::Calls::answer_form))]
fn read_fields(answer: Answer, fields: &mut Fields) -> Outcome
    requires { fields.old.keys.now ≡ answer_form answer }
    ensures answer { answer_to result ≡ answer }
    ensures values { Reads (answer_values result) fields.old fields.new }
    ensures keys { fields.new.keys.now ≡ [] }
{
    match answer {
        Answer::Plain => Outcome::Done(Reply::Plain),
        Answer::Part => Outcome::Part {
            taken: fields.number(),
        },
        Answer::Opened
        | Answer::Bound
        | Answer::Seen
        | Answer::Stands
        | Answer::Limits
        | Answer::Addresses
        | Answer::Options => Outcome::Done(read_report(answer, fields)),
        Answer::Connected
        | Answer::Listened
        | Answer::Sent
        | Answer::Got
        | Answer::Discon
        | Answer::RelData
        | Answer::UData
        | Answer::UDErr => Outcome::Done(read_news(answer, fields)),
        Answer::Refused | Answer::Look | Answer::Overflow => {
            Outcome::Done(read_error(answer, fields))
        }
    }
}

/// Writes the outcome whose fields these are, and says whether they were read.
#[tactic(auto, using(crate::proofs::Ended::before_none, crate::proofs::Ended::before_wrong))]
pub(crate) fn read_answer(
    answer: Answer,
    fields: &mut Fields,
    outcome: &mut Outcome,
) -> Result<(), FieldFail>
    requires { fields.old.keys.now ≡ answer_form answer }
    ensures { GivesOutcome answer fields.old outcome.new fields.new result }
{
    write_over(outcome, read_fields(answer, fields));
    fields.end()
}
