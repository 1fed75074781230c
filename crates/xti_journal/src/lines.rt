//! Reading the words of an entry and of a stall line.

ghost use Rattle.std.specs.Prelude.{◌≡◌, ◌≤◌, Some, IfSome, IfOk, decimal};
ghost use Rattle.std.specs.Str.{bytes_eq};
ghost use Rattle.xti_base.specs.declared.limits.TheConstants.{LAST_WORKER};
ghost use Rattle.xti_journal.specs.Reading.{same, worker_in, error_in, answer_in, outcome_in, state_at_end, behind_read, behind_arrow, entry_in, stall_read, is_whole, stall_in, stall_from};
ghost use Rattle.xti_journal.specs.Unread.{Gives, IsRead, ReadsEntry, TellsAct, TellsOutcome, TellsStep};

use crate::answers::read_answer;
use crate::calls::read_call;
use crate::draft::Draft;
use crate::fields::{Fields, Key};
use crate::forms::{answer_form, form, verb_after};
use itoa::Buffer;
use std::mem;
use xti_base::limits::LAST_WORKER;
use xti_base::{State, write_over};
use xti_model::{Act, Entry, Outcome, StallLine, Version};
use xti_verbs::{Answer, Verb};
use xti_words::{FieldFail, number_in};

fn worker_in(word: &[u8]) -> Option<u32>
    ensures value { result ≡ worker_in word.now }
    ensures worker { IfSome result (λ worker. worker ≤ LAST_WORKER) }
{
    match number_in(word) {
        Some(number) if number <= LAST_WORKER => Some(number),
        _ => None,
    }
}

/// Writes the call of journals of the version that the next words are, or `more`.
#[tactic(auto, unfolding(crate::specs::Reading::act_in))]
fn read_act(version: Version, fields: &mut Fields, act: &mut Act) -> Result<(), FieldFail>
    ensures { TellsAct version fields.old act.new fields.new result }
{
    let Some(word) = fields.word() else {
        return Err(FieldFail::Wrong);
    };
    if word == b"more".as_slice() {
        write_over(act, Act::More);
        return Ok(());
    }
    let Some(verb) = Verb::of_word(version, word) else {
        return Err(FieldFail::Wrong);
    };
    fields.expect(form(verb));
    read_call(verb, fields, act)
}

/// Which error stands next; its word is left where the error stands alone.
fn read_error(fields: &mut Fields) -> Answer
    ensures { error_in fields.old.words ≡ Some (result, fields.new.words) }
{
    if fields.accept(b"TLOOK") {
        Answer::Look
    } else if fields.accept(b"TBUFOVFLW") {
        Answer::Overflow
    } else {
        Answer::Refused
    }
}

/// Which answer of the call stands next.
#[tactic(auto, unfolding(crate::specs::Reading::answer_in))]
fn read_answer_word(verb: Verb, fields: &mut Fields) -> Result<Answer, FieldFail>
    ensures { Gives same (answer_in verb fields.old.words) fields.new.words result }
{
    match fields.word() {
        Some(b"ok") => Ok(verb.answer()),
        Some(b"err") => Ok(read_error(fields)),
        Some(b"part") => Ok(Answer::Part),
        _ => Err(FieldFail::Wrong),
    }
}

/// Writes what the call answered.
#[tactic(auto, unfolding(crate::specs::Reading::outcome_in))]
fn read_outcome(verb: Verb, fields: &mut Fields, outcome: &mut Outcome) -> Result<(), FieldFail>
    ensures { TellsOutcome verb fields.old outcome.new fields.new result }
{
    let answer = read_or_end!(read_answer_word(verb, fields));
    fields.expect(answer_form(answer));
    read_answer(answer, fields, outcome)
}

/// The worker; what it does is written. Entries and stall lines have these words in common.
#[tactic(auto, unfolding(crate::specs::Reading::step_in))]
fn read_step(version: Version, fields: &mut Fields, act: &mut Act) -> Result<u32, FieldFail>
    ensures value { TellsStep version fields.old act.new fields.new result }
    ensures worker { IfOk result (λ worker. worker ≤ LAST_WORKER) }
{
    let Some(word) = fields.word() else {
        return Err(FieldFail::Wrong);
    };
    let Some(worker) = worker_in(word) else {
        return Err(FieldFail::Wrong);
    };
    match read_act(version, fields, act) {
        Ok(()) => Ok(worker),
        Err(fail) => Err(fail),
    }
}

/// The state that the last word is.
#[tactic(auto, unfolding(crate::specs::Fields::field))]
fn read_state(fields: &mut Fields) -> Result<State, FieldFail>
    ensures { IsRead same (state_at_end fields.old.words) result }
{
    fields.expect(&[Key::State]);
    let state = fields.state();
    match fields.end_line() {
        Ok(()) => Ok(state),
        Err(fail) => Err(fail),
    }
}

/// The state of the endpoint after an entry; what its call answered, the words after the arrow, is written.
fn read_after_arrow(
    verb: Option<Verb>,
    fields: &mut Fields,
    outcome: &mut Outcome,
) -> Result<State, FieldFail>
    ensures { IsRead (behind_read outcome.new) (behind_arrow verb fields.old.words) result }
{
    let Some(verb) = verb else {
        return Err(FieldFail::Wrong);
    };
    match fields.word() {
        Some(b"=>") => {
            read_or_end!(read_outcome(verb, fields, outcome));
            read_state(fields)
        }
        _ => Err(FieldFail::Wrong),
    }
}

/// Whether the word is this number.
pub(crate) fn is_number(word: &[u8], n: u64) -> bool
    ensures { result ≡ bytes_eq word.now (decimal n) }
{
    word == Buffer::new().format(n).as_bytes()
}

/// Writes the entry with this number, of whose line this word was taken, part by part where the caller has it: what is put
/// together of parts that may have to be let go is moved piece by piece.
#[inline(never)]
#[tactic(auto, unfolding(crate::specs::Reading::entry_in))]
pub(crate) fn read_entry(
    n: u64,
    draft: &Draft,
    word: &[u8],
    fields: &mut Fields,
    entry: &mut Entry,
) -> Result<(), FieldFail>
    ensures read { ReadsEntry draft.now n word.now fields.old.words entry.new result }
{
    if !is_number(word, n) {
        return Err(FieldFail::Wrong);
    }
    entry.worker = read_step(draft.version(), fields, &mut entry.act)?;
    let verb = verb_after(draft.verb(entry.worker), &entry.act);
    match read_after_arrow(verb, fields, &mut entry.outcome) {
        Ok(after) => {
            entry.after = after;
            Ok(())
        }
        Err(fail) => Err(fail),
    }
}

/// Whether there is a call, and no word is left.
fn is_whole(verb: Option<Verb>, fields: &Fields) -> bool
    ensures { result ≡ is_whole verb fields.now.words }
{
    verb.is_some() && fields.are_read()
}

/// The stall line, whose first word was taken. Its act is written in this place first.
#[tactic(auto, unfolding(crate::specs::Reading::stall_in))]
pub(crate) fn read_stall(
    draft: &Draft,
    fields: &mut Fields,
    act: &mut Act,
) -> Result<StallLine, FieldFail>
    ensures { IsRead stall_read (stall_from draft.now fields.old.words) result }
{
    let worker = read_step(draft.version(), fields, act)?;
    let verb = verb_after(draft.verb(worker), act);
    if is_whole(verb, fields) {
        Ok(StallLine {
            worker,
            act: mem::replace(act, Act::More),
        })
    } else {
        Err(FieldFail::Wrong)
    }
}
