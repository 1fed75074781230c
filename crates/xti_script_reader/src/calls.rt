//! Reading the words of a line.

ghost use Rattle.std.specs.Prelude.{◌≡◌, ◌≤◌, Ok, IfSome};
ghost use Rattle.xti_script_reader.specs.declared.draft.Taken.TheVariants as taken;
ghost use Rattle.xti_words.specs.Texts.{words_of};
ghost use Rattle.xti_script_reader.specs.Gives.{Takes};
ghost use Rattle.xti_script_reader.specs.Grammar.{is_passed};
ghost use Rattle.xti_script_reader.specs.Reading.{worker_of, after_call_words, after_words, after_text};

use crate::draft::{Draft, Taken};
use crate::field_calls::read_fields;
use crate::fields::Fields;
use crate::forms::form;
use std::alloc::AllocError;
use xti_base::limits::LAST_WORKER;
use xti_model::{NamedCall, Version};
use xti_verbs::Verb;
use xti_words::{FieldFail, Words, is_ascii, number_in};

fn worker_of(word: &[u8]) -> Option<u32>
    ensures value { result ≡ worker_of word.now }
    ensures worker { IfSome result (λ worker. worker ≤ LAST_WORKER) }
{
    match number_in(word) {
        Some(number) if number <= LAST_WORKER => Some(number),
        _ => None,
    }
}

/// Whether the line is empty, or a comment.
fn is_passed(line: &[u8]) -> bool
    ensures { result ≡ is_passed line.now }
{
    match line {
        [] => true,
        [first, ..] => *first == b'#' && is_ascii(line),
    }
}

// Apart, since calls are seldom refused.
#[inline(never)]
fn refused(call: NamedCall) -> Result<Taken, AllocError>
    ensures { result ≡ Ok taken.Wrong }
{
    drop(call);
    Ok(Taken::Wrong)
}

/// Adds the call of the worker that the words give after the others, in a script of the version.
#[tactic(auto, unfolding(crate::specs::Reading::call_of))]
fn read_call(
    draft: &mut Draft,
    version: Version,
    worker: u32,
    words: Words,
) -> Result<Taken, AllocError>
    requires { worker ≤ LAST_WORKER }
    ensures { Takes result draft.new (after_call_words version draft.old worker words.entry) }
{
    let mut words = words;
    let Some(word) = words.next() else {
        return Ok(Taken::Wrong);
    };
    let Some(verb) = Verb::of_word(version, word) else {
        return Ok(Taken::Wrong);
    };
    let mut fields = Fields::new(draft, worker, form(verb), words);
    let call = read_fields(verb, &mut fields);
    match fields.end() {
        Ok(()) => draft.add(worker, call),
        Err(FieldFail::Wrong) => refused(call),
        Err(FieldFail::OutOfMemory) => {
            drop(call);
            Err(AllocError)
        }
    }
}

/// Adds the call that the line gives after the others.
#[tactic(auto, unfolding(crate::specs::Reading::any_line_of))]
fn read_call_line(draft: &mut Draft, version: Version, line: &[u8]) -> Result<Taken, AllocError>
    ensures { Takes result draft.new (after_words version draft.old (words_of line.now)) }
{
    let mut words = Words::of(line);
    let Some(word) = words.next() else {
        return Ok(Taken::Wrong);
    };
    match worker_of(word) {
        Some(worker) => read_call(draft, version, worker, words),
        None => Ok(Taken::Wrong),
    }
}

/// Takes one line more of a script of the version: adds its call, or passes over it.
#[tactic(auto, unfolding(crate::specs::Reading::after_text))]
pub(crate) fn read_line(
    draft: &mut Draft,
    version: Version,
    line: &[u8],
) -> Result<Taken, AllocError>
    ensures { Takes result draft.new (after_text version draft.old line.now) }
{
    if is_passed(line) {
        Ok(Taken::Read)
    } else {
        read_call_line(draft, version, line)
    }
}
