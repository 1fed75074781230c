//! Negotiating options in bytes, as a call of t_optmgmt gives them. None of this takes memory.

ghost use Rattle.std.specs.Prelude.{◌≡◌, ◌≤◌, ◌+◌, ◌++◌, ◌&&◌, ◌↔◌, false, true, length, IfOk, OnOk, OnErr, IsErrOf};
ghost use Rattle.xti_base.specs.Options.{word_bytes, is_option_list, the_options};
ghost use Rattle.xti_base.specs.Negotiation.{Settings as AnySettings, is_action, is_one_level};
ghost use Rattle.xti_opt.specs.Answers.{answer_of};
ghost use Rattle.xti_opt.specs.Requests.{answered_bytes, asked_overall, asked_settings, header_bytes, is_request, meant_bytes, told_bytes, told_size, whole_room, AddsAnswer, IsAnswerSize, IsBadRequest};

use crate::answers::{Answer, Subject, only_asks, worse};
use crate::first::split_first;
use crate::negotiation::is_action;
use crate::numbers::T_SUCCESS;
use crate::settings::Settings;
use thiserror::Error;
use xti_base::{Room, is_option_list};

/// Why a request is refused.
#[derive(Clone, Copy, Debug, PartialEq, Eq, Error)]
pub enum OptRefusal {
    /// The action is none of T_NEGOTIATE, T_CHECK, T_DEFAULT and T_CURRENT.
    #[error("no such action")]
    BadFlag,
    /// The bytes are no list of options, or two options have different levels.
    #[error("no list of options of one level")]
    BadOption,
}

/// How many bytes `negotiate_bytes` writes for this request, which is the same for all settings.
/// Errors: `BadFlag` exactly where there is no such action; else `BadOption` exactly where the bytes are no list of
/// options, or two of the options have different levels.
pub fn answer_size(action: u32, request: &[u8]) -> Result<usize, OptRefusal>
    ensures size { IfOk result (IsAnswerSize action request.now) }
    ensures bad_flag { IsErrOf result OptRefusal.BadFlag ↔ (is_action action ≡ false) }
    ensures bad_option { IsErrOf result OptRefusal.BadOption ↔ IsBadRequest action request.now }
{
    look_at(action, request)?;
    let mut size = 0;
    let mut rest = request;
    while let Some(option) = split_first(rest) {
        size += size_of_answer(action, option.level, option.name, option.value);
        rest = option.rest;
    }
    Ok(size)
}

/// Negotiates the options of these bytes (XNS, t_optmgmt), and adds those that answer them at the end of the room, for
/// which there must be space (`answer_size`). Answers the overall result. After an error the settings and the room are
/// unchanged.
/// Errors: as `answer_size`.
pub fn negotiate_bytes(
    settings: &mut Settings,
    action: u32,
    request: &[u8],
    room: &mut Room,
) -> Result<u32, OptRefusal>
    requires space { (is_action action && is_request request.now) ≡ true →
        length (answered_bytes settings.old action request.now) ≤ room.old.spare }
    ensures bytes { OnOk result (AddsAnswer settings.old action request.now room.old room.new) }
    ensures overall { IfOk result (λ r. r ≡ asked_overall settings.old action request.now) }
    ensures settings { OnOk result (settings.new ≡ asked_settings settings.old action request.now) }
    ensures spare { whole_room room.old ≤ whole_room room.new }
    ensures err { OnErr result (settings.new ≡ settings.old) }
    ensures err_room { OnErr result (room.new ≡ room.old) }

    // An action that is none is told before a wrong list is.
    ensures bad_flag { IsErrOf result OptRefusal.BadFlag ↔ (is_action action ≡ false) }
    ensures bad_option { IsErrOf result OptRefusal.BadOption ↔ IsBadRequest action request.now }
{
    look_at(action, request)?;
    let mut overall = T_SUCCESS;
    let mut rest = request;
    while let Some(option) = split_first(rest) {
        let answer = settings.negotiate_one(action, option.level, option.name, option.value);
        write_answer(room, option.level, option.name, answer);
        overall = worse(overall, answer.result);
        rest = option.rest;
    }
    Ok(overall)
}

/// Whether the action is one, and then whether the bytes are a list of options of one level.
fn look_at(action: u32, request: &[u8]) -> Result<(), OptRefusal>
    ensures fine { OnOk result ((is_action action ≡ true) × (is_request request.now ≡ true)) }
    ensures bad_flag { IsErrOf result OptRefusal.BadFlag ↔ (is_action action ≡ false) }
    ensures bad_option { IsErrOf result OptRefusal.BadOption ↔ IsBadRequest action request.now }
{
    if !is_action(action) {
        return Err(OptRefusal::BadFlag);
    }
    if is_option_list(request) && is_one_level(request) {
        Ok(())
    } else {
        Err(OptRefusal::BadOption)
    }
}

/// Whether all options of a list have the same level.
fn is_one_level(request: &[u8]) -> bool
    requires { is_option_list request.now ≡ true }
    ensures { result ≡ is_one_level (the_options request.now) }
{
    let Some(first) = split_first(request) else {
        return true;
    };
    let mut rest = first.rest;
    while let Some(option) = split_first(rest) {
        if option.level != first.level {
            return false;
        }
        rest = option.rest;
    }
    true
}

/// How many bytes the answer to this option takes.
fn size_of_answer(action: u32, level: u32, name: u32, value: &[u8]) -> usize
    ensures size { (s : AnySettings) → result ≡ length (meant_bytes s action level name value.now) }
    ensures bound { result ≤ 20 }
{
    match Subject::of(level, name) {
        Subject::Unknown => 16,
        _ if only_asks(action, value) => 16,
        _ => 20,
    }
}

/// Adds the answer to the option of this level and name.
fn write_answer(room: &mut Room, level: u32, name: u32, answer: Answer)
    requires { told_size level name answer ≤ room.old.spare }
    ensures bytes { room.new.bytes ≡ room.old.bytes ++ told_bytes level name (answer_of answer) }
    ensures spare { room.old.spare ≤ room.new.spare + told_size level name answer }
{
    match answer.value {
        Some(word) => {
            write_header(room, 20, level, name, answer.result);
            write_word(room, word);
        }
        None => write_header(room, 16, level, name, answer.result),
    }
}

fn write_header(room: &mut Room, length: u32, level: u32, name: u32, status: u32)
    requires { 16 ≤ room.old.spare }
    ensures bytes { room.new.bytes ≡ room.old.bytes ++ header_bytes length level name status }
    ensures spare { room.old.spare ≤ room.new.spare + 16 }
{
    write_word(room, length);
    write_word(room, level);
    write_word(room, name);
    write_word(room, status);
}

fn write_word(room: &mut Room, word: u32)
    requires { 4 ≤ room.old.spare }
    ensures bytes { room.new.bytes ≡ room.old.bytes ++ word_bytes word }
    ensures spare { room.old.spare ≤ room.new.spare + 4 }
{
    room.append(&word.to_be_bytes());
}
