//! Negotiating lists of options.

ghost use Rattle.std.specs.Prelude.{◌≡◌, ◌↔◌, All, false, true, IfOk, OnOk, OnErr, IsErrOf};
ghost use Rattle.std.specs.List.{list_all};
ghost use Rattle.xti_base.specs.Negotiation.{answered, has_level, is_action, is_one_level};
ghost use Rattle.xti_opt.specs.Answers.{answer_of};
ghost use Rattle.xti_opt.specs.Requests.{next_settings, told_options, told_overall, HasTwoLevels};
ghost use Rattle.xti_opt.specs.Written.{IsWritable};

use crate::OptList;
use crate::answers::{Answer, worse};
use crate::numbers::{T_CHECK, T_CURRENT, T_DEFAULT, T_NEGOTIATE, T_SUCCESS};
use crate::settings::Settings;
use std::alloc::{AllocError, Global};
use thiserror::Error;
use xti_base::{Octets, Opt};

/// Why options were not negotiated.
#[derive(Clone, Copy, Debug, PartialEq, Eq, Error)]
pub enum OptFail {
    /// The action is none of T_NEGOTIATE, T_CHECK, T_DEFAULT and T_CURRENT.
    #[error("no such action")]
    BadFlag,
    /// Two options have different levels.
    #[error("the options are of more than one level")]
    BadOption,
    /// Out of memory.
    #[error("out of memory")]
    OutOfMemory,
}

impl From<AllocError> for OptFail {
    ghost use Rattle.xti_opt.specs.declared.negotiation.OptFail.TheVariants.{OutOfMemory};

    ghost from_gives = { λ _ e. e ≡ OutOfMemory };

    fn from(_error: AllocError) -> OptFail {
        OptFail::OutOfMemory
    }
}

/// Negotiates the options (XNS, t_optmgmt): each is answered in its place, one after the other, with its result as
/// its status, and what T_NEGOTIATE sets is set. Answers the options and the overall result, which is the worst single one.
/// After an error the settings are unchanged.
/// Errors: `BadFlag` exactly where there is no such action; else `BadOption` exactly where two options have different
/// levels; else `OutOfMemory` where memory runs out.
pub fn negotiate(
    alloc: Global,
    settings: &mut Settings,
    action: u32,
    list: &OptList,
) -> Result<(OptList, u32), OptFail>
    ensures options { IfOk result (λ told. told.0 ≡ told_options settings.old action list.now) }
    ensures overall { IfOk result (λ told. told.1 ≡ told_overall settings.old action list.now) }
    ensures settings { OnOk result (settings.new ≡ next_settings settings.old action list.now) }
    ensures err { OnErr result (settings.new ≡ settings.old) }

    // What is answered may be written.
    ensures writable { IfOk result (λ told. All IsWritable told.0) }

    // An action that is none is told before two levels are.
    ensures bad_flag { IsErrOf result OptFail.BadFlag ↔ (is_action action ≡ false) }
    ensures bad_option { IsErrOf result OptFail.BadOption ↔ HasTwoLevels action list.now }
{
    if !is_action(action) {
        return Err(OptFail::BadFlag);
    }
    let options = list.as_slice();
    if !is_one_level(options) {
        return Err(OptFail::BadOption);
    }
    let mut negotiated = *settings;
    let told = negotiate_each(alloc, &mut negotiated, action, options)?;
    *settings = negotiated;
    Ok(told)
}

/// The options answered one after the other, and the worst result. Where memory runs out, the settings are those after
/// some of the options.
fn negotiate_each(
    alloc: Global,
    settings: &mut Settings,
    action: u32,
    options: &[Opt],
) -> Result<(OptList, u32), AllocError>
    ensures options { IfOk result (λ told. told.0 ≡ told_options settings.old action options.now) }
    ensures overall { IfOk result (λ told. told.1 ≡ told_overall settings.old action options.now) }
    ensures settings { OnOk result (settings.new ≡ next_settings settings.old action options.now) }
{
    let mut answers = Vec::with_capacity(alloc, options.len())?;
    let mut overall = T_SUCCESS;
    for option in options {
        let answer = settings.negotiate_one(
            action,
            option.level,
            option.name,
            option.value.as_slice(),
        );
        answers.push(answered(alloc, option, answer)?)?;
        overall = worse(overall, answer.result);
    }
    Ok((OptList::from_vec(answers), overall))
}

/// Whether this is one of the four actions.
pub(crate) fn is_action(action: u32) -> bool
    ensures { result ≡ is_action action }
{
    matches!(action, T_NEGOTIATE | T_CHECK | T_DEFAULT | T_CURRENT)
}

/// Whether all options have the same level.
fn is_one_level(options: &[Opt]) -> bool
    ensures { result ≡ is_one_level options.now }
{
    match options.split_first() {
        Some((first, others)) => have_level(others, first.level),
        None => true,
    }
}

fn have_level(options: &[Opt], level: u32) -> bool
    ensures { result ≡ list_all (has_level level) options.now }
{
    options.iter().all(|option| option.level == level)
}

/// The option with its answer.
fn answered(alloc: Global, option: &Opt, answer: Answer) -> Result<Opt, AllocError>
    ensures { IfOk result (λ told. told ≡ answered option.now (answer_of answer)) }
{
    let mut value = Octets::new(alloc);
    if let Some(word) = answer.value {
        value = Octets::copy_of(alloc, &word.to_be_bytes())?;
    }
    Ok(Opt {
        level: option.level,
        name: option.name,
        status: answer.result,
        value,
    })
}
