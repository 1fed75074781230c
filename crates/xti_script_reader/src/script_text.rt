//! Reading a script.

ghost use Rattle.std.specs.Prelude.{◌≡◌, ℕ, ◌≤◌, ◌+◌, [], List, IfOk, IfErr, length};
ghost use Rattle.xti_model.specs.declared.script.Script.{Script};
ghost use Rattle.xti_script_reader.specs.declared.script_text.ScriptFail.TheVariants.{OutOfMemory};
ghost use Rattle.xti_words.specs.Texts.{lines_of};
ghost use Rattle.xti_script_reader.specs.Grammar.{IsScript};
ghost use Rattle.xti_script_reader.specs.Refused.{IsRefusedAt};
ghost use Rattle.xti_script_reader.specs.Reading.{lines_from, script_from, to_mark, by_head, body_of, version_of, all_of};
ghost use Rattle.xti_script_reader.specs.Read.{IsRead, IsBad};
ghost use Rattle.xti_script_reader.specs.Gives.{Gives};

use crate::calls::read_line;
use crate::draft::{Draft, Taken};
use crate::marks::{is_mark, split_at_mark};
use std::alloc::{AllocError, Global};
use thiserror::Error;
use xti_head::{HeadFail, read_head};
use xti_model::{Lines, Providers, Script, Version};
use xti_words::first_line;

/// Why a text was not read. Lines are counted from 1.
#[derive(Clone, Copy, Debug, PartialEq, Eq, Error)]
pub enum ScriptFail {
    /// The text isn't in the form of scripts; the first line that is wrong.
    #[error("the text is no script from line {line} on")]
    Bad { line: u64 },
    /// The text is in the form, but has too many calls, or too many bytes in their arguments; the first line that passes a
    /// limit.
    #[error("the script passes a limit at line {line}")]
    TooMany { line: u64 },
    /// Out of memory.
    #[error("out of memory")]
    OutOfMemory,
}

impl From<AllocError> for ScriptFail {
    ghost from_gives = { λ _ e. e ≡ OutOfMemory };

    fn from(_e: AllocError) -> ScriptFail {
        ScriptFail::OutOfMemory
    }
}

/// The calls of the text, whose first line has this number, in a script of the version.
fn read_lines(alloc: Global, version: Version, first: u64, text: &[u8]) -> Result<Lines, ScriptFail>
    requires { first + length text.now ≤ 18446744073709551615 }
    ensures { Gives result (lines_from version first [] (lines_of text.now)) }
{
    let mut draft = Draft::new(alloc)?;
    let mut rest = text;
    let mut number = first;
    while !rest.is_empty() {
        let (line, behind) = first_line(rest);
        match read_line(&mut draft, version, line)? {
            Taken::Read => {}
            Taken::Wrong => return Err(ScriptFail::Bad { line: number }),
            Taken::TooMany => return Err(ScriptFail::TooMany { line: number }),
        }
        rest = behind;
        number += 1;
    }
    Ok(draft.finish())
}

/// The script with these providers, and the calls of the text.
fn read_calls(
    alloc: Global,
    providers: Providers,
    first: u64,
    text: &[u8],
) -> Result<Script, ScriptFail>
    requires { first + length text.now ≤ 18446744073709551615 }
    ensures { Gives result (script_from first providers (lines_of text.now)) }
{
    let lines = read_lines(alloc, providers.version, first, text)?;
    Ok(Script { providers, lines })
}

/// The script of the version whose head begins the text, after its first mark.
fn read_headed(alloc: Global, version: Version, text: &[u8]) -> Result<Script, ScriptFail>
    ensures { Gives result (by_head version (to_mark (lines_of text.now))) }
{
    let parts = split_at_mark(text).ok_or(ScriptFail::Bad { line: 2 })?;
    match read_head(alloc, version, parts.head) {
        Ok(providers) => read_calls(alloc, providers, parts.lines + 4, parts.rest),
        Err(HeadFail::Bad) => Err(ScriptFail::Bad { line: 2 }),
        Err(HeadFail::OutOfMemory) => Err(ScriptFail::OutOfMemory),
    }
}

/// The script of the version, from its second line on.
#[tactic(auto, unfolding(crate::specs::Reading::body_of))]
fn read_body(alloc: Global, version: Version, text: &[u8]) -> Result<Script, ScriptFail>
    ensures { Gives result (body_of version (lines_of text.now)) }
{
    if text.is_empty() {
        return read_calls(alloc, Providers::usual_of(version), 2, text);
    }
    let (line, rest) = first_line(text);
    if is_mark(line) {
        read_headed(alloc, version, rest)
    } else {
        read_calls(alloc, Providers::usual_of(version), 2, text)
    }
}

/// The version of the scripts that begin with this line.
#[tactic(auto, unfolding(crate::specs::Reading::version_of))]
fn version_of(line: &[u8]) -> Option<Version>
    ensures { result ≡ version_of line.now }
{
    if line == b"xti-script 1".as_slice() {
        Some(Version::One)
    } else if line == b"xti-script 2".as_slice() {
        Some(Version::Two)
    } else {
        None
    }
}

#[tactic(auto, unfolding(crate::specs::Reading::all_of))]
fn read_all(alloc: Global, text: &[u8]) -> Result<Script, ScriptFail>
    ensures { Gives result (all_of (lines_of text.now)) }
{
    if text.is_empty() {
        return Err(ScriptFail::Bad { line: 1 });
    }
    let (line, rest) = first_line(text);
    match version_of(line) {
        Some(version) => read_body(alloc, version, rest),
        None => Err(ScriptFail::Bad { line: 1 }),
    }
}

/// The script whose text this is.
///
/// Errors: `Bad` where the text isn't in the form of scripts, with the first line that is wrong; `TooMany` where it passes a
/// limit before, with the line that does; `OutOfMemory` where memory runs out.
pub fn read_script(alloc: Global, text: &[u8]) -> Result<Script, ScriptFail>
    // What is read is a script with this text.
    ensures found { IfOk result (λ s. IsScript s text.now) }
    // A script is read, unless memory runs out.
    ensures only { (s : Script) → IsScript s text.now → IsRead result s }
    // A refused line is the first by which the text is no script.
    ensures bad { IfErr result (IsBad text.now) }
{
    read_all(alloc, text)
}
