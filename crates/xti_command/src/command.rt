//! The command that words are.

ghost use Rattle.std.specs.Prelude.{◌≡◌, ◌≢◌, [], IfOk, IfErr, IsErrOf, true, option_map};
ghost use Rattle.clap.specs.Words.{app_of, found_of, rows_of};
ghost use Rattle.xti_command.specs.declared.command.WordsFail.TheVariants.{OutOfMemory};
ghost use Rattle.xti_command.specs.Words.{AreTaken, alone, command_form, command_in, faults_in, found_in, generating, is_true, named, seed_of, texts, without_seed};

use clap::error::ErrorKind;
use clap::{Arg, ArgAction, ArgMatches};
use std::alloc::{AllocError, Global};

/// What is done with an input.
#[derive(Clone, Copy, Debug, PartialEq, Eq)]
pub enum Reading {
    /// The calls of a script are made, and the journal is written, or its summary.
    Replay { summary: bool },
    /// The calls of a script are made by threads, one for each worker, and the journal is written, or its summary.
    Run { summary: bool },
    /// A journal is judged, and the verdict written.
    Check,
    /// A line is written for each of some frames.
    Frames,
    /// Both ends of a link are run, and the report is written.
    Link,
    /// The input is copied over sockets, and the journal of that is written, or its summary.
    Sock { summary: bool },
}

/// What the program is asked to do.
#[derive(Clone, Copy, Debug, PartialEq, Eq)]
pub enum Command {
    /// Reads an input.
    Read(Reading),
    /// Reads nothing: the script that is generated from the seed is written, or its calls are made and the summary is written.
    Gen { seed: u64, summary: bool },
}

/// Why words give no command.
#[derive(Clone, Copy, Debug, PartialEq, Eq)]
pub enum WordsFail {
    /// The words are no command.
    Refused,
    OutOfMemory,
}

/// What `clap` is told: one word that must stand, the flag `--summary`, the option `--seed`, and no help of its own.
fn command_line<'a>(alloc: Global) -> Result<clap::Command<'a>, AllocError>
    ensures { IfOk result (λ c. app_of c ≡ command_form) }
{
    let word = Arg::new(alloc, "command").required(true);
    let summary = Arg::new(alloc, "summary")
        .long("summary")
        .action(ArgAction::SetTrue);
    let seed = Arg::new(alloc, "seed").long("seed");
    clap::Command::new(alloc, "xti")
        .no_binary_name(true)
        .disable_help_flag(true)
        .disable_version_flag(true)
        .arg(word)?
        .arg(summary)?
        .arg(seed)
}

/// Whether the flag of which `clap` keeps this text stands.
fn is_true(text: Option<&str>) -> bool
    ensures { result ≡ is_true (option_map (λ s. s.now) text.entry) }
{
    match text {
        Some(text) => text == "true",
        None => false,
    }
}

/// The number of 64 bits that a seed's text writes.
fn seed_of(text: &str) -> Option<u64>
    ensures { result ≡ seed_of text.now }
{
    text.parse().ok()
}

/// A reading beside which no seed may stand.
fn without_seed(reading: Reading, seed: Option<&str>) -> Option<Command>
    ensures { result ≡ without_seed reading (option_map (λ s. s.now) seed.entry) }
{
    match seed {
        Some(_) => None,
        None => Some(Command::Read(reading)),
    }
}

/// A reading beside which nothing may stand.
fn alone(reading: Reading, summary: bool, seed: Option<&str>) -> Option<Command>
    ensures { result ≡ alone reading summary (option_map (λ s. s.now) seed.entry) }
{
    if summary {
        None
    } else {
        without_seed(reading, seed)
    }
}

/// The command that generates, whose seed must stand.
fn generating(summary: bool, seed: Option<&str>) -> Option<Command>
    ensures { result ≡ generating summary (option_map (λ s. s.now) seed.entry) }
{
    let seed = seed_of(seed?)?;
    Some(Command::Gen { seed, summary })
}

/// The command of this name, with what stands beside it.
fn command_named(word: &str, summary: bool, seed: Option<&str>) -> Option<Command>
    ensures { result ≡ named word.now summary (option_map (λ s. s.now) seed.entry) }
{
    match word {
        "replay" => without_seed(Reading::Replay { summary }, seed),
        "run" => without_seed(Reading::Run { summary }, seed),
        "check" => alone(Reading::Check, summary, seed),
        "frames" => alone(Reading::Frames, summary, seed),
        "link" => alone(Reading::Link, summary, seed),
        "sock" => without_seed(Reading::Sock { summary }, seed),
        "gen" => generating(summary, seed),
        _ => None,
    }
}

/// The command that the matches of `clap` are.
pub(crate) fn matched(matches: &ArgMatches) -> Option<Command>
    ensures { result ≡ command_in (rows_of (found_of matches.now)) }
{
    let word = matches.get_str("command")?;
    let summary = is_true(matches.get_str("summary"));
    command_named(word, summary, matches.get_str("seed"))
}

/// Out of memory, or refused for another cause.
fn cause(kind: ErrorKind) -> WordsFail
    ensures memory { kind ≡ ErrorKind.OutOfMemory → result ≡ WordsFail.OutOfMemory }
    ensures other { result ≡ WordsFail.Refused → kind ≢ ErrorKind.OutOfMemory }
{
    match kind {
        ErrorKind::OutOfMemory => WordsFail::OutOfMemory,
        _ => WordsFail::Refused,
    }
}

/// The matches of the words by `clap`.
#[tactic(auto, unfolding(crate::specs::Words::faults_in, crate::specs::Words::found_in, crate::specs::Words::is_taken))]
pub(crate) fn matches<'a>(alloc: Global, words: &'a [String]) -> Result<ArgMatches<'a>, WordsFail>
    ensures found { IfOk result (λ m. rows_of (found_of m) ≡ found_in (texts words.entry.now)) }
    ensures no_fault { IfOk result (λ _. faults_in (texts words.entry.now) ≡ []) }
    ensures taken { AreTaken (texts words.entry.now) → IfErr result (λ e. e ≡ OutOfMemory) }
    ensures refused { IsErrOf result WordsFail.Refused → faults_in (texts words.entry.now) ≢ [] }
{
    let Ok(command_line) = command_line(alloc) else {
        return Err(WordsFail::OutOfMemory);
    };
    match command_line.try_get_matches_from(words) {
        Ok(matches) => Ok(matches),
        Err(error) => Err(cause(error.kind())),
    }
}
