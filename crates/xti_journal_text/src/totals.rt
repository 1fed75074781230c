//! The numbers of a summary.

ghost use Rattle.std.specs.Prelude.{◌≡◌, ◌++◌, false, [], OnOk};
ghost use Rattle.xti_journal_text.specs.Summaries.{is_err, is_part, got_by};
ghost use Rattle.xti_journal_text.specs.Counting.{CountsEntry, AreTotals, IsExact, is_full, totals_text};

use crate::payload::{is_error, is_ok};
use std::alloc::AllocError;
use xti_model::{Outcome, Reply};
use xti_words::put_number;

/// How entries ended, and how many bytes they sent and received. A number stays where 64 bits don't hold more.
#[derive(Clone, Copy)]
pub(crate) struct Totals {
    /// All entries.
    pub(crate) entries: u64,
    /// Calls that are done without an error.
    pub(crate) ok: u64,
    /// Calls that are done with an error.
    pub(crate) err: u64,
    /// Parts of calls.
    pub(crate) part: u64,
    /// Bytes that sends and datagram sends took.
    pub(crate) sent: u64,
    /// Bytes in the replies of receives and datagram receives.
    pub(crate) got: u64,
}

fn is_err(outcome: &Outcome) -> bool
    ensures { result ≡ is_err outcome.now }
{
    match outcome {
        Outcome::Done(reply) => is_error(reply),
        Outcome::Part { .. } => false,
    }
}

fn is_part(outcome: &Outcome) -> bool
    ensures { result ≡ is_part outcome.now }
{
    match outcome {
        Outcome::Done(_) => false,
        Outcome::Part { .. } => true,
    }
}

fn got_by(outcome: &Outcome) -> u64
    ensures { result ≡ got_by outcome.now }
{
    match outcome {
        Outcome::Done(Reply::Got { bytes, .. }) => bytes.as_slice().len() as u64,
        Outcome::Done(Reply::UData { bytes, .. }) => bytes.as_slice().len() as u64,
        _ => 0,
    }
}

impl Totals {
    /// Nothing is counted yet.
    pub(crate) fn new() -> Totals
        ensures { AreTotals [] result }
    {
        Totals {
            entries: 0,
            ok: 0,
            err: 0,
            part: 0,
            sent: 0,
            got: 0,
        }
    }

    /// Counts an entry that sent so many bytes.
    pub(crate) fn add(&mut self, outcome: &Outcome, sent: u64)
        ensures { CountsEntry outcome.now sent self.old self.new }
    {
        self.entries = self.entries.saturating_add(1);
        self.ok = self.ok.saturating_add(is_ok(outcome) as u64);
        self.err = self.err.saturating_add(is_err(outcome) as u64);
        self.part = self.part.saturating_add(is_part(outcome) as u64);
        self.sent = self.sent.saturating_add(sent);
        self.got = self.got.saturating_add(got_by(outcome));
    }

    /// Whether a number has come to the greatest one that 64 bits hold.
    pub(crate) fn is_full(&self) -> bool
        ensures full { result ≡ is_full self.now }
        ensures exact { result ≡ false → IsExact self.now }
    {
        self.entries == u64::MAX || self.sent == u64::MAX || self.got == u64::MAX
    }

    /// Appends the line up to its stalls.
    pub(crate) fn put(&self, out: &mut Vec<u8>) -> Result<(), AllocError>
        ensures { OnOk result (out.new.items ≡ out.old.items ++ totals_text self.now) }
    {
        put_number(out, "entries ", self.entries)
            .and(put_number(out, " ok ", self.ok))
            .and(put_number(out, " err ", self.err))
            .and(put_number(out, " part ", self.part))
            .and(put_number(out, " sent ", self.sent))
            .and(put_number(out, " got ", self.got))
    }
}
