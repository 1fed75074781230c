//! Laws of what the command prints and what it judges.

ghost use Rattle.std.specs.Prelude.{◌≡◌, length};
ghost use Rattle.xti_check.specs.Judgements.{legal_text};
ghost use Rattle.xti_outputs.specs.Outputs.{OfCheckedRuns};

use xti_journal::never_both;

/// `check` says legal of what `run` and `replay` print.
///
/// Where the text of a whole run, printed without `--summary`, is within the limit of an input, `check` answers it with status
/// 0 and the number of the run's entries, and with nothing else.
pub fn check_says_legal_of_runs()
    ensures status { OfCheckedRuns (λ entries status said. status ≡ 0) }
    ensures said { OfCheckedRuns (λ entries status said. said ≡ legal_text (length entries)) }
{
    never_both();
}
