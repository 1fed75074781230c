//! Laws of journals: each run of a script makes one, it is legal, and its text tells it; and what follows where a journal is
//! legal.
#![tactic(auto)]

ghost use Rattle.std.specs.Prelude.{List};
ghost use Rattle.xti_model.specs.declared.entry.Entry.{Entry};
ghost use Rattle.xti_model.specs.declared.script.Journal.{Journal};
ghost use Rattle.xti_model.specs.declared.script.Script.{Script};
ghost use Rattle.xti_model.specs.SentBytes.{AllSendBytes};
ghost use Rattle.xti_journal_text.specs.JournalText.{journal_text};
ghost use Rattle.xti_journal.specs.Grammar.{HasText, IsJournal};
ghost use Rattle.xti_check.specs.Verdicts.{IsLegal};
ghost use Rattle.xti_replay.specs.Few.{AreFew};
ghost use Rattle.xti_laws_streams.specs.Laws.{IsLegalRun, PrefixLaw, WaitingLaw, ReleaseLaw};
ghost use Rattle.xti_laws_journals.specs.Runs.{IsOnlyJournal, OfRunJournals, OfWholeRuns};

use xti_laws::{answers_have_values, steps_answer_in_form};
use xti_laws_streams::connections_keep_order;
use xti_script_reader::{
    scripts_are_small, scripts_have_valid_providers, scripts_send_bytes, scripts_tell_releases,
};

/// A legal history of a script has no more entries than the script has calls and bytes of arguments.
///
/// Each call makes one entry, and a send one more at most for each of its bytes: a step that isn't its last takes a byte or
/// more. A request to connect that waits makes two, and has an address of a byte or more.
pub fn runs_have_few_entries()
    ensures { (s : Script) (entries : List Entry) → IsLegalRun s entries → AreFew s entries }
{}

/// Each legal history of a script that has a text makes a journal that has a text.
///
/// `has_text`: with the stall lines of the workers that it leaves unfinished, each call and each answer is in the form of
/// journals, each number has 32 bits and each list of them is of bytes. `written`: so what is written of it is a journal.
/// `only`: no other journal has that text.
pub fn runs_make_journals()
    ensures has_text { OfRunJournals HasText }
    ensures written { OfRunJournals (λ j. IsJournal j (journal_text j)) }
    ensures only { OfRunJournals (λ j. IsOnlyJournal j (journal_text j)) }
{
    scripts_have_valid_providers();
    scripts_tell_releases();
    scripts_send_bytes();
    scripts_are_small();
    steps_answer_in_form();
    answers_have_values();
}

/// The journal of a legal history that ends only where nobody can go on is legal.
///
/// Its entries are the steps of their calls, and the step of each stall line is blocked at the end.
pub fn whole_runs_make_legal_journals()
    ensures { OfWholeRuns IsLegal }
{}

/// What the calls of a journal that has a text send on connections is bytes.
pub fn journals_send_bytes()
    ensures { (j : Journal) → HasText j → AllSendBytes j.entries }
{}

/// In a legal journal what was received on a connection is a prefix of what was sent.
///
/// The laws of connections, of every legal journal that has a text, whatever script or program made it.
pub fn legal_journals_keep_order()
    ensures prefix { (j : Journal) → HasText j → IsLegal j → PrefixLaw j.providers j.entries }
    ensures waiting { (j : Journal) → HasText j → IsLegal j → WaitingLaw j.providers j.entries }
    ensures release { (j : Journal) → HasText j → IsLegal j → ReleaseLaw j.providers j.entries }
{
    journals_send_bytes();
    connections_keep_order();
}
