//! Laws of journals and their texts.

ghost use Rattle.std.specs.Prelude.{◌<◌, ◌^◌, ℕ, List, length};
ghost use Rattle.xti_model.specs.declared.script.Journal.{Journal};
ghost use Rattle.xti_journal_text.specs.JournalText.{journal_text};
ghost use Rattle.xti_journal.specs.Grammar.{AreSame, HasText, IsJournal};
ghost use Rattle.xti_journal.specs.Refused.{IsRefusedAt};

/// A text is a journal, or is refused at a line, and never both.
pub fn never_both()
    ensures { (text : List ℕ) (j : Journal) (n : ℕ) → IsJournal j text → IsRefusedAt text n → ⊥ }
{}

/// A text that a slice can hold is that of one journal.
pub fn one_journal()
    ensures { (text : List ℕ) (j k : Journal) → length text < 2 ^ 63 → AreSame text j k }
{}

/// What is written of a journal that has a text is the text of this journal.
pub fn written_journals_are_read()
    ensures { (j : Journal) → HasText j → IsJournal j (journal_text j) }
{}
