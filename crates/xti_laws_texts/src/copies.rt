//! Laws of the journal of a copy: it has a text, which is of no other journal.

ghost use Rattle.std.specs.Prelude.{ℕ, ◌<◌, ◌^◌, List, length};
ghost use Rattle.xti_model.specs.SentBytes.{AreBytes};
ghost use Rattle.xti_journal.specs.Grammar.{HasText};
ghost use Rattle.xti_laws_streams.specs.Copying.{copy_journal};
ghost use Rattle.xti_laws_texts.specs.CopyTexts.{HasOwnText};

/// The journal of a copy of any bytes has a text, so what is written of it is read back.
///
/// `texts`: each call and each answer is in the form of journals, each number has 32 bits and each list of them is of
/// bytes. `only`: no other journal has that text, where the input has fewer than 2 ^ 62 bytes.
pub fn copies_have_texts()
    ensures texts { (input : List ℕ) → AreBytes input → HasText (copy_journal input) }
    ensures only { (input : List ℕ) → AreBytes input → length input < 2 ^ 62
        → HasOwnText (copy_journal input) }
{}
