//! Laws of link scripts.

ghost use Rattle.std.specs.Prelude.{ℕ, List};
ghost use Rattle.xti_gbn.specs.declared.events.LinkEvent.{LinkEvent};
ghost use Rattle.xti_gbn.specs.Grammar.{AreSameOf};
ghost use Rattle.xti_gbn.specs.Refused.{IsNotRefused};

/// No text is both a link script and refused at a line.
pub fn never_both()
    ensures { (events : List LinkEvent) (text : List ℕ) (line : ℕ) → IsNotRefused events text line }
{}

/// A text is that of one list of events.
pub fn one_reading()
    ensures { (events others : List LinkEvent) (text : List ℕ) → AreSameOf events others text }
{}
