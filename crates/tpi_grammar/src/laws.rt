//! What the grammar says of all frames.

ghost use Rattle.std.specs.Prelude.{◌≡◌, ◌≢◌, ◌+◌, ℕ, List, [], ◌++◌, length};
ghost use Rattle.tpi_grammar.specs.Form.{Form, Live, Means, short, bad, scan};
ghost use Rattle.tpi_grammar.specs.Frame.{Filled, IsFilled, IsIn, Row, spelling, table};
ghost use Rattle.tpi_grammar.specs.Kinds.{row_of};
ghost use Rattle.tpi_grammar.specs.Measured.{IsFrame, MeansFrame};
ghost use Rattle.tpi_grammar.specs.Frames.{HaveOneReading, IsFirstWrong, IsFrames, TakeOneMore};

use crate::kind::Kind;

/// Reading a form byte by byte tells a whole text, the start of one, or the first bad place.
pub fn reading_law()
    ensures { (f : Form) → Live f → (bs : List ℕ) → Means f bs (scan f bs) }
{}

/// The rows of the primitives are those of the table, and no two primitives have one number.
pub fn kinds_law()
    ensures listed { (kind : Kind) → IsIn (row_of kind) table }
    ensures all { (r : Row) → IsIn r table → (kind : Kind) × (row_of kind ≡ r) }
    ensures one { (a b : Kind) → (row_of a).number ≡ (row_of b).number → a ≡ b }
{}

/// Each frame is the encoding of one row and its values only, and no frame is a prefix of another.
pub fn one_spelling()
    ensures one { (f g : Filled) → IsFilled f → IsFilled g → spelling f ≡ spelling g → f ≡ g }
    ensures apart { (a b x y : List ℕ) → IsFrame a → IsFrame b → a ++ x ≡ b ++ y → a ≡ b }
{}

/// Frames one after the other are read one by one, and in one way. Where the next one is bad or cut, there the whole is
/// wrong first, and nowhere else.
pub fn frames_law()
    ensures bad_frame { (front rest : List ℕ) (at : ℕ) → IsFrames front → MeansFrame rest (bad at) →
        IsFirstWrong (front ++ rest) (length front + at) }
    ensures cut_frame { (front rest : List ℕ) → IsFrames front → MeansFrame rest short → rest ≢ [] →
        IsFirstWrong (front ++ rest) (length (front ++ rest)) }
    ensures one_more { TakeOneMore }
    ensures one_reading { HaveOneReading }
    ensures never_both { (bs : List ℕ) (at : ℕ) → IsFirstWrong bs at → IsFrames bs → ⊥ }
    ensures one_place { (bs : List ℕ) (a b : ℕ) → IsFirstWrong bs a → IsFirstWrong bs b → a ≡ b }
{}
