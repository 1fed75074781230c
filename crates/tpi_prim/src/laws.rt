//! What holds of every primitive and its frame.

ghost use Rattle.std.specs.Prelude.{◌≡◌, List, ℕ};
ghost use Rattle.tpi_grammar.specs.Frame.{Filled, IsFilled};
ghost use Rattle.tpi_grammar.specs.Measured.{IsFrame};
ghost use Rattle.tpi_prim.specs.declared.primitive.Prim.{Prim};
ghost use Rattle.tpi_prim.specs.Primitive.{filled, kind_of, Spells};
ghost use Rattle.tpi_prim.specs.Fields.{kind_in, primitive_in};
ghost use Rattle.tpi_prim.specs.Reading.{GivesWhatItRead, TellsWhereItGoesWrong};

/// Each row of the table that can be filled in is a primitive; each frame is that of the primitive that is read from its
/// bytes, and of no other.
pub fn primitives_law()
    ensures rows { (f : Filled) → IsFilled f → (p : Prim) × (filled p ≡ f) }
    ensures frames { (bs : List ℕ) → IsFrame bs → Spells (primitive_in bs) bs }
    ensures only { (p : Prim) (bs : List ℕ) → Spells p bs → primitive_in bs ≡ p }
    ensures kinds { (bs : List ℕ) → kind_of (primitive_in bs) ≡ kind_in bs }
{}

/// Over any pieces a reader has given the primitives of the bytes that it was fed; and where a feed says `Bad`, all bytes ever
/// fed can't go on as frames from the place that it tells.
pub fn pieces_law()
    ensures given { GivesWhatItRead }
    ensures bad { TellsWhereItGoesWrong }
{}
