//! Laws of a copy: one worker sends an input over one connection, from one of its endpoints to another.

ghost use Rattle.std.specs.Prelude.{ℕ, List};
ghost use Rattle.xti_model.specs.SentBytes.{AreBytes};
ghost use Rattle.xti_model.specs.Profile.{usual};
ghost use Rattle.xti_model.specs.History.{Legal};
ghost use Rattle.xti_laws_streams.specs.Copying.{AreCalls, copy_calls, copied};
ghost use Rattle.xti_laws_streams.specs.CopyLaws.{IsNextEntry, HasOneConnection, HasSentItsInput, HasGotItsInput};

/// The most bytes of a piece, which is sent at once.
pub const PIECE: usize = 1_024;

/// The entries of a copy are those of its calls, in their order, each call done in one step of worker 0.
pub fn copies_make_their_calls()
    ensures { (input : List ℕ) → AreCalls 0 (copy_calls input) (copied input) }
{}

/// The entries of a copy are the legal ones of its calls.
///
/// Of each input of bytes, however long. `legal`: they are a legal history of the usual providers. `only`: after the
/// first of them no other entry that begins the next call is legal, so each answer is that of the copy.
pub fn copies_are_legal()
    ensures legal { (input : List ℕ) → AreBytes input → Legal usual (copied input) }
    ensures only { (input : List ℕ) → AreBytes input → IsNextEntry (copied input) }
{}

/// A copy has one connection, and each end of it the input.
///
/// `one`: no entry but the accept makes a connection. `sent`: the normal data that the client sent, all pieces joined,
/// are the input. `got`: so are those that the other end received.
pub fn copies_copy_their_input()
    ensures one { (input : List ℕ) → HasOneConnection (copied input) }
    ensures sent { (input : List ℕ) → HasSentItsInput input (copied input) }
    ensures got { (input : List ℕ) → HasGotItsInput input (copied input) }
{}
