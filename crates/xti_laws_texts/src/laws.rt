ghost use Rattle.xti_laws_texts.specs.Texts.{OfAnswersInForm, IsToldByText};

/// Answers of one call that differ have texts that differ.
///
/// `told`: an outcome in the form of the call, whose numbers have 32 bits and whatever its bytes, and a state have a text
/// that no other answer of the call has, of those that journals have.
pub fn answers_differ_in_text()
    ensures told { OfAnswersInForm IsToldByText }
{}
