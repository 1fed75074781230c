//! What a step answers.

ghost use Rattle.xti_laws.specs.Laws.{OfAnyStep};
ghost use Rattle.xti_laws.specs.Answers.{StepAnswersInForm};

/// Each step answers as the form of its call says.
///
/// `form`: in any world, whatever was told of the call's progress and whatever its arguments, the answer is an error, a
/// part, or what the call answers where it is done. TLOOK comes with its event, and TBUFOVFLW with its number.
pub fn steps_answer_in_form()
    ensures form { OfAnyStep StepAnswersInForm }
{}
