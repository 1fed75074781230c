ghost use Rattle.xti_model.specs.declared.script.Script.{Script};
ghost use Rattle.xti_model.specs.Robin.{robin};
ghost use Rattle.xti_model.specs.SentBytes.{LinesSendBytes};
ghost use Rattle.xti_laws.specs.Laws.{OfLegalHistories};
ghost use Rattle.xti_laws_streams.specs.Laws.{OfHistoriesOfBytes, OfRunsOfTexts, PrefixLaw, WaitingLaw, ReleaseLaw};

/// On each connection what was received is a prefix of what was sent.
///
/// Of every legal history whose sends are of bytes, of normal and of expedited data each by itself, and of either
/// end. `prefix`: what the end received is a prefix of what the other end sent. `waiting`: while its life lasts, and it
/// is linked or the release waits there, what waits, put after what it received, is what was sent. `release`: if it
/// received the release, it received all.
pub fn connections_keep_order()
    ensures prefix { OfHistoriesOfBytes PrefixLaw }
    ensures waiting { OfHistoriesOfBytes WaitingLaw }
    ensures release { OfHistoriesOfBytes ReleaseLaw }
{}

/// The same of the run of any script in which the workers take turns, where the sends of its lines are of bytes.
pub fn replays_keep_order()
    ensures prefix { (s : Script) → LinesSendBytes s.lines → PrefixLaw s.providers (robin s) }
    ensures waiting { (s : Script) → LinesSendBytes s.lines → WaitingLaw s.providers (robin s) }
    ensures release { (s : Script) → LinesSendBytes s.lines → ReleaseLaw s.providers (robin s) }
{}

/// The same of every legal history of a script that has a text, whose sends are always of bytes.
pub fn scripts_keep_order()
    ensures prefix { OfRunsOfTexts PrefixLaw }
    ensures waiting { OfRunsOfTexts WaitingLaw }
    ensures release { OfRunsOfTexts ReleaseLaw }
{}

/// Without the premise on bytes each law is wrong of some legal history.
///
/// The definitions' lists hold any numbers, and 256 stands for the end of a message: on a byte stream a 256 that was
/// sent is lost.
pub fn bytes_are_needed()
    ensures prefix { OfLegalHistories PrefixLaw → ⊥ }
    ensures waiting { OfLegalHistories WaitingLaw → ⊥ }
    ensures release { OfLegalHistories ReleaseLaw → ⊥ }
{}
