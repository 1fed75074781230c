//! Laws of the scripts that have a text.

ghost use Rattle.std.specs.Prelude.{◌≡◌, ◌≤◌, ◌+◌, ℕ, true, List, length};
ghost use Rattle.xti_model.specs.Profile.{releases_told, valid};
ghost use Rattle.xti_model.specs.Robin.{most_steps};
ghost use Rattle.xti_model.specs.SentBytes.{AllHaveByteArguments, LinesSendBytes};
ghost use Rattle.xti_model.specs.Work.{script_bytes};
ghost use Rattle.xti_model.specs.declared.script.Script.{Script};
ghost use Rattle.xti_script_reader.specs.Grammar.{HaveWorkers, HasText, IsScript};
ghost use Rattle.xti_script_reader.specs.Refused.{IsRefusedAt};

use xti_head::{heads_are_valid, heads_tell_releases};

/// A text is a script, or is refused at a line, and never both.
pub fn never_both()
    ensures { (text : List ℕ) (s : Script) (n : ℕ) → IsScript s text → IsRefusedAt text n → ⊥ }
{}

/// A text is that of one script.
pub fn one_script()
    ensures { (text : List ℕ) (s t : Script) → IsScript s text → IsScript t text → s ≡ t }
{}

/// The providers of a script that has a text are valid.
pub fn scripts_have_valid_providers()
    ensures { (s : Script) → HasText s → valid s.providers ≡ true }
{
    heads_are_valid();
}

/// In a script that has a text, data may go with a release of those providers alone of which texts of its version can say so:
/// of none in version 1, and of `ticotsord` in version 2.
pub fn scripts_tell_releases()
    ensures { (s : Script) → HasText s → releases_told s.providers ≡ true }
{
    heads_tell_releases();
}

/// Each worker of a script that has a text is one of 0 to 32.
pub fn scripts_have_workers()
    ensures { (s : Script) → HasText s → HaveWorkers s.lines }
{}

/// A script that has a text has no more lines and bytes of arguments than the bound on steps.
pub fn scripts_are_small()
    ensures { (s : Script) → HasText s → length s.lines + script_bytes s.lines ≤ most_steps }
{}

/// Each address, option list and piece of data of a script that has a text is bytes, and so is what its calls send.
///
/// `arguments` speaks of every call and every argument; `sends` of what is sent on connections.
pub fn scripts_send_bytes()
    ensures arguments { (s : Script) → HasText s → AllHaveByteArguments s.lines }
    ensures sends { (s : Script) → HasText s → LinesSendBytes s.lines }
{}
