//! Laws of canonical texts.

ghost use Rattle.std.specs.Prelude.{◌≡◌};
ghost use Rattle.xti_model.specs.declared.script.Script.{Script};
ghost use Rattle.xti_model.specs.Profile.{usual_of};
ghost use Rattle.xti_script_reader.specs.Grammar.{HasText, IsScript};
ghost use Rattle.xti_script.specs.Canonical.{AreSameIfRead, script_text};

use xti_script_reader::one_script;

/// What is written is read back as the same script.
pub fn scripts_are_read_back()
    ensures written { (s : Script) → HasText s →
        s.providers ≡ usual_of s.providers.version → IsScript s (script_text s) }
    ensures same { (s other : Script) → HasText s →
        s.providers ≡ usual_of s.providers.version → AreSameIfRead s other }
{
    one_script();
}
