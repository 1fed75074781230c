//! Laws of generated scripts.

ghost use Rattle.std.specs.Prelude.{◌≡◌, ℕ};
ghost use Rattle.xti_model.specs.Profile.{usual};
ghost use Rattle.xti_script_reader.specs.Grammar.{HasText, IsScript};
ghost use Rattle.xti_script.specs.Canonical.{script_text};
ghost use Rattle.xti_script.specs.Generated.{generated};

/// A generated script is the script of its canonical text, and so has a text; its providers have their usual values.
pub fn generated_scripts_have_texts()
    ensures canonical { (seed : ℕ) → IsScript (generated seed) (script_text (generated seed)) }
    ensures texts { (seed : ℕ) → HasText (generated seed) }
    ensures providers { (seed : ℕ) → (generated seed).providers ≡ usual }
{}
