//! Writing scripts.

ghost use Rattle.std.specs.Prelude.{◌≡◌, ◌++◌, OnOk, IfOk};
ghost use Rattle.xti_model.specs.Profile.{usual_of};
ghost use Rattle.xti_script_reader.specs.Grammar.{first_line, HasText, IsScript};
ghost use Rattle.xti_script.specs.Canonical.{line_text, script_text};

use crate::calls::put_call;
use crate::laws::scripts_are_read_back;
use std::alloc::{AllocError, Global};
use xti_base::Octets;
use xti_model::{Line, Script, Version};
use xti_words::{put_number, put_text};

/// The first line of scripts of the version.
fn first_line(version: Version) -> &'static str
    ensures { result.now ≡ first_line version }
{
    match version {
        Version::One => "xti-script 1",
        Version::Two => "xti-script 2",
    }
}

fn put_line(out: &mut Vec<u8>, line: &Line) -> Result<(), AllocError>
    ensures { OnOk result (out.new.items ≡ out.old.items ++ line_text line.now) }
{
    put_number(out, "", line.worker as u64)
        .and(put_text(out, " "))
        .and(put_call(out, &line.call))
        .and(put_text(out, "\n"))
}

/// The canonical text of a script: each field of each call, bytes in hexadecimal digits, an action as its number.
///
/// The script is one that has a text and whose providers have the usual values of its version: scripts with a head that sets
/// others are read and not written. The text is read back as the same script. `Err` is out of memory.
#[tactic(auto, unfolding(crate::specs::Canonical::script_text))]
pub fn write_script(alloc: Global, s: &Script) -> Result<Octets, AllocError>
    requires text { HasText s.now }
    requires providers { s.now.providers ≡ usual_of s.now.providers.version }
    ensures text { IfOk result (λ text. text ≡ script_text s.now) }
    ensures read_back { IfOk result (λ text. IsScript s.now text) }
{
    scripts_are_read_back();
    let mut out = Vec::new(alloc);
    put_text(&mut out, first_line(s.providers.version))?;
    put_text(&mut out, "\n")?;
    for line in s.lines.as_slice() {
        put_line(&mut out, line)?;
    }
    Ok(Octets::from_vec(out))
}
