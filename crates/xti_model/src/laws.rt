//! Laws of the starting values, and of histories over all scripts.

ghost use Rattle.std.specs.Prelude.{◌≡◌, true};
ghost use Rattle.std.specs.List.{concat};
ghost use Rattle.xti_model.specs.declared.script.Script.{Script};
ghost use Rattle.xti_model.specs.History.{Legal};
ghost use Rattle.xti_model.specs.Robin.{robin};
ghost use Rattle.xti_model.specs.SentBytes.{AreBytes, SendsBytes};
ghost use Rattle.xti_model.specs.Complete.{Follows, Each, workers, Complete, FromAnyHistory, IsShort, GoesOnLegally, GoesOnInOrder, GoesOnToTheEnd};

use crate::call::Call;
use xti_base::Octets;

/// Round robin goes on legally from any legal history, and the whole run is legal.
pub fn robin_is_legal()
    ensures goes_on { FromAnyHistory GoesOnLegally }
    ensures whole { (s : Script) → Legal s.providers (robin s) }
{}

/// From any legal history of a script round robin goes on so that each worker's calls stand in script order, each once,
/// and until each worker is finished or blocked, where it may make as many steps as the script has lines and bytes of
/// arguments.
pub fn robin_goes_on()
    ensures follows { FromAnyHistory GoesOnInOrder }
    ensures complete { FromAnyHistory GoesOnToTheEnd }
{}

/// In the round-robin run of any script each worker's calls stand in script order, each once.
pub fn robin_follows()
    ensures { (s : Script) → Each (Follows (robin s) s.lines) workers }
{}

/// Where the lines and the bytes of their arguments are no more than the bound on steps, the round-robin run of a script
/// goes on until each worker is finished or blocked.
pub fn robin_is_complete()
    ensures { (s : Script) → IsShort s → Complete s.providers (robin s) s.lines }
{}

// The bytes of a slice are numbers below 256.
fn slices_are_bytes(bytes: &[u8])
    ensures { AreBytes bytes.now }
{}

// So are those of all parts together.
fn parts_are_bytes(parts: &[Octets])
    ensures { AreBytes (concat parts.now) }
{
    for part in parts {
        slices_are_bytes(part.as_slice());
    }
}

/// What a call of code sends on a connection is bytes: each number is below 256.
pub fn calls_send_bytes(call: &Call)
    ensures { SendsBytes call.now }
{
    match call {
        Call::TSnd { bytes, .. } => slices_are_bytes(bytes.as_slice()),
        Call::TSndV { parts, .. } => parts_are_bytes(parts.as_slice()),
        _ => {}
    }
}
