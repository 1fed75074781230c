//! Bytes in, bytes out: what holds of the values of a legal history whose arguments are of bytes.

ghost use Rattle.std.specs.Prelude.{List};
ghost use Rattle.xti_model.specs.declared.entry.Entry.{Entry};
ghost use Rattle.xti_model.specs.declared.profile.Providers.{Providers};
ghost use Rattle.xti_laws.specs.Values.{KeepsValues};

use crate::worlds_stay_sound;

/// Where the calls of a legal history are of bytes, so are its answers, and each of their numbers has 32 bits.
///
/// The definitions' lists hold any numbers. `values`: where the values of the providers are valid, and each address, option
/// list and piece of data that a call begins with is of numbers below 256, each such list in an answer is too, and its
/// descriptors, sequence numbers, counts, flags, limits, reasons and codes are below 2 ^ 32.
pub fn answers_have_values()
    ensures values { (p : Providers) (entries : List Entry) → KeepsValues p entries }
{
    worlds_stay_sound();
}
