//! The providers of C programs.

ghost use Rattle.std.specs.Prelude.{◌≡◌, true};
ghost use Rattle.xti_model.specs.Profile.{valid};
ghost use Rattle.xti_c.specs.Opening.{c_providers};

use xti_model::{Profile, Providers};

/// The usual values of version 2, but that data may go with an orderly release.
pub(crate) fn providers() -> Providers
    ensures values { result ≡ c_providers }
    ensures valid { valid result ≡ true }
{
    let usual = Providers::usual_two();
    Providers {
        ticotsord: Profile {
            reldata: true,
            ..usual.ticotsord
        },
        ..usual
    }
}
