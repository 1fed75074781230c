//! Laws of heads.

ghost use Rattle.std.specs.Prelude.{◌≡◌, ℕ, true, List, Some};
ghost use Rattle.xti_model.specs.Profile.{releases_told, valid};
ghost use Rattle.xti_model.specs.declared.profile.Version.{Version};
ghost use Rattle.xti_model.specs.declared.profile.Providers.{Providers};
ghost use Rattle.xti_head.specs.Head.{head_of};

/// The providers that a head gives are valid.
pub fn heads_are_valid()
    ensures { (version : Version) (text : List ℕ) (p : Providers) →
        head_of version text ≡ Some p → valid p ≡ true }
{}

/// The providers that a head gives have its version, and data may go with a release of those alone of which texts of the
/// version can say so: `ticotsord` in version 2.
pub fn heads_tell_releases()
    ensures version { (version : Version) (text : List ℕ) (p : Providers) →
        head_of version text ≡ Some p → p.version ≡ version }
    ensures releases { (version : Version) (text : List ℕ) (p : Providers) →
        head_of version text ≡ Some p → releases_told p ≡ true }
{}
