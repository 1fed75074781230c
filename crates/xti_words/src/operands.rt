//! What words without a key stand for.

ghost use Rattle.std.specs.Prelude.{◌≡◌};
ghost use Rattle.xti_words.specs.Values.{provider_in, mode_in, action_in};

use crate::values::number_in;
use xti_base::Prov;
use xti_opt::{T_CHECK, T_CURRENT, T_DEFAULT, T_NEGOTIATE};

/// The provider that the word names; `other` stands for a name that names no provider.
#[tactic(auto, unfolding(crate::specs::Values::provider_in))]
pub fn provider_in(word: &[u8]) -> Option<Prov>
    ensures { result ≡ provider_in word.now }
{
    if word == b"ticots".as_slice() {
        Some(Prov::Ticots)
    } else if word == b"ticotsord".as_slice() {
        Some(Prov::Ticotsord)
    } else if word == b"ticlts".as_slice() {
        Some(Prov::Ticlts)
    } else if word == b"other".as_slice() {
        Some(Prov::Other)
    } else {
        None
    }
}

/// Whether the mode that the word is, is `nonblock`.
#[tactic(auto, unfolding(crate::specs::Values::mode_in))]
pub fn mode_in(word: &[u8]) -> Option<bool>
    ensures { result ≡ mode_in word.now }
{
    if word == b"nonblock".as_slice() {
        Some(true)
    } else if word == b"block".as_slice() {
        Some(false)
    } else {
        None
    }
}

/// The action that the word is, by its name or by a number (XNS, t_optmgmt).
#[tactic(auto, unfolding(crate::specs::Values::action_in))]
pub fn action_in(word: &[u8]) -> Option<u32>
    ensures { result ≡ action_in word.now }
{
    if word == b"negotiate".as_slice() {
        Some(T_NEGOTIATE)
    } else if word == b"check".as_slice() {
        Some(T_CHECK)
    } else if word == b"default".as_slice() {
        Some(T_DEFAULT)
    } else if word == b"current".as_slice() {
        Some(T_CURRENT)
    } else {
        number_in(word)
    }
}
