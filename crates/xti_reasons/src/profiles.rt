//! The bounds of the values of providers, in heads and in journals.

use crate::bounded::Reason;
use xti_base::Prov;
use xti_base::limits::MOST_SIZE;

/// What is expected of a number that is neither one of a buffer's bytes nor, of this provider, the most bytes of a message.
fn wanted_size(prov: Prov, is_tsdu: bool, number: i64) -> Option<&'static str> {
    if 1 <= number && number <= MOST_SIZE as i64 {
        return None;
    }
    if !is_tsdu || prov == Prov::Ticlts {
        Some("a number from 1 to 65536")
    } else if number == -1 || number == 0 && prov == Prov::Ticotsord {
        None
    } else if prov == Prov::Ticots {
        Some("a number from 1 to 65536, or -1")
    } else {
        Some("a number from 0 to 65536, or -1")
    }
}

/// What is expected of a provider's value, 0 or 1 where it says yes or no; `tsdu` is that of the key `tsdu`.
pub(crate) fn wanted_setting(
    prov: Prov,
    key: &[u8],
    number: i64,
    tsdu: i64,
) -> Option<&'static str> {
    let is_same_addr = key == b"same_addr".as_slice();
    if is_same_addr || key == b"sendzero".as_slice() {
        if number != 1 {
            None
        } else if !is_same_addr && tsdu == 0 {
            Some("no empty messages, as tsdu is 0")
        } else if is_same_addr && prov == Prov::Ticlts {
            Some("0")
        } else {
            None
        }
    } else if key == b"reldata".as_slice() {
        None
    } else {
        wanted_size(prov, key == b"tsdu".as_slice(), number)
    }
}

/// Says that the key of the provider has another value than was expected.
pub(crate) fn wrong_value(prov: Prov, key: &[u8], wanted: &str, reason: &mut Reason) {
    reason.about(prov.name().as_bytes());
    reason.about(key);
    reason.put("expected ");
    reason.put(wanted);
}
