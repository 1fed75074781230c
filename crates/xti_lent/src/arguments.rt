//! Arguments of calls that refuse them.

ghost use Rattle.std.specs.Prelude.{◌≡◌};
ghost use Rattle.xti_model.specs.Arguments.{bad_address, bad_options, bad_udata};

use xti_base::is_option_list;
use xti_base::limits::{MOST_ADDRESS, MOST_CONNECT_DATA, MOST_OPTIONS};

/// Whether the bytes can't be an address.
pub fn is_bad_address(address: &[u8]) -> bool
    ensures { result ≡ (bad_address address.now).holds }
{
    address.is_empty() || address.len() > MOST_ADDRESS
}

/// Whether the bytes can't be options.
pub fn is_bad_options(options: &[u8]) -> bool
    ensures { result ≡ (bad_options options.now).holds }
{
    options.len() > MOST_OPTIONS || !is_option_list(options)
}

/// Whether the bytes are too many to go with a request, a confirmation or a disconnect.
pub fn is_bad_udata(udata: &[u8]) -> bool
    ensures { result ≡ (bad_udata udata.now).holds }
{
    udata.len() > MOST_CONNECT_DATA
}
