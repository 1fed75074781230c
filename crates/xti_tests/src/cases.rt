//! What a test tells of its cases.

use std::alloc::AllocError;
use std::fmt::Display;
use std::process::Abort;
use xti_base::Octets;

/// The test fails where the case doesn't hold, and tells which: its number, from 0, or what it is about.
pub(crate) fn expect<R: Abort, T: Display>(rt: &R, holds: bool, case: &T) {
    assert!(rt; holds, "this case is wrong: {case}");
}

/// Whether these are the bytes, for which there was memory.
pub(crate) fn are_bytes(bytes: Result<Octets, AllocError>, wanted: &[u8]) -> bool {
    match bytes {
        Ok(bytes) => {
            let is_same = bytes.as_slice() == wanted;
            drop(bytes);
            is_same
        }
        Err(_) => false,
    }
}
