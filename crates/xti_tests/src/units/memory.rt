//! With memory at hand these calls don't answer out of memory.

use crate::cases::{are_bytes, expect};
use std::alloc::Global;
use xti_base::{Calls, Octets, Parts, Room};

/// Whether the copy of a copy of the bytes, to which one more may have been added, has these.
fn is_copied(alloc: Global, front: &[u8], last: Option<u8>, wanted: &[u8]) -> bool {
    let Ok(mut bytes) = Octets::copy_of(alloc, front) else {
        return false;
    };
    let is_added = match last {
        Some(last) => bytes.push(last).is_ok(),
        None => true,
    };
    let copy = bytes.copy();
    drop(bytes);
    are_bytes(copy, wanted) && is_added
}

/// Whether a copy of a list of one part has one.
fn is_copied_part(alloc: Global) -> bool {
    let Ok(part) = Octets::copy_of(alloc, b"abc") else {
        return false;
    };
    let mut parts = Parts::new(alloc);
    let is_added = parts.push(part).is_ok();
    let copy = parts.copy();
    let is_copied = matches!(&copy, Ok(copy) if copy.as_slice().len() == 1);
    drop(copy);
    drop(parts);
    is_added && is_copied
}

/// Whether a copy of a list of one number has that number alone.
fn is_copied_number(alloc: Global) -> bool {
    let mut calls = Calls::new(alloc);
    let is_added = calls.push(7).is_ok();
    let copy = calls.copy();
    let is_copied = matches!(&copy, Ok(copy) if copy.as_slice() == [7].as_slice());
    drop(copy);
    drop(calls);
    is_added && is_copied
}

/// Whether room that nothing is added to has no bytes.
fn is_unused(alloc: Global) -> bool {
    match Room::new(alloc, 3) {
        Ok(room) => are_bytes(Ok(room.finish()), b""),
        Err(_) => false,
    }
}

#[test]
fn copies(rt: HostRuntime) {
    let bytes = [7; 100];
    for length in 0..=bytes.len() {
        let front = &bytes[..length];
        expect(&rt, is_copied(rt.alloc(), front, None, front), &length);
    }
    let are_copied = is_copied(rt.alloc(), b"ab", Some(99), b"abc")
        && is_copied_part(rt.alloc())
        && is_copied_number(rt.alloc())
        && is_unused(rt.alloc());
    assert!(rt; are_copied);
}
