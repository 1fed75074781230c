//! Lists of options: which bytes are one, and reading and writing them.

use crate::cases::{are_bytes, expect};
use std::alloc::Global;
use xti_base::is_option_list;
use xti_opt::{OptRead, read_options, write_options};

/// Length 20, level 65535, name 4098, status 0, and a value of four bytes.
const WHOLE: &[u8] = b"\0\0\0\x14\0\0\xff\xff\0\0\x10\x02\0\0\0\0\0\0\0\x05";

/// Its value.
const FIVE: &[u8] = b"\0\0\0\x05";

/// Bytes, how many options they are or where the first wrong one begins, and what the case is about.
type Case = (&'static [u8], Result<usize, OptRead>, &'static str);

static CASES: [Case; 15] = [
    (b"", Ok(0), "no bytes"),
    (WHOLE, Ok(1), "one option"),
    (
        b"\0\0\0\x14\0\0\xff\xff\0\0\x10\x02\0\0\0\0\0\0\0",
        Err(OptRead::BadOption { at: 0 }),
        "a byte is missing",
    ),
    (
        b"\0\0\0\x14\0\0\xff\xff\0\0\x10\x02\0\0\0\0",
        Err(OptRead::BadOption { at: 0 }),
        "the value is missing",
    ),
    (
        b"\0\0\0\x10\0\0\xff\xff\0\0\x10\x02\0\0\0\0",
        Ok(1),
        "no value",
    ),
    (
        b"\0\0\0\x0f\0\0\xff\xff\0\0\x10\x02\0\0\0\0",
        Err(OptRead::BadOption { at: 0 }),
        "a length below 16",
    ),
    (
        b"\0\0\0\x0f\0\0\0\0\0\0\0\0\0\0\0\0",
        Err(OptRead::BadOption { at: 0 }),
        "a length below 16 before zeros",
    ),
    (
        b"\0\0\0\x15\0\0\xff\xff\0\0\x10\x02\0\0\0\0\0\0\0\x05\x07\0\0\0",
        Ok(1),
        "filled up by zeros",
    ),
    (
        b"\0\0\0\x15\0\0\xff\xff\0\0\x10\x02\0\0\0\0\0\0\0\x05\x07\0\0\x01",
        Err(OptRead::BadOption { at: 0 }),
        "filled up by another byte",
    ),
    (
        b"\0\0\0\x15\0\0\xff\xff\0\0\x10\x02\0\0\0\0\0\0\0\x05\x07",
        Err(OptRead::BadOption { at: 0 }),
        "not filled up",
    ),
    (
        b"\xff\xff\xff\xff\0\0\xff\xff\0\0\x10\x02\0\0\0\0",
        Err(OptRead::BadOption { at: 0 }),
        "the largest length",
    ),
    (
        b"\0\0\0\x18\0\0\xff\xff\0\0\x10\x02\0\0\0\0\0\0\0\x05",
        Err(OptRead::BadOption { at: 0 }),
        "a length over what is left",
    ),
    (
        b"\0\0\0\x10\0\0\xff\xff\0\0\x10\x02\0\0\0\0\0\0\0\x14\0\0\xff\xff\0\0\x10\x02\0\0\0\0\0\0\0\x05",
        Ok(2),
        "two options",
    ),
    (
        b"\0\0\0\x10\0\0\0\x01\0\0\0\x02\0\0\0\x03\0\0\0\x11\0\0\0\x04\0\0\0\x05\0\0\0\x06\x07\0\0\0",
        Ok(2),
        "two options with other fields",
    ),
    (
        b"\0\0\0\x14\0\0\xff\xff\0\0\x10\x02\0\0\0\0\0\0\0\x05\0\0\0\x14\0\0\xff\xff\0\0\x10\x02\0\0\0\0\0\0\0",
        Err(OptRead::BadOption { at: 20 }),
        "the second option is cut off",
    ),
];

/// Whether the bytes are read as so many options, which are written as the same bytes, or refused so.
fn is_read(alloc: Global, bytes: &[u8], expected: Result<usize, OptRead>) -> bool {
    match read_options(alloc, bytes) {
        Ok(list) => {
            let count = list.len();
            let written = write_options(alloc, &list);
            drop(list);
            are_bytes(written, bytes) && Ok(count) == expected
        }
        Err(wrong) => Err(wrong) == expected,
    }
}

#[test]
fn reads_and_writes(rt: HostRuntime) {
    for (bytes, expected, case) in &CASES {
        let is_right = is_option_list(bytes) == expected.is_ok()
            && is_read(rt.alloc(), bytes, *expected);
        expect(&rt, is_right, case);
    }
    let list = read_options(rt.alloc(), WHOLE).expect(&rt, "a list");
    let are_kept = match list.get(0) {
        Some(option) => {
            (option.level, option.name, option.status) == (65535, 4098, 0)
                && option.value.as_slice() == FIVE
        }
        None => false,
    };
    drop(list);
    expect(&rt, are_kept, &"the fields of one option");
}
