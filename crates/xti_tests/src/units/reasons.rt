//! The reasons of refused texts: texts that are made to harm who reads the reason.

use crate::cases::expect;
use std::alloc::Global;
use xti_reasons::{Kind, MOST_REASON, reason};

/// Whether the reason has no byte but printable ASCII, and isn't too long.
fn is_harmless(alloc: Global, kind: Kind, text: &[u8], line: u64) -> bool {
    let told = reason(alloc, kind, text, line);
    let bytes = told.as_bytes();
    let mut is_harmless = bytes.len() <= MOST_REASON;
    for c in bytes {
        is_harmless = is_harmless && b' ' <= *c && *c <= b'~';
    }
    is_harmless
}

static HOSTILE: [&[u8]; 8] = [
    b"",
    b"\n\n\n\n\n\n",
    b"\x1b]0;title\x07\x1b[2J\n\x1b[31m\n",
    b"xti-script 1\n0 open \x1b[31m ticots\n0 \xff\xfe\n",
    b"xti-script 1\n+++\n[\"\\u001b[31m\"]\n+++\n",
    b"xti-script 1\n+++\n[ticots]\n\"\\u001b\\u0007\" = 1\n+++\n",
    b"xti-link 1\noffer \x07\n\x00\n",
    b"xti-journal 1\nprovider \x1b\nprovider ticotsord \x9b\n",
];

/// Of each kind and of some lines.
#[test]
fn control_characters(rt: HostRuntime) {
    for (number, text) in HOSTILE.iter().enumerate() {
        for line in [0, 1, 2, 3, 6, u64::MAX] {
            let are_harmless = is_harmless(rt.alloc(), Kind::Script, text, line)
                && is_harmless(rt.alloc(), Kind::Journal, text, line)
                && is_harmless(rt.alloc(), Kind::Link, text, line);
            expect(&rt, are_harmless, &number);
        }
    }
}
