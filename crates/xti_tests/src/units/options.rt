//! The table of negotiation: each case as a list and in bytes.

use crate::cases::{are_bytes, expect};
use std::alloc::{AllocError, Global};
use xti_base::{Room, is_option_list};
use xti_opt::*;

/// A value: its length, and its bytes as two numbers of four bytes each, filled up by zeros.
type Value = (u32, u32, u32);

/// An option's level, name and asked value, and the result and value that it is answered with.
type Row = (u32, u32, Value, u32, Value);

/// An action, how many options it has, the overall result and the sizes of sends and receives afterwards.
///
/// The options stand in a table of their own: the more slices a table has, the more a proof over it takes for each of them.
type Case = (u32, usize, u32, u32, u32);

const G: u32 = XTI_GENERIC;

const EMPTY: Value = (0, 0, 0);

/// The bytes 0, 0 and 1.
const SHORT: Value = (3, 0x100, 0);

/// The bytes 0, 0, 0, 1 and 0.
const LONG: Value = (5, 1, 0);

const ZERO: Value = (4, 0, 0);

const ONE: Value = (4, 1, 0);

const FIVE: Value = (4, 5, 0);

const MOST: Value = (4, 0x10000, 0);

const OVER: Value = (4, 0x10001, 0);

const HUGE: Value = (4, 0xffff_ffff, 0);

/// The current sizes, 1,000 and 2,000, and those that the provider started with, 8,192 and 16,384.
const SENDS: Value = (4, 1000, 0);

const RECEIVES: Value = (4, 2000, 0);

const STARTS_SENDS: Value = (4, 8192, 0);

const STARTS_RECEIVES: Value = (4, 16384, 0);

/// What a request is to be answered with: the options, the overall result, and the settings afterwards.
#[derive(Clone, Copy)]
struct Wanted<'a> {
    bytes: &'a [u8],
    overall: u32,
    after: Settings,
}

/// The options of all cases, those of each behind those of the one before.
static ROWS: [Row; 65] = [
    // sizes of sends
    (G, XTI_SNDBUF, EMPTY, T_FAILURE, SENDS),
    (G, XTI_SNDBUF, SHORT, T_FAILURE, SENDS),
    (G, XTI_SNDBUF, LONG, T_FAILURE, SENDS),
    (G, XTI_SNDBUF, ZERO, T_FAILURE, SENDS),
    (G, XTI_SNDBUF, ONE, T_SUCCESS, ONE),
    (G, XTI_SNDBUF, ZERO, T_FAILURE, ONE),
    (G, XTI_SNDBUF, MOST, T_SUCCESS, MOST),
    (G, XTI_SNDBUF, FIVE, T_SUCCESS, FIVE),
    (G, XTI_SNDBUF, OVER, T_PARTSUCCESS, MOST),
    (G, XTI_SNDBUF, FIVE, T_SUCCESS, FIVE),
    (G, XTI_SNDBUF, HUGE, T_PARTSUCCESS, MOST),
    // sizes of receives
    (G, XTI_RCVBUF, EMPTY, T_FAILURE, RECEIVES),
    (G, XTI_RCVBUF, SHORT, T_FAILURE, RECEIVES),
    (G, XTI_RCVBUF, LONG, T_FAILURE, RECEIVES),
    (G, XTI_RCVBUF, ZERO, T_FAILURE, RECEIVES),
    (G, XTI_RCVBUF, MOST, T_SUCCESS, MOST),
    (G, XTI_RCVBUF, SHORT, T_FAILURE, MOST),
    (G, XTI_RCVBUF, ONE, T_SUCCESS, ONE),
    (G, XTI_RCVBUF, OVER, T_PARTSUCCESS, MOST),
    (G, XTI_RCVBUF, FIVE, T_SUCCESS, FIVE),
    // one that fits
    (G, XTI_SNDBUF, FIVE, T_SUCCESS, FIVE),
    // one that fits, and one that doesn't
    (G, XTI_RCVBUF, HUGE, T_PARTSUCCESS, MOST),
    (G, XTI_SNDBUF, ONE, T_SUCCESS, ONE),
    // read only is worse than a failure
    (G, XTI_SNDLOWAT, EMPTY, T_READONLY, ONE),
    (G, XTI_SNDLOWAT, ONE, T_READONLY, ONE),
    (G, XTI_RCVLOWAT, FIVE, T_READONLY, ONE),
    (G, XTI_RCVLOWAT, LONG, T_READONLY, ONE),
    (G, XTI_RCVBUF, ZERO, T_FAILURE, RECEIVES),
    // not known is the worst
    (G, 4096, FIVE, T_NOTSUPPORT, EMPTY),
    (G, 4101, EMPTY, T_NOTSUPPORT, EMPTY),
    (G, XTI_SNDBUF, FIVE, T_SUCCESS, FIVE),
    (G, XTI_RCVLOWAT, ONE, T_READONLY, ONE),
    // checks of sizes of sends
    (G, XTI_SNDBUF, EMPTY, T_SUCCESS, EMPTY),
    (G, XTI_SNDBUF, SHORT, T_FAILURE, SENDS),
    (G, XTI_SNDBUF, LONG, T_FAILURE, SENDS),
    (G, XTI_SNDBUF, ZERO, T_FAILURE, SENDS),
    (G, XTI_SNDBUF, ONE, T_SUCCESS, ONE),
    (G, XTI_SNDBUF, MOST, T_SUCCESS, MOST),
    (G, XTI_SNDBUF, OVER, T_PARTSUCCESS, MOST),
    (G, XTI_SNDBUF, HUGE, T_PARTSUCCESS, MOST),
    (G, XTI_SNDBUF, ZERO, T_FAILURE, SENDS),
    // checks of sizes of receives
    (G, XTI_RCVBUF, EMPTY, T_SUCCESS, EMPTY),
    (G, XTI_RCVBUF, ONE, T_SUCCESS, ONE),
    (G, XTI_RCVBUF, OVER, T_PARTSUCCESS, MOST),
    // checks of what is read only
    (G, XTI_SNDLOWAT, EMPTY, T_READONLY, EMPTY),
    (G, XTI_SNDLOWAT, FIVE, T_READONLY, ONE),
    (G, XTI_RCVLOWAT, EMPTY, T_READONLY, EMPTY),
    (G, XTI_RCVLOWAT, SHORT, T_READONLY, ONE),
    (G, XTI_RCVBUF, SHORT, T_FAILURE, RECEIVES),
    // the numbers of known options at another level
    (6, XTI_SNDBUF, EMPTY, T_NOTSUPPORT, EMPTY),
    (6, XTI_RCVBUF, FIVE, T_NOTSUPPORT, EMPTY),
    (6, XTI_SNDLOWAT, LONG, T_NOTSUPPORT, EMPTY),
    // current sizes
    (G, XTI_SNDBUF, EMPTY, T_SUCCESS, SENDS),
    (G, XTI_SNDBUF, HUGE, T_SUCCESS, SENDS),
    (G, XTI_RCVBUF, SHORT, T_SUCCESS, RECEIVES),
    (G, XTI_RCVBUF, ZERO, T_SUCCESS, RECEIVES),
    // sizes that the provider started with
    (G, XTI_SNDBUF, EMPTY, T_SUCCESS, STARTS_SENDS),
    (G, XTI_SNDBUF, LONG, T_SUCCESS, STARTS_SENDS),
    (G, XTI_RCVBUF, ONE, T_SUCCESS, STARTS_RECEIVES),
    (G, XTI_RCVBUF, OVER, T_SUCCESS, STARTS_RECEIVES),
    // the current values of what is read only
    (G, XTI_RCVLOWAT, EMPTY, T_READONLY, ONE),
    (G, XTI_SNDLOWAT, FIVE, T_READONLY, ONE),
    (G, 0, ONE, T_NOTSUPPORT, EMPTY),
    // what the provider started with of the same
    (G, XTI_SNDLOWAT, EMPTY, T_READONLY, ONE),
    (G, XTI_RCVLOWAT, LONG, T_READONLY, ONE),
];

static CASES: [Case; 15] = [
    (T_NEGOTIATE, 11, T_FAILURE, 65536, 2000),
    (T_NEGOTIATE, 9, T_FAILURE, 1000, 5),
    (T_NEGOTIATE, 1, T_SUCCESS, 5, 2000),
    (T_NEGOTIATE, 2, T_PARTSUCCESS, 1, 65536),
    (T_NEGOTIATE, 5, T_READONLY, 1000, 2000),
    (T_NEGOTIATE, 4, T_NOTSUPPORT, 5, 2000),
    (T_CHECK, 9, T_FAILURE, 1000, 2000),
    (T_CHECK, 3, T_PARTSUCCESS, 1000, 2000),
    (T_CHECK, 5, T_READONLY, 1000, 2000),
    (T_CHECK, 3, T_NOTSUPPORT, 1000, 2000),
    (T_CURRENT, 4, T_SUCCESS, 1000, 2000),
    (T_DEFAULT, 4, T_SUCCESS, 1000, 2000),
    (T_CURRENT, 3, T_NOTSUPPORT, 1000, 2000),
    (T_DEFAULT, 2, T_READONLY, 1000, 2000),
    // no option
    (T_DEFAULT, 0, T_SUCCESS, 1000, 2000),
];

/// The sizes before each request.
const SETTINGS: Settings = Settings {
    sndbuf: 1000,
    rcvbuf: 2000,
    start_sndbuf: 8192,
    start_rcvbuf: 16384,
};

/// Adds the options as they are asked, with a status that doesn't count, or as they are to be answered.
fn add(bytes: &mut Vec<u8>, rows: &[Row], answered: bool) -> Result<(), AllocError> {
    for (level, name, asked, result, answer) in rows {
        let (status, value) = if answered {
            (*result, *answer)
        } else {
            (77, *asked)
        };
        let (length, front, back) = value;
        let words = [
            length.saturating_add(16),
            *level,
            *name,
            status,
            front,
            back,
        ];
        let count = 4 + length.min(8).div_ceil(4) as usize;
        for word in &words[..count] {
            bytes.extend_from_slice(&word.to_be_bytes())?;
        }
    }
    Ok(())
}

/// Whether the request is answered so in bytes, of which there are as many as it was said.
fn is_answered_in_bytes(alloc: Global, action: u32, request: &[u8], wanted: &Wanted) -> bool {
    let Ok(size) = answer_size(action, request) else {
        return false;
    };
    let Ok(mut room) = Room::new(alloc, size) else {
        return false;
    };
    let mut after = SETTINGS;
    let overall = negotiate_bytes(&mut after, action, request, &mut room);
    let bytes = room.finish();
    let is_same = bytes.as_slice().len() == size && bytes.as_slice() == wanted.bytes;
    drop(bytes);
    is_same && overall == Ok(wanted.overall) && after == wanted.after
}

/// Whether the request is answered so as a list.
fn is_answered_as_list(alloc: Global, action: u32, request: &[u8], wanted: &Wanted) -> bool {
    let Ok(list) = read_options(alloc, request) else {
        return false;
    };
    let mut after = SETTINGS;
    let answered = negotiate(alloc, &mut after, action, &list);
    drop(list);
    let Ok((answers, overall)) = answered else {
        return false;
    };
    let bytes = write_options(alloc, &answers);
    drop(answers);
    are_bytes(bytes, wanted.bytes) && overall == wanted.overall && after == wanted.after
}

/// Whether the options are answered as the case is to be, as a list and in bytes.
fn holds(alloc: Global, case: &Case, rows: &[Row]) -> bool {
    let (action, _, overall, sndbuf, rcvbuf) = *case;
    let mut asked = Vec::new(alloc);
    let mut told = Vec::new(alloc);
    let are_added = add(&mut asked, rows, false).is_ok() && add(&mut told, rows, true).is_ok();
    let wanted = Wanted {
        bytes: told.as_slice(),
        overall,
        after: Settings {
            sndbuf,
            rcvbuf,
            ..SETTINGS
        },
    };
    let holds = are_added
        && is_answered_as_list(alloc, action, asked.as_slice(), &wanted)
        && is_answered_in_bytes(alloc, action, asked.as_slice(), &wanted);
    drop(asked);
    drop(told);
    holds
}

#[test]
fn negotiates(rt: HostRuntime) {
    let mut rows = ROWS.as_slice();
    for (number, case) in CASES.iter().enumerate() {
        let (own, others) = rows.split_at(case.1.min(rows.len()));
        expect(&rt, holds(rt.alloc(), case, own), &number);
        rows = others;
    }
    assert!(rt; rows.is_empty());
}

/// The bytes of an option without a value at level 6.
const OTHER_LEVEL: &[u8] = b"\0\0\0\x10\0\0\0\x06\0\0\0\x01\0\0\0\0";

/// A receive size of 70,000 and a low-water mark of 5, which can't be set.
const LARGE: &[u8] =
    b"\0\0\0\x14\0\0\xff\xff\0\0\x10\x02\0\0\0\0\0\x01\x11\x70\0\0\0\x14\0\0\xff\xff\0\0\x10\x03\0\0\0\0\0\0\0\x05";

/// `LARGE` without its last byte.
const CUT: &[u8] =
    b"\0\0\0\x14\0\0\xff\xff\0\0\x10\x02\0\0\0\0\0\x01\x11\x70\0\0\0\x14\0\0\xff\xff\0\0\x10\x03\0\0\0\0\0\0\0";

/// `LARGE`, and behind it the option at the other level.
const MIXED: &[u8] =
    b"\0\0\0\x14\0\0\xff\xff\0\0\x10\x02\0\0\0\0\0\x01\x11\x70\0\0\0\x14\0\0\xff\xff\0\0\x10\x03\0\0\0\0\0\0\0\x05\0\0\0\x10\0\0\0\x06\0\0\0\x01\0\0\0\0";

/// An action, a request, the options that it is to be answered with, the overall result, and the size of receives afterwards.
type Answered = (u32, &'static [u8], &'static [u8], u32, u32);

static ANSWERS: [Answered; 4] = [
    (T_CURRENT, b"", b"", 32, 2000),
    (
        T_NEGOTIATE,
        LARGE,
        b"\0\0\0\x14\0\0\xff\xff\0\0\x10\x02\0\0\x01\0\0\x01\0\0\0\0\0\x14\0\0\xff\xff\0\0\x10\x03\0\0\x02\0\0\0\0\x01",
        512,
        65536,
    ),
    // a value of five bytes, filled up by zeros, and a check without a value
    (
        T_CHECK,
        b"\0\0\0\x15\0\0\xff\xff\0\0\x10\x01\0\0\0\x20\0\0\0\x07\x07\0\0\0\0\0\0\x10\0\0\xff\xff\0\0\x10\x02\0\0\0\0",
        b"\0\0\0\x14\0\0\xff\xff\0\0\x10\x01\0\0\0\x40\0\0\x03\xe8\0\0\0\x10\0\0\xff\xff\0\0\x10\x02\0\0\0\x20",
        64,
        2000,
    ),
    (
        T_NEGOTIATE,
        OTHER_LEVEL,
        b"\0\0\0\x10\0\0\0\x06\0\0\0\x01\0\0\x04\0",
        1024,
        2000,
    ),
];

/// An action, a request, and why it is refused, in bytes and as a list.
type Refused = (u32, &'static [u8], OptRefusal, OptFail);

static REFUSALS: [Refused; 7] = [
    (7, b"", OptRefusal::BadFlag, OptFail::BadFlag),
    (0, LARGE, OptRefusal::BadFlag, OptFail::BadFlag),
    // the action is looked at first
    (12, MIXED, OptRefusal::BadFlag, OptFail::BadFlag),
    (T_SUCCESS, CUT, OptRefusal::BadFlag, OptFail::BadFlag),
    // a byte is missing, and two levels
    (T_NEGOTIATE, CUT, OptRefusal::BadOption, OptFail::BadOption),
    (T_CURRENT, MIXED, OptRefusal::BadOption, OptFail::BadOption),
    (T_CHECK, MIXED, OptRefusal::BadOption, OptFail::BadOption),
];

/// Whether bytes that are a list of options are refused so as a list, and the settings stay as they were.
fn is_refused(alloc: Global, action: u32, request: &[u8], fail: OptFail) -> bool {
    let Ok(list) = read_options(alloc, request) else {
        return !is_option_list(request);
    };
    let mut after = SETTINGS;
    let answered = negotiate(alloc, &mut after, action, &list);
    drop(list);
    let is_refused = matches!(&answered, Err(found) if *found == fail);
    drop(answered);
    is_refused && after == SETTINGS
}

#[test]
fn answers_and_refuses_bytes(rt: HostRuntime) {
    for (number, (action, request, bytes, overall, rcvbuf)) in ANSWERS.iter().enumerate() {
        let wanted = Wanted {
            bytes,
            overall: *overall,
            after: Settings {
                rcvbuf: *rcvbuf,
                ..SETTINGS
            },
        };
        let is_answered = is_answered_in_bytes(rt.alloc(), *action, request, &wanted);
        expect(&rt, is_answered, &number);
    }
    for (number, (action, request, refusal, fail)) in REFUSALS.iter().enumerate() {
        let is_refused = answer_size(*action, request) == Err(*refusal)
            && is_refused(rt.alloc(), *action, request, *fail);
        assert!(rt; is_refused, "this refusal is wrong: {number}");
    }
}
