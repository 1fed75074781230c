//! The bounds of the providers' values.

use crate::cases::expect;
use xti_base::{Limit, Prov};
use xti_model::{Profile, Providers};

/// A message size, whether messages may be empty, whether an address may have several endpoints, the sizes of the buffers for
/// sends and for receives, and whether ticots, ticotsord and ticlts may have these values.
type Row = (Limit, bool, bool, u32, u32, [bool; 3]);

static ROWS: [Row; 23] = [
    // message sizes
    (Limit::At(0), false, false, 512, 512, [false, true, false]),
    (Limit::At(0), true, false, 512, 512, [false; 3]),
    (Limit::At(1), true, false, 512, 512, [true; 3]),
    (Limit::At(1), false, false, 512, 512, [true; 3]),
    (Limit::At(65536), true, false, 512, 512, [true; 3]),
    (Limit::At(65537), true, false, 512, 512, [false; 3]),
    (Limit::At(65537), false, false, 512, 512, [false; 3]),
    (Limit::At(4294967295), true, false, 512, 512, [false; 3]),
    (Limit::Infinite, true, false, 512, 512, [true, true, false]),
    (Limit::Infinite, false, false, 512, 512, [true, true, false]),
    (Limit::Invalid, true, false, 512, 512, [false; 3]),
    (Limit::Invalid, false, false, 512, 512, [false; 3]),
    // buffers
    (Limit::At(512), true, false, 0, 512, [false; 3]),
    (Limit::At(512), true, false, 1, 512, [true; 3]),
    (Limit::At(512), true, false, 65536, 512, [true; 3]),
    (Limit::At(512), true, false, 65537, 512, [false; 3]),
    (Limit::At(512), true, false, 4294967295, 512, [false; 3]),
    (Limit::At(512), true, false, 512, 0, [false; 3]),
    (Limit::At(512), true, false, 512, 1, [true; 3]),
    (Limit::At(512), true, false, 512, 65536, [true; 3]),
    (Limit::At(512), true, false, 512, 65537, [false; 3]),
    (Limit::At(512), true, false, 512, 4294967295, [false; 3]),
    // the same address is for connections
    (Limit::At(512), true, true, 512, 512, [true, true, false]),
];

/// Whether the values are valid, as `valid` and `checked` say; where they aren't, this provider's are wrong.
fn is_valid(p: Providers, prov: Prov) -> bool {
    match p.checked() {
        Ok(same) => p.valid() && same == p,
        Err(wrong) => p.valid() || wrong.prov != prov,
    }
}

/// Whether ticots, ticotsord and ticlts may have these values, where the others have the usual ones.
fn may_have(profile: Profile) -> [bool; 3] {
    let usual = Providers::usual();
    let ticots = Providers {
        ticots: profile,
        ..usual
    };
    let ticotsord = Providers {
        ticotsord: profile,
        ..usual
    };
    let ticlts = Providers {
        ticlts: profile,
        ..usual
    };
    [
        is_valid(ticots, Prov::Ticots),
        is_valid(ticotsord, Prov::Ticotsord),
        is_valid(ticlts, Prov::Ticlts),
    ]
}

#[test]
fn bounds(rt: HostRuntime) {
    for (number, (tsdu, sendzero, same_addr, sndbuf, rcvbuf, wanted)) in ROWS.iter().enumerate() {
        let profile = Profile {
            tsdu: *tsdu,
            sendzero: *sendzero,
            same_addr: *same_addr,
            sndbuf: *sndbuf,
            rcvbuf: *rcvbuf,
            reldata: false,
        };
        expect(&rt, may_have(profile) == *wanted, &number);
    }
    assert!(rt; Providers::usual().valid());
}
