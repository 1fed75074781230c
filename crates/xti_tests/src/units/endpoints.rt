//! What an endpoint tells of its provider's values.

use crate::cases::expect;
use std::alloc::Global;
use xti_base::{Fd, Prov};
use xti_end::Endpoint;
use xti_model::{Applied, Call, Go, Outcome, Profile, Providers, Reply};

/// The provider of an endpoint, whether it sends empty messages and releases with data, and the flags that t_getinfo tells.
type Flags = (Prov, bool, bool, u32);

static FLAGS: [Flags; 6] = [
    (Prov::Ticots, false, true, 0),
    (Prov::Ticots, true, true, 1),
    (Prov::Ticotsord, false, false, 0),
    (Prov::Ticotsord, false, true, 2),
    (Prov::Ticotsord, true, true, 3),
    (Prov::Ticlts, true, true, 1),
];

/// Providers that each have these values.
fn providers(sendzero: bool, reldata: bool) -> Providers {
    let usual = Providers::usual();
    let profile = Profile {
        sendzero,
        reldata,
        ..usual.ticots
    };
    Providers {
        ticots: profile,
        ticotsord: profile,
        ticlts: profile,
        ..usual
    }
}

/// The flags of an open endpoint, where each provider has these values.
fn flags(alloc: Global, prov: Prov, sendzero: bool, reldata: bool) -> Option<u32> {
    if prov == Prov::Other {
        return None;
    }
    let p = providers(sendzero, reldata);
    let mut e = Endpoint::closed(alloc, 0);
    e.open(prov, false, &p);
    let call = Call::TGetInfo { fd: Fd(0) };
    let told = e.local(&call, Go::Begin, &p);
    drop(call);
    drop(e);
    let found = match &told {
        Ok(
            Applied::Step {
                outcome: Outcome::Done(Reply::Limits { info }),
                ..
            },
        ) => Some(info.flags),
        _ => None,
    };
    drop(told);
    found
}

#[test]
fn tells_flags(rt: HostRuntime) {
    for (number, (prov, sendzero, reldata, wanted)) in FLAGS.iter().enumerate() {
        expect(
            &rt,
            flags(rt.alloc(), *prov, *sendzero, *reldata) == Some(*wanted),
            &number,
        );
    }
}
