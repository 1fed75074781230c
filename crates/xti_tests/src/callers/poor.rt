//! A caller, and a socket call of it.

ghost use Rattle.std.specs.Prelude.{[], true};
ghost use Rattle.xti_model.specs.Profile.{usual};

use std::alloc::Global;
use std::sync::Wait;
use xti_model::{Call, Reply};
use xti_sock::{CallEnd, Caller, Sock, SockFail};

/// A caller that never finds memory, and so has no entries.
#[derive(Drop)]
struct Poor;

impl Caller for Poor {
    ghost sight = { λ p. record {
      providers = usual;
      number = 0;
      seen = [];
      mine = [];
      free = true;
    } };

    fn call<R: Wait + Sync>(
        &mut self,
        _rt: &R,
        _alloc: Global,
        _made: &Call,
    ) -> Result<Reply, CallEnd> {
        Err(CallEnd::OutOfMemory { taken: 0 })
    }

    fn free(&self) -> bool {
        true
    }
}

#[test]
fn no_socket_without_memory(rt: HostRuntime) {
    let mut io = Poor;
    let alloc = rt.alloc();
    let made = Sock::socket(&mut io, &rt, alloc, false);
    let is_refused = matches!(
        &made,
        Err(SockFail::Ended(CallEnd::OutOfMemory { taken: 0 }))
    );
    drop(made);
    assert!(rt; is_refused);
}
