//! The cells that a step is lent.

ghost use Rattle.std.specs.Prelude.{◌≡◌, true, IfSome};
ghost use Rattle.xti_end.specs.Held.{is_open};
ghost use Rattle.xti_tests.specs.Lent.{HasNothing};

use std::alloc::Global;
use xti_base::{Fd, Prov};
use xti_end::Endpoint;
use xti_lent::Lent;
use xti_model::Providers;

/// An open endpoint of place 5; `None` where there is no memory for it.
fn opened(alloc: Global) -> Option<Box<Endpoint>>
    ensures { IfSome result (λ e. (e.value.place ≡ 5) × (is_open e.value ≡ true)) }
{
    let mut e = Endpoint::closed(alloc, 5);
    e.open(Prov::Ticlts, false, &Providers::usual());
    Box::new(alloc, e).ok()
}

/// Whether an open endpoint of place 5 that is lent is changed where it is, and is found by its own descriptor alone.
fn is_changed(lent: &mut Lent, e: Box<Endpoint>) -> bool
    requires nothing { HasNothing lent.old }
    requires place { e.value.place ≡ 5 }
    requires open { is_open e.value ≡ true }
{
    lent.lend(5, e);
    lent.endpoint(5).set_nonblock(true);
    let is_changed = lent.endpoint_ref(5).nonblock();
    let is_open = lent.open_endpoint(Fd(5)).is_some();
    let is_open_later = lent.open_endpoint(Fd(69)).is_some();
    is_changed && is_open && !is_open_later
}

/// Whether an endpoint was lent under this number; it is taken back.
fn takes_back(lent: &mut Lent, place: u32) -> bool {
    let e = lent.take_back(place);
    let is_there = e.is_some();
    drop(e);
    is_there
}

/// Whether an endpoint that is lent is changed where it is, and taken back.
fn is_changed_in_place(alloc: Global) -> bool {
    let p = Providers::usual();
    let Some(e) = opened(alloc) else {
        return false;
    };
    let mut lent = Lent::new(alloc, &p);
    let is_changed = is_changed(&mut lent, e);
    let has_switch = lent.has(p.switch_number());
    let has_other = takes_back(&mut lent, 6);
    let has_own = takes_back(&mut lent, 5);
    let is_empty = lent.places().is_empty();
    drop(lent);
    is_changed && !has_switch && !has_other && has_own && is_empty
}

#[test]
fn changes_a_lent_endpoint_in_place(rt: HostRuntime) {
    assert!(rt; is_changed_in_place(rt.alloc()));
}
