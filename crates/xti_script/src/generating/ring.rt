//! Workers that send datagrams around a ring.

ghost use Rattle.std.specs.Prelude.{◌≡◌, ◌+◌, ◌<◌, ◌≤◌, ◌∷◌, [], ◌++◌, OnOk, IfOk};
ghost use Rattle.xti_script.specs.Generated.{ring_name, next, round_bytes, setups, ring_setup, datagram_round, worker_rounds, ring};

use crate::generating::calls::{put, put_bound, receive_datagram, send_to};
use crate::generating::sizes::{MOST_SENT, RING, ROUNDS};
use std::alloc::{AllocError, Global};
use xti_base::{Octets, Prov};
use xti_model::Line;
use xti_words::counted;

/// The bytes that a worker sends in a round.
pub(crate) fn round_bytes(
    alloc: Global,
    shift: u32,
    worker: u32,
    round: u32,
) -> Result<Octets, AllocError>
    ensures { IfOk result (λ bytes. bytes ≡ round_bytes shift worker round) }
{
    let count = 1 + (shift as u64 + worker as u64 + round as u64) % MOST_SENT as u64;
    counted(alloc, count as usize)
}

// The endpoint of a worker, and its address.
fn ring_name(worker: u32) -> [u8; 2]
    requires { worker ≤ RING }
    ensures { result ≡ ring_name worker }
{
    [b'n', b'0' + worker as u8]
}

// The worker to which a worker sends.
fn next(worker: u32) -> u32
    requires { worker ≤ RING }
    ensures { result ≡ next worker }
{
    if worker == RING { 1 } else { worker + 1 }
}

fn put_ring_setup(lines: &mut Vec<Line>, worker: u32) -> Result<(), AllocError>
    requires { worker ≤ RING }
    ensures { OnOk result (lines.new.items ≡ lines.old.items ++ ring_setup worker) }
{
    let name = ring_name(worker);
    put_bound(lines, Prov::Ticlts, &name, &name, 0)
}

/// Appends the setup of the ring.
pub(crate) fn put_setups(lines: &mut Vec<Line>) -> Result<(), AllocError>
    ensures { OnOk result (lines.new.items ≡ lines.old.items ++ setups RING) }
{
    for worker in 1..=RING {
        put_ring_setup(lines, worker)?;
    }
    Ok(())
}

fn put_datagram_round(
    lines: &mut Vec<Line>,
    shift: u32,
    worker: u32,
    round: u32,
) -> Result<(), AllocError>
    requires { worker ≤ RING }
    ensures { OnOk result (lines.new.items ≡ lines.old.items ++ datagram_round shift worker round) }
{
    let alloc = *lines.allocator();
    let name = ring_name(worker);
    let bytes = round_bytes(alloc, shift, worker, round)?;
    let addr = ring_name(next(worker));
    put(lines, worker, send_to(alloc, &name, &addr, bytes)?)?;
    put(lines, worker, receive_datagram(alloc, &name)?)
}

fn put_datagram_rounds(lines: &mut Vec<Line>, shift: u32, worker: u32) -> Result<(), AllocError>
    requires { worker ≤ RING }
    ensures { OnOk result (lines.new.items ≡ lines.old.items ++ worker_rounds shift worker) }
{
    for round in 0..ROUNDS {
        put_datagram_round(lines, shift, worker, round)?;
    }
    Ok(())
}

/// Appends the rounds of the ring, one worker after the other.
pub(crate) fn put_ring(lines: &mut Vec<Line>, shift: u32) -> Result<(), AllocError>
    ensures { OnOk result (lines.new.items ≡ lines.old.items ++ ring shift RING) }
{
    for worker in 1..=RING {
        put_datagram_rounds(lines, shift, worker)?;
    }
    Ok(())
}
