//! The copy.

ghost use Rattle.std.specs.Prelude.{◌≡◌, ◌++◌, [], flat_map, IfOk, OnOk};
ghost use Rattle.xti_model.specs.SentBytes.{AreBytes};
ghost use Rattle.xti_laws_streams.specs.Copying.{before, copied, exchange, pieces};
ghost use Rattle.xti_copy.specs.Ends.{AreInStep, connected};
ghost use Rattle.xti_copy.specs.Going.{Comes, IsAt};

use crate::Rider;
use crate::connecting::{Ends, connect};
use crate::releasing::release;
use crate::settling::made;
use std::alloc::{AllocError, Global};
use std::sync::Wait;
use xti_base::let_go;
use xti_laws_streams::{PIECE, copies_are_legal};
use xti_model::{Entries, Providers};

/// The bytes of a slice are numbers below 256.
fn slices_are_bytes(bytes: &[u8])
    ensures { AreBytes bytes.now }
{}

/// A piece is sent at one end, and received at the other.
fn exchange<R: Wait + Sync>(
    ends: &mut Ends,
    io: &mut Rider,
    rt: &R,
    alloc: Global,
    piece: &[u8],
) -> Result<(), AllocError>
    requires ends { ends.old ≡ connected }
    requires step { AreInStep connected io.old.entries }
    requires at { IsAt io.old.entries io.old }
    requires comes { Comes io.old.entries (exchange piece.now) }
    ensures ends { OnOk result (ends.new ≡ connected) }
    ensures at { OnOk result (IsAt (io.old.entries ++ exchange piece.now) io.new) }
{
    let _sent = made(ends.client.send(io, rt, alloc, piece))?;
    let received = made(ends.receiver.recv(io, rt, alloc, PIECE as u32))?;
    let_go(received);
    Ok(())
}

/// All pieces of the input, one after the other.
fn exchange_all<R: Wait + Sync>(
    ends: &mut Ends,
    io: &mut Rider,
    rt: &R,
    alloc: Global,
    input: &[u8],
) -> Result<(), AllocError>
    requires ends { ends.old ≡ connected }
    requires at { IsAt before io.old }
    requires comes { Comes before (flat_map exchange (pieces input.now)) }
    ensures ends { OnOk result (ends.new ≡ connected) }
    ensures at { OnOk result (IsAt (before ++ flat_map exchange (pieces input.now)) io.new) }
{
    let mut rest = input;
    while !rest.is_empty() {
        let (piece, more) = rest.split_at(rest.len().min(PIECE));
        exchange(ends, io, rt, alloc, piece)?;
        rest = more;
    }
    Ok(())
}

/// The calls of a copy.
fn make_calls<R: Wait + Sync>(
    io: &mut Rider,
    rt: &R,
    alloc: Global,
    input: &[u8],
) -> Result<(), AllocError>
    requires at { IsAt [] io.old }
    requires comes { Comes [] (copied input.now) }
    ensures at { OnOk result (IsAt (copied input.now) io.new) }
{
    let mut ends = connect(io, rt, alloc)?;
    exchange_all(&mut ends, io, rt, alloc, input)?;
    release(&mut ends, io, rt, alloc)
}

/// Copies the input over two sockets of one thread, and answers the entries of all calls.
///
/// `entries`: they are those of the copy, whatever the input. `bytes`: it is one of bytes.
pub fn copy<R: Wait + Sync>(rt: &R, alloc: Global, input: &[u8]) -> Result<Entries, AllocError>
    ensures entries { IfOk result (λ entries. entries ≡ copied input.now) }
    ensures bytes { AreBytes input.now }
{
    copies_are_legal();
    slices_are_bytes(input);
    let mut rider = Rider::new(alloc, &Providers::usual())?;
    match make_calls(&mut rider, rt, alloc, input) {
        Ok(()) => Ok(rider.into_entries()),
        Err(fail) => {
            let_go(rider);
            Err(fail)
        }
    }
}
