//! Workers that make a connection, send and receive on it, and release it.

ghost use Rattle.std.specs.Prelude.{◌≡◌, ◌++◌, OnOk};
ghost use Rattle.xti_script.specs.Generated.{connection_setup, receive_rounds, send_rounds, accepting_side, connecting_side};

use crate::generating::calls::{accept, connect, listen, open, put, put_bound, receive, send};
use crate::generating::ring::round_bytes;
use crate::generating::sizes::{ACCEPTING, CONNECTING, ROUNDS};
use std::alloc::AllocError;
use xti_base::Prov;
use xti_model::{Line, Name, NamedCall};

/// Appends the setup of the connection.
pub(crate) fn put_connection_setup(lines: &mut Vec<Line>) -> Result<(), AllocError>
    ensures { OnOk result (lines.new.items ≡ lines.old.items ++ connection_setup) }
{
    let alloc = *lines.allocator();
    put_bound(lines, Prov::Ticotsord, b"l", b"srv", 1)?;
    put_bound(lines, Prov::Ticotsord, b"c", b"", 0)?;
    put(lines, 0, open(alloc, b"r", Prov::Ticotsord)?)
}

fn put_receive_rounds(lines: &mut Vec<Line>) -> Result<(), AllocError>
    ensures { OnOk result (lines.new.items ≡ lines.old.items ++ receive_rounds ROUNDS) }
{
    let alloc = *lines.allocator();
    for _round in 0..ROUNDS {
        put(lines, ACCEPTING, receive(alloc, b"r")?)?;
    }
    Ok(())
}

/// Appends the lines of the worker that accepts.
pub(crate) fn put_accepting_side(lines: &mut Vec<Line>) -> Result<(), AllocError>
    ensures { OnOk result (lines.new.items ≡ lines.old.items ++ accepting_side) }
{
    let alloc = *lines.allocator();
    put(lines, ACCEPTING, listen(alloc, b"l", b"q")?)?;
    put(lines, ACCEPTING, accept(alloc, b"l", b"r", b"q")?)?;
    put_receive_rounds(lines)?;
    let fd = Name::copy_of(alloc, b"r")?;
    put(lines, ACCEPTING, NamedCall::TRcvRel { fd })
}

fn put_send_rounds(lines: &mut Vec<Line>, shift: u32) -> Result<(), AllocError>
    ensures { OnOk result (lines.new.items ≡ lines.old.items ++ send_rounds shift ROUNDS) }
{
    let alloc = *lines.allocator();
    for round in 0..ROUNDS {
        let bytes = round_bytes(alloc, shift, CONNECTING, round)?;
        put(lines, CONNECTING, send(alloc, b"c", bytes)?)?;
    }
    Ok(())
}

/// Appends the lines of the worker that connects.
pub(crate) fn put_connecting_side(lines: &mut Vec<Line>, shift: u32) -> Result<(), AllocError>
    ensures { OnOk result (lines.new.items ≡ lines.old.items ++ connecting_side shift) }
{
    let alloc = *lines.allocator();
    put(lines, CONNECTING, connect(alloc, b"c", b"srv")?)?;
    put_send_rounds(lines, shift)?;
    let fd = Name::copy_of(alloc, b"c")?;
    put(lines, CONNECTING, NamedCall::TSndRel { fd })
}
