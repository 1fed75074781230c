//! How the connection is released in order, and all is closed.

ghost use Rattle.std.specs.Prelude.{◌≡◌, ◌++◌, OnOk};
ghost use Rattle.xti_laws_streams.specs.Copying.{ending};
ghost use Rattle.xti_copy.specs.Ends.{AreInStep, HasReleased, MayRelease, closing, connected, released};
ghost use Rattle.xti_copy.specs.Going.{Comes, IsAt};

use crate::Rider;
use crate::connecting::Ends;
use crate::settling::made;
use std::alloc::{AllocError, Global};
use std::sync::Wait;
use xti_base::let_go;
use xti_laws_streams::PIECE;
use xti_sock::Sock;

/// One end releases the connection, and the other takes that.
fn release_one<R: Wait + Sync>(
    one: &mut Sock,
    other: &mut Sock,
    io: &mut Rider,
    rt: &R,
    alloc: Global,
) -> Result<(), AllocError>
    requires may { MayRelease one.old other.old io.old.entries }
    requires at { IsAt io.old.entries io.old }
    ensures has { OnOk result
        (HasReleased one.old other.old one.new other.new io.old.entries io.new) }
{
    made(one.shutdown(io, rt, alloc))?;
    let none = made(other.recv(io, rt, alloc, PIECE as u32))?;
    let_go(none);
    Ok(())
}

/// All is closed.
fn close<R: Wait + Sync>(
    ends: &mut Ends,
    io: &mut Rider,
    rt: &R,
    alloc: Global,
) -> Result<(), AllocError>
    requires ends { ends.old ≡ released }
    requires step { AreInStep released io.old.entries }
    requires at { IsAt io.old.entries io.old }
    requires comes { Comes io.old.entries closing }
    ensures at { OnOk result (IsAt (io.old.entries ++ closing) io.new) }
{
    made(ends.receiver.close(io, rt, alloc))?;
    made(ends.client.close(io, rt, alloc))?;
    made(ends.listener.close(io, rt, alloc))?;
    Ok(())
}

/// Each end releases the connection and takes the other's release, and all is closed.
pub(crate) fn release<R: Wait + Sync>(
    ends: &mut Ends,
    io: &mut Rider,
    rt: &R,
    alloc: Global,
) -> Result<(), AllocError>
    requires ends { ends.old ≡ connected }
    requires step { AreInStep connected io.old.entries }
    requires at { IsAt io.old.entries io.old }
    requires comes { Comes io.old.entries ending }
    ensures at { OnOk result (IsAt (io.old.entries ++ ending) io.new) }
{
    release_one(&mut ends.client, &mut ends.receiver, io, rt, alloc)?;
    release_one(&mut ends.receiver, &mut ends.client, io, rt, alloc)?;
    close(ends, io, rt, alloc)
}
