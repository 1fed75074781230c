//! The carrier between two datagram endpoints.

ghost use Rattle.std.specs.Prelude.{◌≡◌, ◌≤◌, length, IfOk, OnOk, OnErr};
ghost use Rattle.xti_gbn.specs.Carriers.{StandsLeft};
ghost use Rattle.xti_gbn.specs.Ready.{sender_fd, receiver_fd, start, ready, IsRoute};

use crate::Carrier;
use crate::datagrams::answers::{bind_one, open_one, receive_one, send_one};
use std::alloc::{AllocError, Global};
use xti_base::{Fd, Octets, let_go};
use xti_core::World;
use xti_model::Providers;

/// The address of the sender's endpoint.
const SENDER: &[u8] = b"sender";

/// The address of the receiver's endpoint.
const RECEIVER: &[u8] = b"receiver";

/// A world with two datagram endpoints, one of the sender and one of the receiver.
#[derive(Drop)]
pub struct DatagramCarrier {
    pub(crate) world: World,
    pub(crate) sender: Fd,
    pub(crate) receiver: Fd,
}

// One t_sndudata from an endpoint to the address of the other, and one t_rcvudata there. After an error nothing was sent, or the
// datagram waits there.
fn carry_between(
    alloc: Global,
    world: &mut World,
    from: Fd,
    address: &[u8],
    to: Fd,
    bytes: &[u8],
) -> Result<Octets, AllocError>
    requires ready { world.old ≡ ready }
    requires route { IsRoute from address.now to }
    requires some { 1 ≤ length bytes.now }
    requires most { length bytes.now ≤ 517 }
    ensures same { IfOk result (λ came. came ≡ bytes.now) }
    ensures stays_ready { OnOk result (world.new ≡ ready) }
    ensures left { OnErr result (StandsLeft to bytes.now world.new) }
{
    send_one(alloc, world, from, address, bytes)?;
    let came = receive_one(world, to)?;
    Ok(came)
}

// Opens and binds both endpoints, and answers their descriptors.
fn open_both(alloc: Global, world: &mut World) -> Result<(Fd, Fd), AllocError>
    requires { world.old ≡ start }
    ensures sender { IfOk result (λ fds. fds.0 ≡ sender_fd) }
    ensures receiver { IfOk result (λ fds. fds.1 ≡ receiver_fd) }
    ensures ready { OnOk result (world.new ≡ ready) }
{
    let sender = open_one(world)?;
    let receiver = open_one(world)?;
    bind_one(alloc, world, sender, SENDER)?;
    bind_one(alloc, world, receiver, RECEIVER)?;
    Ok((sender, receiver))
}

impl DatagramCarrier {
    ghost use Rattle.xti_gbn.specs.Carriers.{IsReady};

    /// Two endpoints, opened and bound.
    pub fn new(alloc: Global) -> Result<DatagramCarrier, AllocError>
        ensures { IfOk result (λ carrier. IsReady carrier) }
    {
        let mut world = World::fresh(alloc, &Providers::usual())?;
        match open_both(alloc, &mut world) {
            Ok((sender, receiver)) => Ok(DatagramCarrier {
                world,
                sender,
                receiver,
            }),
            Err(fail) => {
                let_go(world);
                Err(fail)
            }
        }
    }
}

impl Carrier for DatagramCarrier {
    ghost use Rattle.xti_gbn.specs.Carriers.{IsReady, IsWaiting};

    ghost is_ready = { λ carrier. IsReady carrier };

    ghost holds = { λ bytes carrier. IsWaiting bytes carrier };

    fn carry(
        &mut self,
        alloc: Global,
        to_receiver: bool,
        bytes: &[u8],
    ) -> Result<Octets, AllocError> {
        if to_receiver {
            carry_between(
                alloc,
                &mut self.world,
                self.sender,
                RECEIVER,
                self.receiver,
                bytes,
            )
        } else {
            carry_between(
                alloc,
                &mut self.world,
                self.receiver,
                SENDER,
                self.sender,
                bytes,
            )
        }
    }
}
