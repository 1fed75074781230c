//! Readers and writers of the parts that are replaced as a whole. A writer changes its part alone, and takes no memory.

ghost use Rattle.std.specs.Prelude.{◌≡◌, true, false};
ghost use Rattle.std.specs.Option.{option_copied, option_map};
ghost use Rattle.xti_base.specs.Kinds.{same_state};
ghost use Rattle.xti_base.specs.declared.kinds.State.TheVariants.{T_UNINIT};
ghost use Rattle.xti_model.specs.Provider.{is_provider};
ghost use Rattle.xti_model.specs.Spot.{spot_bytes};
ghost use Rattle.xti_end.specs.Held.{is_open, parts, with_parts, with_mark, with_peer, with_target, mark_at, peer_at, target_at, target_number_at, target_of};

use crate::endpoint::Endpoint;
use xti_base::{Fd, Octets, Prov, Seq, State, write_over};
use xti_model::Spot;

impl Endpoint {
    /// The provider of the open endpoint.
    pub fn prov(&self) -> Prov
        requires { is_open self.now ≡ true }
        ensures { result ≡ (parts self.now).prov }
    {
        self.open_parts().prov
    }

    /// Whether the open endpoint has O_NONBLOCK set.
    pub fn nonblock(&self) -> bool
        requires { is_open self.now ≡ true }
        ensures { result ≡ (parts self.now).nonblock }
    {
        self.open_parts().nonblock
    }

    /// Sets O_NONBLOCK of the open endpoint, or clears it.
    pub fn set_nonblock(&mut self, nonblock: bool)
        requires { is_open self.old ≡ true }
        ensures { self.new ≡ with_parts (λ e. record e { nonblock = nonblock }) self.old }
    {
        if let Some(parts) = &mut self.body {
            parts.nonblock = nonblock;
        }
    }

    /// The state of the open endpoint.
    pub fn state(&self) -> State
        requires { is_open self.now ≡ true }
        ensures { result ≡ (parts self.now).state }
    {
        self.open_parts().state
    }

    /// Sets the state of the open endpoint.
    pub fn set_state(&mut self, state: State)
        requires open { is_open self.old ≡ true }
        requires state { same_state state T_UNINIT ≡ false }
        ensures { self.new ≡ with_parts (λ e. record e { state = state }) self.old }
    {
        if let Some(parts) = &mut self.body {
            parts.state = state;
        }
    }

    /// The address that the open endpoint is bound to; `None` exactly where there is none.
    pub fn address(&self) -> Option<&Octets>
        requires { is_open self.now ≡ true }
        ensures { option_copied result ≡ (parts self.now).address }
    {
        self.open_parts().address.as_ref()
    }

    /// Sets the address of the open endpoint.
    pub fn set_address(&mut self, address: Option<Octets>)
        requires { is_open self.old ≡ true }
        ensures { self.new ≡ with_parts (λ e. record e { address = address }) self.old }
    {
        if let Some(parts) = &mut self.body {
            write_over(&mut parts.address, address);
        }
    }

    /// How many requests to connect the open endpoint queues.
    pub fn qlen(&self) -> u32
        requires { is_open self.now ≡ true }
        ensures { result ≡ (parts self.now).qlen }
    {
        self.open_parts().qlen
    }

    /// Sets how many requests to connect the open endpoint queues.
    pub fn set_qlen(&mut self, qlen: u32)
        requires { is_open self.old ≡ true }
        ensures { self.new ≡ with_parts (λ e. record e { qlen = qlen }) self.old }
    {
        if let Some(parts) = &mut self.body {
            parts.qlen = qlen;
        }
    }

    /// The send size of the open endpoint, in bytes.
    pub fn sndbuf(&self) -> u32
        requires { is_open self.now ≡ true }
        ensures { result ≡ (parts self.now).sndbuf }
    {
        self.open_parts().sndbuf
    }

    /// Sets the send size of the open endpoint, in bytes.
    pub fn set_sndbuf(&mut self, sndbuf: u32)
        requires { is_open self.old ≡ true }
        ensures { self.new ≡ with_parts (λ e. record e { sndbuf = sndbuf }) self.old }
    {
        if let Some(parts) = &mut self.body {
            parts.sndbuf = sndbuf;
        }
    }

    /// The receive size of the open endpoint, in bytes.
    pub fn rcvbuf(&self) -> u32
        requires { is_open self.now ≡ true }
        ensures { result ≡ (parts self.now).rcvbuf }
    {
        self.open_parts().rcvbuf
    }

    /// Sets the receive size of the open endpoint, in bytes.
    pub fn set_rcvbuf(&mut self, rcvbuf: u32)
        requires { is_open self.old ≡ true }
        ensures { self.new ≡ with_parts (λ e. record e { rcvbuf = rcvbuf }) self.old }
    {
        if let Some(parts) = &mut self.body {
            parts.rcvbuf = rcvbuf;
        }
    }

    /// Where the datagram went that the provider could not take; `None` where the datagram flow mark isn't set, as at a closed
    /// place.
    pub fn flow_datagram(&self) -> Option<Spot>
        ensures { option_map spot_bytes result ≡ mark_at self.now.body }
    {
        let parts = self.body.as_ref()?;
        parts.flow_datagram
    }

    /// Sets the datagram flow mark of the open endpoint, or clears it.
    pub fn set_flow_datagram(&mut self, to: Option<Spot>)
        requires { is_open self.old ≡ true }
        ensures { self.new ≡ with_parts (with_mark (option_map spot_bytes to)) self.old }
    {
        if let Some(parts) = &mut self.body {
            parts.flow_datagram = to;
        }
    }

    /// The sequence number that the open endpoint gave last; 0 where it gave none.
    pub fn last_number(&self) -> Seq
        requires { is_open self.now ≡ true }
        ensures { result.0 ≡ (parts self.now).last_number }
    {
        self.open_parts().connection.last_number
    }

    /// Sets the sequence number that the open endpoint gave last.
    pub fn set_last_number(&mut self, seq: Seq)
        requires { is_open self.old ≡ true }
        ensures { self.new ≡ with_parts (λ e. record e { last_number = seq.0 }) self.old }
    {
        if let Some(parts) = &mut self.body {
            parts.connection.last_number = seq;
        }
    }

    /// The descriptor of the listener that it asks for a connection; `None` exactly where it asks none. Takes no memory.
    pub fn target(&self) -> Option<Fd>
        ensures { option_map (λ fd. fd.0) result ≡ target_at self.now.body }
    {
        let (listener, _) = self.body.as_ref()?.connection.target?;
        Some(listener)
    }

    /// The sequence number of its request to that listener; `None` exactly where it asks none. Takes no memory.
    pub fn target_seq(&self) -> Option<Seq>
        ensures { option_map (λ seq. seq.0) result ≡ target_number_at self.now.body }
    {
        let (_, number) = self.body.as_ref()?.connection.target?;
        Some(number)
    }

    /// Sets the listener that the open endpoint asks for a connection, with the number of its request, or that it asks none.
    pub fn set_target(&mut self, target: Option<(Fd, Seq)>)
        requires { is_open self.old ≡ true }
        ensures { self.new ≡ with_parts (with_target (option_map target_of target)) self.old }
    {
        if let Some(parts) = &mut self.body {
            parts.connection.target = target;
        }
    }

    /// The descriptor of the other side of its connection; `None` exactly where there is none. Takes no memory.
    pub fn peer(&self) -> Option<Fd>
        ensures { option_map (λ fd. fd.0) result ≡ peer_at self.now.body }
    {
        self.body.as_ref()?.connection.peer
    }

    /// Sets the other side of the open endpoint's connection, or that there is none.
    pub fn set_peer(&mut self, peer: Option<Fd>)
        requires { is_open self.old ≡ true }
        ensures { self.new ≡ with_parts (with_peer (option_map (λ fd. fd.0) peer)) self.old }
    {
        if let Some(parts) = &mut self.body {
            parts.connection.peer = peer;
        }
    }

    /// The address of the other side of its connection; `None` exactly where there is none.
    pub fn peer_address(&self) -> Option<&Octets>
        requires { is_open self.now ≡ true }
        ensures { option_copied result ≡ (parts self.now).peer_address }
    {
        self.open_parts().connection.peer_address.as_ref()
    }

    /// Sets the address of the other side of the open endpoint's connection.
    pub fn set_peer_address(&mut self, address: Option<Octets>)
        requires { is_open self.old ≡ true }
        ensures { self.new ≡ with_parts (λ e. record e { peer_address = address }) self.old }
    {
        if let Some(parts) = &mut self.body {
            write_over(&mut parts.connection.peer_address, address);
        }
    }

    /// Whether the open endpoint is in the middle of an expedited message.
    pub fn mid_expedited(&self) -> bool
        requires { is_open self.now ≡ true }
        ensures { result ≡ (parts self.now).mid_expedited }
    {
        self.open_parts().connection.mid_expedited
    }

    /// Sets whether the open endpoint is in the middle of an expedited message.
    pub fn set_mid_expedited(&mut self, on: bool)
        requires { is_open self.old ≡ true }
        ensures { self.new ≡ with_parts (λ e. record e { mid_expedited = on }) self.old }
    {
        if let Some(parts) = &mut self.body {
            parts.connection.mid_expedited = on;
        }
    }

    /// The bytes so far of the normal message that the open endpoint sends, whose end was not sent.
    pub fn unfinished_normal(&self) -> u32
        requires { is_open self.now ≡ true }
        ensures { result ≡ (parts self.now).unfinished_normal }
    {
        self.open_parts().connection.unfinished_normal
    }

    /// Sets the bytes so far of the normal message that the open endpoint sends.
    pub fn set_unfinished_normal(&mut self, bytes: u32)
        requires { is_open self.old ≡ true }
        ensures { self.new ≡ with_parts (λ e. record e { unfinished_normal = bytes }) self.old }
    {
        if let Some(parts) = &mut self.body {
            parts.connection.unfinished_normal = bytes;
        }
    }

    /// The bytes so far of the expedited message that the open endpoint sends, whose end was not sent.
    pub fn unfinished_expedited(&self) -> u32
        requires { is_open self.now ≡ true }
        ensures { result ≡ (parts self.now).unfinished_expedited }
    {
        self.open_parts().connection.unfinished_expedited
    }

    /// Sets the bytes so far of the expedited message that the open endpoint sends.
    pub fn set_unfinished_expedited(&mut self, bytes: u32)
        requires { is_open self.old ≡ true }
        ensures { self.new ≡ with_parts (λ e. record e { unfinished_expedited = bytes }) self.old }
    {
        if let Some(parts) = &mut self.body {
            parts.connection.unfinished_expedited = bytes;
        }
    }

    /// Whether the open endpoint waits to send normal data.
    pub fn flow_normal(&self) -> bool
        requires { is_open self.now ≡ true }
        ensures { result ≡ (parts self.now).flow_normal }
    {
        self.open_parts().connection.flow_normal
    }

    /// Sets the normal flow mark of the open endpoint, or clears it.
    pub fn set_flow_normal(&mut self, on: bool)
        requires { is_open self.old ≡ true }
        ensures { self.new ≡ with_parts (λ e. record e { flow_normal = on }) self.old }
    {
        if let Some(parts) = &mut self.body {
            parts.connection.flow_normal = on;
        }
    }

    /// Whether the open endpoint waits to send expedited data.
    pub fn flow_expedited(&self) -> bool
        requires { is_open self.now ≡ true }
        ensures { result ≡ (parts self.now).flow_expedited }
    {
        self.open_parts().connection.flow_expedited
    }

    /// Sets the expedited flow mark of the open endpoint, or clears it.
    pub fn set_flow_expedited(&mut self, on: bool)
        requires { is_open self.old ≡ true }
        ensures { self.new ≡ with_parts (λ e. record e { flow_expedited = on }) self.old }
    {
        if let Some(parts) = &mut self.body {
            parts.connection.flow_expedited = on;
        }
    }
}
