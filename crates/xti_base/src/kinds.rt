//! States, events, service types and the names of providers.

/// The states of an endpoint (XNS, state tables), numbered from 0.
#[derive(Clone, Copy, Debug, PartialEq, Eq)]
#[allow(non_camel_case_types)]
pub enum State {
    /// No endpoint is open.
    T_UNINIT,
    /// Open, and bound to no address.
    T_UNBND,
    /// Bound, without a connection.
    T_IDLE,
    /// A request to connect is on its way.
    T_OUTCON,
    /// Indications are outstanding.
    T_INCON,
    /// Data may be sent and received.
    T_DATAXFER,
    /// This side has released the connection.
    T_OUTREL,
    /// The other side has released the connection.
    T_INREL,
}

impl State {
    ghost use Rattle.std.specs.Prelude.{◌≡◌};
    ghost use Rattle.xti_base.specs.Kinds.{state_name, state_number, same_state};

    /// The number of the state, from 0 for T_UNINIT.
    pub fn number(self) -> u32
        ensures { result ≡ state_number self }
    {
        match self {
            State::T_UNINIT => 0,
            State::T_UNBND => 1,
            State::T_IDLE => 2,
            State::T_OUTCON => 3,
            State::T_INCON => 4,
            State::T_DATAXFER => 5,
            State::T_OUTREL => 6,
            State::T_INREL => 7,
        }
    }

    /// Whether it is this state.
    pub fn is(self, other: State) -> bool
        ensures { result ≡ same_state self other }
    {
        self.number() == other.number()
    }

    /// The name of the state, as XNS spells it.
    pub fn name(self) -> &'static str
        ensures { result.now ≡ state_name self }
    {
        match self {
            State::T_UNINIT => "T_UNINIT",
            State::T_UNBND => "T_UNBND",
            State::T_IDLE => "T_IDLE",
            State::T_OUTCON => "T_OUTCON",
            State::T_INCON => "T_INCON",
            State::T_DATAXFER => "T_DATAXFER",
            State::T_OUTREL => "T_OUTREL",
            State::T_INREL => "T_INREL",
        }
    }
}

/// The events of an endpoint (XNS, t_look).
#[derive(Clone, Copy, Debug, PartialEq, Eq)]
#[allow(non_camel_case_types)]
pub enum Event {
    /// A request to connect waits.
    T_LISTEN,
    /// A request was accepted.
    T_CONNECT,
    /// Normal data or a datagram waits.
    T_DATA,
    /// Expedited data wait.
    T_EXDATA,
    /// A disconnect waits.
    T_DISCONNECT,
    /// A datagram error waits.
    T_UDERR,
    /// The other side has released the connection.
    T_ORDREL,
    /// Normal data or a datagram may be sent again.
    T_GODATA,
    /// Expedited data may be sent again.
    T_GOEXDATA,
}

impl Event {
    ghost use Rattle.std.specs.Prelude.{◌≡◌};
    ghost use Rattle.xti_base.specs.Kinds.{event_name, event_number};

    /// The bit of the event in `<xti.h>`.
    pub fn number(self) -> u32
        ensures { result ≡ event_number self }
    {
        match self {
            Event::T_LISTEN => 0x001,
            Event::T_CONNECT => 0x002,
            Event::T_DATA => 0x004,
            Event::T_EXDATA => 0x008,
            Event::T_DISCONNECT => 0x010,
            Event::T_UDERR => 0x040,
            Event::T_ORDREL => 0x080,
            Event::T_GODATA => 0x100,
            Event::T_GOEXDATA => 0x200,
        }
    }

    /// The name of the event, as XNS spells it.
    pub fn name(self) -> &'static str
        ensures { result.now ≡ event_name self }
    {
        match self {
            Event::T_LISTEN => "T_LISTEN",
            Event::T_CONNECT => "T_CONNECT",
            Event::T_DATA => "T_DATA",
            Event::T_EXDATA => "T_EXDATA",
            Event::T_DISCONNECT => "T_DISCONNECT",
            Event::T_UDERR => "T_UDERR",
            Event::T_ORDREL => "T_ORDREL",
            Event::T_GODATA => "T_GODATA",
            Event::T_GOEXDATA => "T_GOEXDATA",
        }
    }
}

/// The service types of providers (XNS, `servtype` of t_info).
#[derive(Clone, Copy, Debug, PartialEq, Eq)]
#[allow(non_camel_case_types)]
pub enum ServType {
    /// Connections.
    T_COTS,
    /// Connections with orderly release.
    T_COTS_ORD,
    /// Datagrams.
    T_CLTS,
}

impl ServType {
    ghost use Rattle.std.specs.Prelude.{◌≡◌};
    ghost use Rattle.xti_base.specs.Kinds.{service_name, service_number};

    /// The number of the service type in `<xti.h>`.
    pub fn number(self) -> u32
        ensures { result ≡ service_number self }
    {
        match self {
            ServType::T_COTS => 1,
            ServType::T_COTS_ORD => 2,
            ServType::T_CLTS => 3,
        }
    }

    /// The name of the service type, as XNS spells it.
    pub fn name(self) -> &'static str
        ensures { result.now ≡ service_name self }
    {
        match self {
            ServType::T_COTS => "T_COTS",
            ServType::T_COTS_ORD => "T_COTS_ORD",
            ServType::T_CLTS => "T_CLTS",
        }
    }
}

/// What the name of a provider (XNS, t_open) names.
#[derive(Clone, Copy, Debug, PartialEq, Eq)]
#[allow(non_camel_case_types)]
pub enum Prov {
    /// Loopback connections.
    Ticots,
    /// Loopback connections with orderly release.
    Ticotsord,
    /// Loopback datagrams.
    Ticlts,
    /// A name that names no provider.
    Other,
}

impl Prov {
    ghost use Rattle.std.specs.Prelude.{◌≡◌};
    ghost use Rattle.xti_base.specs.Kinds.{prov_name, prov_of_name, prov_number, same_prov};

    /// What a name names; `Other` for every name that names no provider.
    pub fn of_name(name: &[u8]) -> Prov
        ensures { result ≡ prov_of_name name.now }
    {
        if name == b"ticots".as_slice() {
            Prov::Ticots
        } else if name == b"ticotsord".as_slice() {
            Prov::Ticotsord
        } else if name == b"ticlts".as_slice() {
            Prov::Ticlts
        } else {
            Prov::Other
        }
    }

    /// Whether it is this provider.
    pub fn is(self, other: Prov) -> bool
        ensures { result ≡ same_prov self other }
    {
        self as u32 == other as u32
    }

    /// The provider's name; `other` for `Other`.
    pub fn name(self) -> &'static str
        ensures { result.now ≡ prov_name self }
    {
        match self {
            Prov::Ticots => "ticots",
            Prov::Ticotsord => "ticotsord",
            Prov::Ticlts => "ticlts",
            Prov::Other => "other",
        }
    }
}

/// A descriptor of an endpoint, as t_open answers it.
#[derive(Clone, Copy, Debug, PartialEq, Eq)]
pub struct Fd(pub u32);

/// The sequence number of a request to connect, as t_listen answers it.
#[derive(Clone, Copy, Debug, PartialEq, Eq)]
pub struct Seq(pub u32);
