//! The primitives that may be sent as frames: their numbers, the words after these, and their user data.

ghost use Rattle.std.specs.Prelude.{◌≡◌, map, IfSome, IfNone};
ghost use Rattle.tpi_grammar.specs.Frame.{table, head};
ghost use Rattle.tpi_grammar.specs.Kinds.{row_of, slots_view};

/// The most bytes of a control part.
pub const MOST_CONTROL: u32 = 1024;

/// The most bytes of user data in a frame.
pub const MOST_DATA: u32 = 65_536;

/// What stands after PRIM_type.
#[derive(Debug, Clone, Copy, PartialEq, Eq)]
pub enum Slot {
    /// A word up to this value.
    Upto(u32),
    /// A part, by two words: its length and its offset from the start of the control part. An empty part has the
    /// offset 0.
    Part,
}

/// The primitives of TPI that may be sent as frames, named as in TPI, with what stands after PRIM_type. DEST, OPT, SRC,
/// RES and ADDR are parts: each is a length and an offset there.
#[derive(Debug, Clone, Copy, PartialEq, Eq)]
#[allow(non_camel_case_types)]
pub enum Kind {
    /// Asks for a connection: DEST (the called address), OPT; with user data.
    T_CONN_REQ,
    /// Accepts a connection: ACCEPTOR_id, OPT, SEQ_number (that of the indication); with user data.
    T_CONN_RES,
    /// Ends a connection or refuses one: SEQ_number (that of the indication); with user data.
    T_DISCON_REQ,
    /// Sends data: MORE_flag; with user data.
    T_DATA_REQ,
    /// Sends expedited data: MORE_flag; with user data.
    T_EXDATA_REQ,
    /// Asks for an address: ADDR, CONIND_number.
    T_BIND_REQ,
    /// Gives the address up: no words.
    T_UNBIND_REQ,
    /// Sends a datagram: DEST, OPT; with user data.
    T_UNITDATA_REQ,
    /// Asks for an orderly release: no words; with user data.
    T_ORDREL_REQ,
    /// Tells of a connection that is asked for: SRC (the calling address), OPT, SEQ_number; with user data.
    T_CONN_IND,
    /// Tells that a connection was accepted: RES (the responding address), OPT; with user data.
    T_CONN_CON,
    /// Tells that a connection ended or was refused: DISCON_reason, SEQ_number; with user data.
    T_DISCON_IND,
    /// Brings data: MORE_flag; with user data.
    T_DATA_IND,
    /// Brings expedited data: MORE_flag; with user data.
    T_EXDATA_IND,
    /// Answers T_BIND_REQ: ADDR, CONIND_number.
    T_BIND_ACK,
    /// Tells of a request that failed: ERROR_prim, TLI_error, UNIX_error.
    T_ERROR_ACK,
    /// Tells of a request that succeeded: CORRECT_prim.
    T_OK_ACK,
    /// Brings a datagram: SRC, OPT; with user data.
    T_UNITDATA_IND,
    /// Tells of a datagram that failed: DEST, OPT, ERROR_type.
    T_UDERROR_IND,
    /// Tells of an orderly release that is asked for: no words; with user data.
    T_ORDREL_IND,
}

// DEST, SRC or RES, and OPT
static PARTS: [Slot; 2] = [Slot::Part, Slot::Part];

// ACCEPTOR_id, OPT, SEQ_number
static ACCEPTOR: [Slot; 3] = [Slot::Upto(u32::MAX), Slot::Part, Slot::Upto(u32::MAX)];

// SEQ_number or CORRECT_prim
static NUMBER: [Slot; 1] = [Slot::Upto(u32::MAX)];

// MORE_flag
static FLAG: [Slot; 1] = [Slot::Upto(1)];

// ADDR, CONIND_number
static BINDING: [Slot; 2] = [Slot::Part, Slot::Upto(u32::MAX)];

static NOTHING: [Slot; 0] = [];

// SRC or DEST, OPT, and SEQ_number or ERROR_type
static PARTS_FIRST: [Slot; 3] = [Slot::Part, Slot::Part, Slot::Upto(u32::MAX)];

// DISCON_reason, SEQ_number
static NUMBERS: [Slot; 2] = [Slot::Upto(u32::MAX), Slot::Upto(u32::MAX)];

// ERROR_prim, TLI_error, UNIX_error
static REASONS: [Slot; 3] = [
    Slot::Upto(u32::MAX),
    Slot::Upto(u32::MAX),
    Slot::Upto(u32::MAX),
];

static KINDS: [Kind; 20] = [
    Kind::T_CONN_REQ,
    Kind::T_CONN_RES,
    Kind::T_DISCON_REQ,
    Kind::T_DATA_REQ,
    Kind::T_EXDATA_REQ,
    Kind::T_BIND_REQ,
    Kind::T_UNBIND_REQ,
    Kind::T_UNITDATA_REQ,
    Kind::T_ORDREL_REQ,
    Kind::T_CONN_IND,
    Kind::T_CONN_CON,
    Kind::T_DISCON_IND,
    Kind::T_DATA_IND,
    Kind::T_EXDATA_IND,
    Kind::T_BIND_ACK,
    Kind::T_ERROR_ACK,
    Kind::T_OK_ACK,
    Kind::T_UNITDATA_IND,
    Kind::T_UDERROR_IND,
    Kind::T_ORDREL_IND,
];

impl Kind {
    /// The value of PRIM_type.
    pub fn number(self) -> u32
        ensures { result ≡ (row_of self).number }
    {
        match self {
            Kind::T_CONN_REQ => 0,
            Kind::T_CONN_RES => 1,
            Kind::T_DISCON_REQ => 2,
            Kind::T_DATA_REQ => 3,
            Kind::T_EXDATA_REQ => 4,
            Kind::T_BIND_REQ => 6,
            Kind::T_UNBIND_REQ => 7,
            Kind::T_UNITDATA_REQ => 8,
            Kind::T_ORDREL_REQ => 10,
            Kind::T_CONN_IND => 11,
            Kind::T_CONN_CON => 12,
            Kind::T_DISCON_IND => 13,
            Kind::T_DATA_IND => 14,
            Kind::T_EXDATA_IND => 15,
            Kind::T_BIND_ACK => 17,
            Kind::T_ERROR_ACK => 18,
            Kind::T_OK_ACK => 19,
            Kind::T_UNITDATA_IND => 20,
            Kind::T_UDERROR_IND => 21,
            Kind::T_ORDREL_IND => 23,
        }
    }

    /// The primitive with this value of PRIM_type; `None` if it is none of these.
    pub fn of_number(number: u32) -> Option<Kind>
        ensures some { IfSome result (λ kind. (row_of kind).number ≡ number) }
        ensures none { IfNone result ((kind : Kind) → (row_of kind).number ≡ number → ⊥) }
    {
        match number {
            0 => Some(Kind::T_CONN_REQ),
            1 => Some(Kind::T_CONN_RES),
            2 => Some(Kind::T_DISCON_REQ),
            3 => Some(Kind::T_DATA_REQ),
            4 => Some(Kind::T_EXDATA_REQ),
            6 => Some(Kind::T_BIND_REQ),
            7 => Some(Kind::T_UNBIND_REQ),
            8 => Some(Kind::T_UNITDATA_REQ),
            10 => Some(Kind::T_ORDREL_REQ),
            11 => Some(Kind::T_CONN_IND),
            12 => Some(Kind::T_CONN_CON),
            13 => Some(Kind::T_DISCON_IND),
            14 => Some(Kind::T_DATA_IND),
            15 => Some(Kind::T_EXDATA_IND),
            17 => Some(Kind::T_BIND_ACK),
            18 => Some(Kind::T_ERROR_ACK),
            19 => Some(Kind::T_OK_ACK),
            20 => Some(Kind::T_UNITDATA_IND),
            21 => Some(Kind::T_UDERROR_IND),
            23 => Some(Kind::T_ORDREL_IND),
            _ => None,
        }
    }

    /// What stands after PRIM_type, in order.
    pub fn slots(self) -> &'static [Slot]
        ensures { slots_view result.now ≡ (row_of self).slots }
    {
        match self {
            Kind::T_CONN_REQ => &PARTS,
            Kind::T_CONN_RES => &ACCEPTOR,
            Kind::T_DISCON_REQ => &NUMBER,
            Kind::T_DATA_REQ => &FLAG,
            Kind::T_EXDATA_REQ => &FLAG,
            Kind::T_BIND_REQ => &BINDING,
            Kind::T_UNBIND_REQ => &NOTHING,
            Kind::T_UNITDATA_REQ => &PARTS,
            Kind::T_ORDREL_REQ => &NOTHING,
            Kind::T_CONN_IND => &PARTS_FIRST,
            Kind::T_CONN_CON => &PARTS,
            Kind::T_DISCON_IND => &NUMBERS,
            Kind::T_DATA_IND => &FLAG,
            Kind::T_EXDATA_IND => &FLAG,
            Kind::T_BIND_ACK => &BINDING,
            Kind::T_ERROR_ACK => &REASONS,
            Kind::T_OK_ACK => &NUMBER,
            Kind::T_UNITDATA_IND => &PARTS,
            Kind::T_UDERROR_IND => &PARTS_FIRST,
            Kind::T_ORDREL_IND => &NOTHING,
        }
    }

    /// How many bytes of user data there may be.
    pub fn most_data(self) -> u32
        ensures { result ≡ (row_of self).most_data }
    {
        match self {
            Kind::T_CONN_REQ
            | Kind::T_CONN_RES
            | Kind::T_DISCON_REQ
            | Kind::T_DATA_REQ
            | Kind::T_EXDATA_REQ
            | Kind::T_UNITDATA_REQ
            | Kind::T_ORDREL_REQ
            | Kind::T_CONN_IND
            | Kind::T_CONN_CON
            | Kind::T_DISCON_IND
            | Kind::T_DATA_IND
            | Kind::T_EXDATA_IND
            | Kind::T_UNITDATA_IND
            | Kind::T_ORDREL_IND => MOST_DATA,
            Kind::T_BIND_REQ
            | Kind::T_UNBIND_REQ
            | Kind::T_BIND_ACK
            | Kind::T_ERROR_ACK
            | Kind::T_OK_ACK
            | Kind::T_UDERROR_IND => 0,
        }
    }

    /// How many bytes PRIM_type and the words after it are.
    pub fn head(self) -> u32
        ensures { result ≡ head (row_of self).slots }
    {
        match self {
            Kind::T_UNBIND_REQ | Kind::T_ORDREL_REQ | Kind::T_ORDREL_IND => 4,
            Kind::T_DISCON_REQ
            | Kind::T_DATA_REQ
            | Kind::T_EXDATA_REQ
            | Kind::T_DATA_IND
            | Kind::T_EXDATA_IND
            | Kind::T_OK_ACK => 8,
            Kind::T_DISCON_IND => 12,
            Kind::T_BIND_REQ | Kind::T_BIND_ACK | Kind::T_ERROR_ACK => 16,
            Kind::T_CONN_REQ
            | Kind::T_CONN_RES
            | Kind::T_UNITDATA_REQ
            | Kind::T_CONN_CON
            | Kind::T_UNITDATA_IND => 20,
            Kind::T_CONN_IND | Kind::T_UDERROR_IND => 24,
        }
    }
}

/// All of them, by rising numbers.
#[tactic(auto, unfolding(crate::specs::Frame::table))]
pub(crate) fn kinds() -> &'static [Kind]
    ensures { map row_of result.now ≡ table }
{
    &KINDS
}
