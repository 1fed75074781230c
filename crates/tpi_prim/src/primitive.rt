//! The primitives as values.

use bytes::Bytes;
use tpi_grammar::Kind;

/// A primitive of TPI 2.0 with its fields, in the order of its words. Numbers are of 32 bits.
///
/// `more` is MORE_flag, `conind_number` CONIND_number, `reason` DISCON_reason; the parts are DEST, OPT, ADDR, SRC and RES; `user` has
/// the user data.
#[allow(non_camel_case_types)]
#[derive(Debug, Drop)]
pub enum Prim {
    T_CONN_REQ {
        dest: Bytes,
        opt: Bytes,
        user: Bytes,
    },
    T_CONN_RES {
        acceptor_id: u32,
        opt: Bytes,
        seq_number: u32,
        user: Bytes,
    },
    T_DISCON_REQ {
        seq_number: u32,
        user: Bytes,
    },
    T_DATA_REQ {
        more: bool,
        user: Bytes,
    },
    T_EXDATA_REQ {
        more: bool,
        user: Bytes,
    },
    T_BIND_REQ {
        addr: Bytes,
        conind_number: u32,
    },
    T_UNBIND_REQ,
    T_UNITDATA_REQ {
        dest: Bytes,
        opt: Bytes,
        user: Bytes,
    },
    T_ORDREL_REQ {
        user: Bytes,
    },
    T_CONN_IND {
        src: Bytes,
        opt: Bytes,
        seq_number: u32,
        user: Bytes,
    },
    T_CONN_CON {
        res: Bytes,
        opt: Bytes,
        user: Bytes,
    },
    T_DISCON_IND {
        reason: u32,
        seq_number: u32,
        user: Bytes,
    },
    T_DATA_IND {
        more: bool,
        user: Bytes,
    },
    T_EXDATA_IND {
        more: bool,
        user: Bytes,
    },
    T_BIND_ACK {
        addr: Bytes,
        conind_number: u32,
    },
    T_ERROR_ACK {
        error_prim: u32,
        tli_error: u32,
        unix_error: u32,
    },
    T_OK_ACK {
        correct_prim: u32,
    },
    T_UNITDATA_IND {
        src: Bytes,
        opt: Bytes,
        user: Bytes,
    },
    T_UDERROR_IND {
        dest: Bytes,
        opt: Bytes,
        error_type: u32,
    },
    T_ORDREL_IND {
        user: Bytes,
    },
}

impl Prim {
    ghost use Rattle.std.specs.Prelude.{◌≡◌};
    ghost use Rattle.tpi_prim.specs.Primitive.{kind_of};

    /// Which primitive this is.
    pub fn kind(&self) -> Kind
        ensures { result ≡ kind_of self.now }
    {
        match self {
            Prim::T_CONN_REQ { .. } => Kind::T_CONN_REQ,
            Prim::T_CONN_RES { .. } => Kind::T_CONN_RES,
            Prim::T_DISCON_REQ { .. } => Kind::T_DISCON_REQ,
            Prim::T_DATA_REQ { .. } => Kind::T_DATA_REQ,
            Prim::T_EXDATA_REQ { .. } => Kind::T_EXDATA_REQ,
            Prim::T_BIND_REQ { .. } => Kind::T_BIND_REQ,
            Prim::T_UNBIND_REQ => Kind::T_UNBIND_REQ,
            Prim::T_UNITDATA_REQ { .. } => Kind::T_UNITDATA_REQ,
            Prim::T_ORDREL_REQ { .. } => Kind::T_ORDREL_REQ,
            Prim::T_CONN_IND { .. } => Kind::T_CONN_IND,
            Prim::T_CONN_CON { .. } => Kind::T_CONN_CON,
            Prim::T_DISCON_IND { .. } => Kind::T_DISCON_IND,
            Prim::T_DATA_IND { .. } => Kind::T_DATA_IND,
            Prim::T_EXDATA_IND { .. } => Kind::T_EXDATA_IND,
            Prim::T_BIND_ACK { .. } => Kind::T_BIND_ACK,
            Prim::T_ERROR_ACK { .. } => Kind::T_ERROR_ACK,
            Prim::T_OK_ACK { .. } => Kind::T_OK_ACK,
            Prim::T_UNITDATA_IND { .. } => Kind::T_UNITDATA_IND,
            Prim::T_UDERROR_IND { .. } => Kind::T_UDERROR_IND,
            Prim::T_ORDREL_IND { .. } => Kind::T_ORDREL_IND,
        }
    }
}

/// A variable part of a primitive: DEST, SRC, RES, ADDR or OPT.
#[derive(Debug, Clone, Copy, PartialEq, Eq)]
pub enum Part {
    Dest,
    Src,
    Res,
    Addr,
    Opt,
}
