//! The primitives of TPI, their frames, and reading frames.
#![tactic(auto)]

mod decoding;
mod encoding;
mod frames;
mod indication;
mod laws;
pub mod primitive;
mod prims;
mod reading;

pub use decoding::{Decoded, decode};
pub use encoding::{
    EncodeFail, encode, encode_conn_con, encode_conn_ind, encode_discon_ind, encode_ordrel_ind,
    encode_uderror_ind, encode_unitdata_ind,
};
pub use frames::Frame;
pub use indication::IndicationWriter;
pub use laws::{pieces_law, primitives_law};
pub use prims::Prims;
pub use reading::{FeedFail, FrameReader};
pub use tpi_grammar::Kind;
