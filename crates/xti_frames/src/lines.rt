//! The line of one primitive.

ghost use Rattle.std.specs.Prelude.{◌++◌, OnOk, IsTrue};
ghost use Rattle.xti_frames.specs.FrameText.{Adds, name_word, number_field, flag_field, part_field, user_field, flagged_text, parts_text, frame_text, frame_line, is_of_connection, is_of_data, is_of_binding};

use bytes::Bytes;
use std::alloc::AllocError;
use tpi_prim::primitive::Prim;
use xti_words::{put_number, put_octets, put_text};

#[tactic(auto, unfolding(crate::specs::FrameText::name_word))]
fn put_name(out: &mut Vec<u8>, name: &str) -> Result<(), AllocError>
    ensures { OnOk result (Adds (name_word name.now) out.old out.new) }
{
    put_text(out, name)
}

#[tactic(auto, unfolding(crate::specs::FrameText::number_field))]
fn put_field(out: &mut Vec<u8>, key: &str, n: u32) -> Result<(), AllocError>
    ensures { OnOk result (Adds (number_field key.now n) out.old out.new) }
{
    put_number(out, key, n as u64)
}

#[tactic(auto, unfolding(crate::specs::FrameText::flag_field))]
fn put_flag(out: &mut Vec<u8>, key: &str, more: bool) -> Result<(), AllocError>
    ensures { OnOk result (Adds (flag_field key.now more) out.old out.new) }
{
    put_text(out, key).and(put_text(out, if more { "1" } else { "0" }))
}

#[tactic(auto, unfolding(crate::specs::FrameText::part_field))]
fn put_part(out: &mut Vec<u8>, key: &str, part: &Bytes) -> Result<(), AllocError>
    ensures { OnOk result (Adds (part_field key.now part.now) out.old out.new) }
{
    put_octets(out, key, part)
}

fn put_user(out: &mut Vec<u8>, user: &Bytes) -> Result<(), AllocError>
    ensures { OnOk result (Adds (user_field user.now) out.old out.new) }
{
    put_part(out, " data=", user)
}

// The name, MORE_flag and the user data.
fn put_flagged(out: &mut Vec<u8>, name: &str, more: bool, user: &Bytes) -> Result<(), AllocError>
    ensures { OnOk result (Adds (flagged_text name.now more user.now) out.old out.new) }
{
    put_name(out, name)
        .and(put_flag(out, " MORE_flag=", more))
        .and(put_user(out, user))
}

// The name, an address and the options.
fn put_parts(
    out: &mut Vec<u8>,
    name: &str,
    key: &str,
    address: &Bytes,
    opt: &Bytes,
) -> Result<(), AllocError>
    ensures { OnOk result (Adds (parts_text name.now key.now address.now opt.now) out.old out.new) }
{
    put_name(out, name)
        .and(put_part(out, key, address))
        .and(put_part(out, " OPT=", opt))
}

// The name of a primitive that has no words, and the user data.
fn put_without_words(out: &mut Vec<u8>, name: &str, user: &Bytes) -> Result<(), AllocError>
    ensures { OnOk result (Adds (name_word name.now ++ user_field user.now) out.old out.new) }
{
    put_name(out, name).and(put_user(out, user))
}

// A primitive of a connection, from its request to its end.
fn put_connection(out: &mut Vec<u8>, prim: &Prim) -> Result<(), AllocError>
    requires { IsTrue (is_of_connection prim.now) }
    ensures { OnOk result (Adds (frame_text prim.now) out.old out.new) }
{
    match prim {
        Prim::T_CONN_REQ { dest, opt, user } => {
            put_parts(out, "T_CONN_REQ", " DEST=", dest, opt).and(put_user(out, user))
        }
        Prim::T_CONN_RES {
            acceptor_id,
            opt,
            seq_number,
            user,
        } => {
            put_name(out, "T_CONN_RES")
                .and(put_field(out, " ACCEPTOR_id=", *acceptor_id))
                .and(put_part(out, " OPT=", opt))
                .and(put_field(out, " SEQ_number=", *seq_number))
                .and(put_user(out, user))
        }
        Prim::T_DISCON_REQ { seq_number, user } => {
            put_name(out, "T_DISCON_REQ")
                .and(put_field(out, " SEQ_number=", *seq_number))
                .and(put_user(out, user))
        }
        Prim::T_ORDREL_REQ { user } => put_without_words(out, "T_ORDREL_REQ", user),
        Prim::T_CONN_IND {
            src,
            opt,
            seq_number,
            user,
        } => {
            put_parts(out, "T_CONN_IND", " SRC=", src, opt)
                .and(put_field(out, " SEQ_number=", *seq_number))
                .and(put_user(out, user))
        }
        Prim::T_CONN_CON { res, opt, user } => {
            put_parts(out, "T_CONN_CON", " RES=", res, opt).and(put_user(out, user))
        }
        Prim::T_DISCON_IND {
            reason,
            seq_number,
            user,
        } => {
            put_name(out, "T_DISCON_IND")
                .and(put_field(out, " DISCON_reason=", *reason))
                .and(put_field(out, " SEQ_number=", *seq_number))
                .and(put_user(out, user))
        }
        Prim::T_ORDREL_IND { user } => put_without_words(out, "T_ORDREL_IND", user),
        _ => unreachable!(),
    }
}

// A primitive that carries data, or tells that a datagram wasn't delivered.
fn put_data(out: &mut Vec<u8>, prim: &Prim) -> Result<(), AllocError>
    requires { IsTrue (is_of_data prim.now) }
    ensures { OnOk result (Adds (frame_text prim.now) out.old out.new) }
{
    match prim {
        Prim::T_DATA_REQ { more, user } => put_flagged(out, "T_DATA_REQ", *more, user),
        Prim::T_EXDATA_REQ { more, user } => put_flagged(out, "T_EXDATA_REQ", *more, user),
        Prim::T_UNITDATA_REQ { dest, opt, user } => {
            put_parts(out, "T_UNITDATA_REQ", " DEST=", dest, opt).and(put_user(out, user))
        }
        Prim::T_DATA_IND { more, user } => put_flagged(out, "T_DATA_IND", *more, user),
        Prim::T_EXDATA_IND { more, user } => put_flagged(out, "T_EXDATA_IND", *more, user),
        Prim::T_UNITDATA_IND { src, opt, user } => {
            put_parts(out, "T_UNITDATA_IND", " SRC=", src, opt).and(put_user(out, user))
        }
        Prim::T_UDERROR_IND {
            dest,
            opt,
            error_type,
        } => {
            put_parts(out, "T_UDERROR_IND", " DEST=", dest, opt).and(put_field(
                out,
                " ERROR_type=",
                *error_type,
            ))
        }
        _ => unreachable!(),
    }
}

// A request of a binding, or an acknowledgement.
fn put_binding(out: &mut Vec<u8>, prim: &Prim) -> Result<(), AllocError>
    requires { IsTrue (is_of_binding prim.now) }
    ensures { OnOk result (Adds (frame_text prim.now) out.old out.new) }
{
    match prim {
        Prim::T_BIND_REQ {
            addr,
            conind_number,
        } => {
            put_name(out, "T_BIND_REQ")
                .and(put_part(out, " ADDR=", addr))
                .and(put_field(out, " CONIND_number=", *conind_number))
        }
        Prim::T_UNBIND_REQ => put_name(out, "T_UNBIND_REQ"),
        Prim::T_BIND_ACK {
            addr,
            conind_number,
        } => {
            put_name(out, "T_BIND_ACK")
                .and(put_part(out, " ADDR=", addr))
                .and(put_field(out, " CONIND_number=", *conind_number))
        }
        Prim::T_ERROR_ACK {
            error_prim,
            tli_error,
            unix_error,
        } => {
            put_name(out, "T_ERROR_ACK")
                .and(put_field(out, " ERROR_prim=", *error_prim))
                .and(put_field(out, " TLI_error=", *tli_error))
                .and(put_field(out, " UNIX_error=", *unix_error))
        }
        Prim::T_OK_ACK { correct_prim } => {
            put_name(out, "T_OK_ACK").and(put_field(out, " CORRECT_prim=", *correct_prim))
        }
        _ => unreachable!(),
    }
}

fn put_prim(out: &mut Vec<u8>, prim: &Prim) -> Result<(), AllocError>
    ensures { OnOk result (Adds (frame_text prim.now) out.old out.new) }
{
    match prim {
        Prim::T_BIND_REQ { .. }
        | Prim::T_UNBIND_REQ
        | Prim::T_BIND_ACK { .. }
        | Prim::T_ERROR_ACK { .. }
        | Prim::T_OK_ACK { .. } => put_binding(out, prim),
        Prim::T_CONN_REQ { .. }
        | Prim::T_CONN_RES { .. }
        | Prim::T_DISCON_REQ { .. }
        | Prim::T_ORDREL_REQ { .. }
        | Prim::T_CONN_IND { .. }
        | Prim::T_CONN_CON { .. }
        | Prim::T_DISCON_IND { .. }
        | Prim::T_ORDREL_IND { .. } => put_connection(out, prim),
        Prim::T_DATA_REQ { .. }
        | Prim::T_EXDATA_REQ { .. }
        | Prim::T_UNITDATA_REQ { .. }
        | Prim::T_DATA_IND { .. }
        | Prim::T_EXDATA_IND { .. }
        | Prim::T_UNITDATA_IND { .. }
        | Prim::T_UDERROR_IND { .. } => put_data(out, prim),
    }
}

/// Appends the line of a primitive.
pub(crate) fn put_line(out: &mut Vec<u8>, prim: &Prim) -> Result<(), AllocError>
    ensures { OnOk result (Adds (frame_line prim.now) out.old out.new) }
{
    put_prim(out, prim).and(put_text(out, "\n"))
}
