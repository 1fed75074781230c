//! The lines of an input of frames.

ghost use Rattle.std.specs.Prelude.{IfOk, IfErr};
ghost use Rattle.xti_frames.specs.Wrong.{HasCause};
ghost use Rattle.xti_frames.specs.FrameText.{IsShown};

use crate::lines::put_line;
use std::alloc::{AllocError, Global};
use thiserror::Error;
use tpi_grammar::frames_law;
use tpi_prim::{Decoded, decode};
use xti_base::Octets;

/// Why an input of frames isn't shown.
#[derive(Clone, Copy, Debug, Drop, Error, PartialEq, Eq)]
pub enum FramesFail {
    /// The input isn't frames one after the other.
    #[error("the input is no list of frames from byte {at} on")]
    WrongByte {
        /// The first place, counted from 0, by which it isn't: its length if it is cut within a frame.
        at: usize,
    },
    /// Memory ran out.
    #[error("out of memory")]
    OutOfMemory,
}

impl From<AllocError> for FramesFail {
    ghost use Rattle.std.specs.Prelude.{◌≡◌};
    ghost use Rattle.xti_frames.specs.declared.show.FramesFail.TheVariants.{OutOfMemory};

    ghost from_gives = { λ _ e. e ≡ OutOfMemory };

    fn from(_error: AllocError) -> FramesFail {
        FramesFail::OutOfMemory
    }
}

/// The lines of the frames of an input, one for each in their order, each ended by LF: the name of the primitive, its
/// words as `NAME=n`, its parts as `NAME=x:` and hexadecimal digits, and ` data=x:` with the user data where the
/// primitive may have any.
pub fn show_frames(alloc: Global, input: &[u8]) -> Result<Octets, FramesFail>
    ensures shown { IfOk result (λ text. IsShown input.now text) }
    ensures wrong { IfErr result (λ e. HasCause input.now e) }
{
    frames_law();
    let mut out = Vec::new(alloc);
    let mut rest = input;
    while !rest.is_empty() {
        match decode(alloc, rest) {
            Decoded::Value { prim, used } => {
                let written = put_line(&mut out, &prim);
                drop(prim);
                written?;
                rest = rest.split_at(used).1;
            }
            Decoded::Short => return Err(FramesFail::WrongByte { at: input.len() }),
            Decoded::Bad { at } => return Err(FramesFail::WrongByte {
                at: input.len() - rest.len() + at,
            }),
            Decoded::OutOfMemory => return Err(FramesFail::OutOfMemory),
        }
    }
    Ok(Octets::from_vec(out))
}
