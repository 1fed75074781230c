//! Buffers that a vector receive fills one after the other.

ghost use Rattle.std.specs.Prelude.{◌≡◌, ◌≤◌, IfOk, length, map, min, sum};
ghost use Rattle.std.specs.List.{concat};
ghost use Rattle.xti_calls.specs.Parts.{split_by, HaveRoom};

use std::alloc::{AllocError, Global};
use std::marker::Model;
use xti_base::limits::MOST_SIZE;
use xti_base::{Octets, Parts, Room, Sizes, or_drop};

/// The most bytes that one receive on a connection gives: those of the sender's buffer and of the receiver's.
pub(crate) const MOST_OF_STREAM: usize = 2 * MOST_SIZE as usize;

/// The most bytes of one datagram.
pub(crate) const MOST_OF_DATAGRAM: usize = MOST_SIZE as usize;

/// How many bytes the caller takes in one part, and room for those that may come.
#[derive(Drop)]
struct Buffer {
    size: u32,
    room: Room,
}

/// Room for the parts of a vector receive. It is taken before the call is made, so that memory can't run out once bytes
/// were received.
#[derive(Drop)]
pub(crate) struct Buffers {
    most: usize,
    buffers: Vec<Buffer>,
    parts: Vec<Octets>,
}

impl Model for Buffers {
    ghost use Rattle.std.specs.Prelude.{◌≡◌, ◌≤◌, [], map, vec_len, vec_capacity};
    ghost use Rattle.xti_calls.specs.Parts.{PartSizes, HaveRoom};

    ghost Value = { PartSizes };

    ghost view = { λ b. record { sizes = map (λ x. x.size) b.buffers.items; most = b.most } };

    ghost invariant = { λ b. HaveRoom b.most b.buffers.items × (b.parts.items ≡ []) × (vec_len b.buffers ≤ vec_capacity b.parts) };
}

impl Buffers {
    /// Room for parts of these sizes, and for at most so many bytes in all of them together.
    fn of_sizes(alloc: Global, sizes: &[u32], most: usize) -> Result<Buffers, AllocError>
        ensures sizes { IfOk result (λ b. b.sizes ≡ sizes.now) }
        ensures most { IfOk result (λ b. b.most ≡ most) }
    {
        let buffers = rooms_for(alloc, sizes, most)?;
        let parts = or_drop!(Vec::with_capacity(alloc, sizes.len()), buffers);
        Ok(Buffers {
            most,
            buffers,
            parts,
        })
    }

    /// The same, and the sizes once more, for the call.
    pub(crate) fn new(
        alloc: Global,
        sizes: &Sizes,
        most: usize,
    ) -> Result<(Buffers, Sizes), AllocError>
        ensures sizes { IfOk result (λ r. (r.0.sizes ≡ sizes.now) × (r.1 ≡ sizes.now)) }
        ensures most { IfOk result (λ r. r.0.most ≡ most) }
    {
        let buffers = Buffers::of_sizes(alloc, sizes.as_slice(), most)?;
        let sizes = or_drop!(sizes.copy(), buffers);
        Ok((buffers, sizes))
    }

    /// The bytes cut into parts by the sizes. Takes no memory.
    pub(crate) fn fill(self, bytes: &Octets) -> Parts
        requires { length bytes.now ≤ min (sum self.sizes) self.most }
        ensures parts { result ≡ split_by self.sizes bytes.now }
        ensures joined { concat result ≡ bytes.now }
    {
        let Buffers {
            buffers,
            mut parts,
            ..
        } = self;
        let mut rest = bytes.as_slice();
        for Buffer { size, mut room } in buffers {
            let (part, after) = rest.split_at(rest.len().min(size as usize));
            room.append(part);
            parts.push_reserved(room.finish());
            rest = after;
        }
        Parts::from_vec(parts)
    }
}

/// Room for each part, as long as those before it leave bytes for it.
fn rooms_for(alloc: Global, sizes: &[u32], most: usize) -> Result<Vec<Buffer>, AllocError>
    ensures sizes { IfOk result (λ v. map (λ b. b.size) v.items ≡ sizes.now) }
    ensures room { IfOk result (λ v. HaveRoom most v.items) }
{
    let mut buffers = Vec::with_capacity(alloc, sizes.len())?;
    let mut left = most;
    for size in sizes {
        let taken = left.min(*size as usize);
        let room = Room::new(alloc, taken)?;
        buffers.push(Buffer { size: *size, room })?;
        left -= taken;
    }
    Ok(buffers)
}
