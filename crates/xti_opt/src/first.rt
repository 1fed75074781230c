//! The first option of bytes.

ghost use Rattle.std.specs.Prelude.{◌≡◌, ◌≤◌, ◌<◌, false, length, MatchOption};
ghost use Rattle.xti_base.specs.Options.{word, begins_option};
ghost use Rattle.xti_opt.specs.Requests.{IsFirst};

use xti_base::size_of_front;

/// The first option of bytes, lent, and the bytes after it.
#[derive(Clone, Copy)]
pub(crate) struct First<'a> {
    pub(crate) level: u32,
    pub(crate) name: u32,
    pub(crate) value: &'a [u8],
    pub(crate) rest: &'a [u8],
}

/// The first option; `None` exactly if the bytes begin with none. Takes no memory.
#[tactic(auto, using(crate::proofs::Fronts::header_stands, crate::proofs::Fronts::value_after_header, crate::proofs::Fronts::value_stands, crate::proofs::Fronts::option_stands))]
pub(crate) fn split_first(bytes: &[u8]) -> Option<First<'_>>
    ensures { MatchOption result (begins_option bytes.now ≡ false) (IsFirst bytes.now) }
{
    let size = size_of_front(bytes)?;
    let length = word_at(bytes, 0) as usize;
    Some(First {
        level: word_at(bytes, 1),
        name: word_at(bytes, 2),
        value: &bytes[16..length],
        rest: &bytes[size..],
    })
}

/// The big-endian word at this place, from 0, of the four of an option's header.
pub(crate) fn word_at(bytes: &[u8], place: usize) -> u32
    requires header { 16 ≤ length bytes.now }
    requires place { place < 4 }
    ensures { result ≡ word place bytes.now }
{
    let at = 4 * place;
    u32::from_be_bytes([bytes[at], bytes[at + 1], bytes[at + 2], bytes[at + 3]])
}
