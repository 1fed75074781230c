//! Options, and the form of lists of them (XNS, t_opthdr).

ghost use Rattle.std.specs.Prelude.{◌≡◌, ◌≤◌, length};
ghost use Rattle.xti_base.specs.Options.{are_zero, front_length, is_option_list, IsSizeOfFront};

use crate::octets::Octets;

/// An option (XNS, t_opthdr and the value after it).
#[derive(Drop)]
pub struct Opt {
    /// The level, as XTI_GENERIC.
    pub level: u32,
    /// The name at that level.
    pub name: u32,
    /// The result of a negotiation; nothing reads it in a request.
    pub status: u32,
    /// The value.
    pub value: Octets,
}

/// Whether the bytes are a list of options in their form: one after the other, each with its length, level, name and
/// status as big-endian words of four bytes, its value of length - 16 bytes, and zero bytes up to a multiple of four,
/// which the length doesn't count. No bytes are the empty list. Takes no memory.
pub fn is_option_list(bytes: &[u8]) -> bool
    ensures { result ≡ is_option_list bytes.now }
{
    let mut rest = bytes;
    while !rest.is_empty() {
        match size_of_front(rest) {
            Some(size) => rest = rest.split_at(size).1,
            None => return false,
        }
    }
    true
}

/// How many bytes the option at the start takes, with those that fill it up; `None` exactly if no option stands there.
/// Takes no memory.
#[tactic(auto, using(crate::proofs::OptionLists::zeros_decide), unfolding(crate::specs::Options::begins_option))]
pub fn size_of_front(bytes: &[u8]) -> Option<usize>
    ensures { IsSizeOfFront bytes.now result }
{
    if bytes.len() < 16 {
        return None;
    }
    let length = length_of_front(bytes);
    let size = length + (4 - length % 4) % 4;
    if length < 16 || bytes.len() < size {
        return None;
    }
    if are_zero(&bytes[length..size]) {
        Some(size)
    } else {
        None
    }
}

fn are_zero(bytes: &[u8]) -> bool
    ensures { result ≡ are_zero bytes.now }
{
    bytes.iter().all(|byte| *byte == 0)
}

/// The length that the option at the start gives, which doesn't count what fills it up.
fn length_of_front(bytes: &[u8]) -> usize
    requires { 4 ≤ length bytes.now }
    ensures { result ≡ front_length bytes.now }
{
    u32::from_be_bytes([bytes[0], bytes[1], bytes[2], bytes[3]]) as usize
}
