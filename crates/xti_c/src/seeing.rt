//! What an endpoint shows.

ghost use Rattle.xti_c.specs.Seeing.{Sees};

use xti_base::Fd;
use xti_core::World;

/// What an endpoint shows, in numbers.
#[repr(C)]
#[derive(Clone, Copy)]
pub struct Seen {
    /// Its state.
    pub state: u32,
    /// The first event that is pending, in the order of `t_look`; 0 where none is.
    pub event: u32,
}

/// Writes what the endpoint with the descriptor shows, which changes nothing; whether one is open. Where none is, `seen` stays.
pub(crate) fn see(world: &World, fd: Fd, seen: &mut Seen) -> bool
    ensures { Sees world.now fd.0 result seen.old seen.new }
{
    match world.sight(fd) {
        Some(sight) => {
            *seen = Seen {
                state: sight.state.number(),
                event: match sight.event {
                    Some(event) => event.number(),
                    None => 0,
                },
            };
            true
        }
        None => false,
    }
}
