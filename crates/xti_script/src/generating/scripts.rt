//! Making a script.

ghost use Rattle.std.specs.Prelude.{◌≡◌, IfOk};
ghost use Rattle.xti_script.specs.Generated.{generated};

use crate::generating::connection::{
    put_accepting_side, put_connecting_side, put_connection_setup,
};
use crate::generating::ring::{put_ring, put_setups};
use crate::generating::sizes::{LINES, MOST_SENT};
use std::alloc::{AllocError, Global};
use xti_base::Items;
use xti_model::{Providers, Script};

/// The script of a seed.
///
/// Workers 1 to 8 send datagrams around a ring: each sends 1,024 to the next one, and after each of them receives one.
/// Worker 9 accepts a connection and receives 1,024 times, and worker 10 connects and sends as often; then both release it.
/// What is sent has 1 to 64 bytes, one more in each round; the seed's remainder by 64 shifts these sizes, and so seeds with
/// the same remainder have the same script. `Err` is out of memory.
#[tactic(auto, unfolding(crate::specs::Generated::generated, crate::specs::Generated::generated_lines))]
pub fn generate(alloc: Global, seed: u64) -> Result<Script, AllocError>
    ensures { IfOk result (λ s. s ≡ generated seed) }
{
    let shift = (seed % MOST_SENT as u64) as u32;
    let mut lines = Vec::with_capacity(alloc, LINES)?;
    put_setups(&mut lines)?;
    put_connection_setup(&mut lines)?;
    put_ring(&mut lines, shift)?;
    put_accepting_side(&mut lines)?;
    put_connecting_side(&mut lines, shift)?;
    Ok(Script {
        providers: Providers::usual(),
        lines: Items::from_vec(lines),
    })
}
