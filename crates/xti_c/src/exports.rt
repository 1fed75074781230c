//! What C calls.

ghost use Rattle.std.specs.Prelude.{◌≡◌, true, false, IfOk, IfSome, IsSome};
ghost use Rattle.std.specs.declared.option.Option.TheVariants.{Some};
ghost use Rattle.xti_c.specs.Answers.{bytes_of, places_of, Answers, RunsOutRightly, TellsNoCall};
ghost use Rattle.xti_journal_text.specs.JournalText.{journal_text};
ghost use Rattle.xti_c.specs.Lines.{TellsLine, TellsText, no_steps};
ghost use Rattle.xti_c.specs.Opening.{c_opening};
ghost use Rattle.xti_c.specs.Seeing.{Sees};

use crate::passing::{Given, Kept};
use crate::providers::providers;
use crate::recording::{Place, tell_no_steps};
use crate::seeing::{Seen, see};
use crate::stepping::{Ended, make_step};
use std::alloc::{AllocError, Global};
use xti_base::Fd;
use xti_core::World;
use xti_flat::{Asked, Bytes, Told};

fn fresh(alloc: Global) -> Result<Box<World>, AllocError>
    ensures { IfOk result (λ b. b.value ≡ c_opening) }
{
    let world = World::fresh(alloc, &providers())?;
    Ok(Box::new(alloc, world)?)
}

/// Makes the opening world of C programs' providers; whether there was memory for it. Where there was none, `kept` stays.
#[unsafe(no_mangle)]
pub extern "C" fn xti_c_make(alloc: Global, kept: &mut Kept) -> bool
    ensures made { result ≡ true → kept.new.value ≡ Some c_opening }
    ensures not_made { result ≡ false → kept.new ≡ kept.old }
{
    match fresh(alloc) {
        Ok(world) => {
            *kept = Kept::of(world);
            true
        }
        Err(_) => false,
    }
}

/// Frees a world.
#[unsafe(no_mangle)]
pub extern "C" fn xti_c_free(given: Given) {
    drop(given.into_box());
}

/// One step of the call that is asked for. 0: the call is done; 1: a part of it is made; 2: it is blocked; 3: out of memory; 4: no
/// call has the number.
///
/// Where room for a line is given and a step is made, the room gets as much as it holds of the step's line in a journal, with its
/// LF, in which the step has this number and is this worker's; `line_len` is then the whole line's length. It is 0 where no step was
/// made, and where there was no memory for the line, after the step was made all the same.
#[unsafe(no_mangle)]
pub extern "C" fn xti_c_step(
    alloc: Global,
    given: Given,
    kept: &mut Kept,
    asked: &Asked,
    addr: &[u8],
    opt: &[u8],
    udata: &[u8],
    sizes: &[u32],
    told: &mut Told,
    addr_room: &mut [u8],
    opt_room: &mut [u8],
    udata_room: &mut [u8],
    worker: u32,
    number: u64,
    line_room: &mut [u8],
    line_len: &mut usize,
) -> u32
    ensures world { IsSome kept.new.value }
    ensures step { IfSome kept.new.value (λ world.
        Answers asked.now (bytes_of addr.entry opt.entry udata.entry sizes.entry)
        given.value world result
        (places_of told.old addr_room.old opt_room.old udata_room.old)
        (places_of told.new addr_room.new opt_room.new udata_room.new)) }
    ensures line { TellsLine (record { worker = worker; number = number })
        asked.now (bytes_of addr.entry opt.entry udata.entry sizes.entry) given.value
        (record { end = result; line = line_len.new }) line_room.old line_room.new }
    ensures sure { RunsOutRightly given.value
        asked.now (bytes_of addr.entry opt.entry udata.entry sizes.entry) result }
    ensures no_call { TellsNoCall asked.now result }
{
    let mut world = given.into_box();
    let bytes = Bytes {
        addr,
        opt,
        udata,
        sizes,
    };
    let place = Place { worker, number };
    let Ended { end, line } = make_step(
        alloc, &mut world, asked, &bytes, place, told, addr_room, opt_room, udata_room, line_room,
    );
    *kept = Kept::of(world);
    *line_len = line;
    end
}

/// The journal of a run of the usual providers in which no step is made: as much of it as the room holds, and the whole text's
/// length. 0: out of memory, and the room is as before.
#[unsafe(no_mangle)]
pub extern "C" fn xti_c_no_steps(alloc: Global, room: &mut [u8]) -> usize
    ensures { TellsText (journal_text no_steps) result room.old room.new }
{
    tell_no_steps(alloc, room)
}

/// What the endpoint with the descriptor shows, which changes nothing and takes no memory; whether one is open.
#[unsafe(no_mangle)]
pub extern "C" fn xti_c_look(given: Given, kept: &mut Kept, fd: u32, seen: &mut Seen) -> bool
    ensures world { kept.new.value ≡ Some given.value }
    ensures sight { Sees given.value fd result seen.old seen.new }
{
    let world = given.into_box();
    let open = see(&world, Fd(fd), seen);
    *kept = Kept::of(world);
    open
}
