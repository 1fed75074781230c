//! The lines of a journal.

ghost use Rattle.std.specs.Prelude.{◌≡◌};
ghost use Rattle.xti_journal_text.specs.JournalText.{entry_text, journal_text};
ghost use Rattle.xti_c.specs.Lines.{TellsText, act_of, entry_of, no_steps};

use crate::providers::providers;
use std::alloc::Global;
use xti_base::{State, let_go};
use xti_flat::give;
use xti_journal_text::{Entries, Entry, Journal, Stalls, write_entry, write_journal};
use xti_model::{Act, Call, Go, Outcome};

/// Where a step stands in a journal.
#[derive(Clone, Copy)]
pub(crate) struct Place {
    /// Who makes it.
    pub(crate) worker: u32,
    /// Its number, from 1.
    pub(crate) number: u64,
}

/// What a step of the call does: the call begins, or goes on.
pub(crate) fn act_of(call: Call, go: Go) -> Act
    ensures { result ≡ act_of call go }
{
    match go {
        Go::Begin => Act::Begin(call),
        Go::More(_) => {
            let_go(call);
            Act::More
        }
    }
}

/// Writes as much of the step's line as the room holds; the whole line's length. 0: out of memory, and the room is as before. It
/// is not a part of its caller, whose steps mostly have no line.
#[inline(never)]
pub(crate) fn tell_step(
    alloc: Global,
    place: Place,
    call: Call,
    go: Go,
    outcome: Outcome,
    after: State,
    room: &mut [u8],
) -> usize
    ensures { TellsText (entry_text place.number (entry_of place call go outcome after))
        result room.old room.new }
{
    let entry = Entry {
        worker: place.worker,
        act: act_of(call, go),
        outcome,
        after,
    };
    match write_entry(alloc, place.number, &entry) {
        Ok(line) => {
            give(line.as_slice(), room);
            line.as_slice().len()
        }
        Err(_) => 0,
    }
}

/// Writes as much of the journal without steps as the room holds; the whole text's length. 0: out of memory, and the room is as
/// before.
pub(crate) fn tell_no_steps(alloc: Global, room: &mut [u8]) -> usize
    ensures { TellsText (journal_text no_steps) result room.old room.new }
{
    let journal = Journal {
        providers: providers(),
        entries: Entries::new(alloc),
        stalls: Stalls::new(alloc),
    };
    match write_journal(alloc, &journal) {
        Ok(text) => {
            give(text.as_slice(), room);
            text.as_slice().len()
        }
        Err(_) => 0,
    }
}
