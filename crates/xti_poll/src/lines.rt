//! The lines of a table.

ghost use Rattle.std.specs.Prelude.{◌≡◌, ◌++◌, OnOk};
ghost use Rattle.xti_poll.specs.Tables.{event_word, found_text, line_text};

use std::alloc::AllocError;
use xti_base::{Event, Fd};
use xti_gather::Glance;
use xti_words::{put_number, put_text};

/// The name of an event, and `0` for none.
fn event_word(event: Option<Event>) -> &'static str
    ensures { result.now ≡ event_word event }
{
    match event {
        Some(event) => event.name(),
        None => "0",
    }
}

/// Appends what a glance found.
fn put_found(out: &mut Vec<u8>, glance: Glance) -> Result<(), AllocError>
    ensures { OnOk result (out.new.items ≡ out.old.items ++ found_text glance) }
{
    match glance {
        Glance::Seen { state, event, at } => {
            put_text(out, " ")
                .and(put_text(out, state.name()))
                .and(put_text(out, " "))
                .and(put_text(out, event_word(event)))
                .and(put_number(out, " ", at))
        }
        Glance::Gone { at } => put_number(out, " gone ", at),
        Glance::Busy { cell } => put_number(out, " busy ", cell as u64),
    }
}

/// Appends the line of a descriptor.
pub(crate) fn put_line(out: &mut Vec<u8>, fd: Fd, glance: Glance) -> Result<(), AllocError>
    ensures { OnOk result (out.new.items ≡ out.old.items ++ line_text fd glance) }
{
    put_number(out, "", fd.0 as u64)
        .and(put_found(out, glance))
        .and(put_text(out, "\n"))
}
