//! The calls that are part way.

ghost use Rattle.std.specs.Prelude.{◌≡◌};
ghost use Rattle.std.specs.Option.{option_copied};
ghost use Rattle.xti_model.specs.History.{made_by};
ghost use Rattle.xti_check.specs.Parts.{call_at, going_of, made, begun_at, left_after};

use xti_model::{Act, Call, Entry, Go, Outcome};

/// A call that is part way.
#[derive(Clone, Copy, Debug, PartialEq, Eq)]
pub(crate) struct Part {
    /// The place of the entry that began it.
    pub(crate) entry: usize,
    /// How many of its bytes are taken.
    pub(crate) taken: u32,
}

/// A call, and how far it has come before a step.
#[derive(Clone, Copy)]
pub(crate) struct Going<'a> {
    pub(crate) call: &'a Call,
    pub(crate) go: Go,
}

/// The call that the entry at this place begins.
fn call_at(entries: &[Entry], place: usize) -> Option<&Call>
    ensures { option_copied result ≡ call_at entries.now place }
{
    match entries.get(place) {
        Some(entry) => match &entry.act {
            Act::Begin(call) => Some(call),
            Act::More => None,
        },
        None => None,
    }
}

/// The call that is part way, and how far it has come.
pub(crate) fn going_of(entries: &[Entry], part: Option<Part>) -> Option<Going>
    ensures { made result ≡ going_of entries.now part }
{
    match part {
        Some(part) => match call_at(entries, part.entry) {
            Some(call) => Some(Going {
                call,
                go: Go::More(part.taken),
            }),
            None => None,
        },
        None => None,
    }
}

/// The call that an act makes a step of, where this one is part way: none where the act doesn't go with it.
pub(crate) fn made_by<'a>(going: Option<Going<'a>>, act: &'a Act) -> Option<Going<'a>>
    ensures { made result ≡ made_by (made going.entry) act.now }
{
    match (act, going) {
        (Act::Begin(call), None) => Some(Going {
            call,
            go: Go::Begin,
        }),
        (Act::Begin(_), Some(_)) => None,
        (Act::More, going) => going,
    }
}

/// The place of the entry that began the call of the entry at this place.
pub(crate) fn begun_at(part: Option<Part>, act: &Act, place: usize) -> usize
    ensures { result ≡ begun_at part act.now place }
{
    match (act, part) {
        (Act::More, Some(part)) => part.entry,
        _ => place,
    }
}

/// What is left of the call that the entry at this place began.
pub(crate) fn left_after(entry: usize, outcome: &Outcome) -> Option<Part>
    ensures { result ≡ left_after entry outcome.now }
{
    match outcome {
        Outcome::Done(_) => None,
        Outcome::Part { taken } => Some(Part {
            entry,
            taken: *taken,
        }),
    }
}
