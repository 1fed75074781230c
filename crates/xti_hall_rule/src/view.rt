//! What a hall's slots have, and what a seat knows.

use crate::bells::Bells;
use crate::last::Last;
use crate::setting::{Recorded, Setting};
use std::collections::LinkedList;
use std::snapshot::Snapshot;
use xti_base::State;
use xti_model::{Call, Entry, Go, Outcome};
use xti_wants::Want;

/// How the seat with a number stands.
#[derive(Clone, Copy)]
pub enum Mark {
    /// No seat with the number is out.
    Absent,
    /// The seat goes about its calls.
    Free,
    /// The seat waits for this, since the history had this length.
    Waiting(Want, u64),
    /// The seat rests.
    Resting,
}

/// A try at a cell's turn that found it held: the cell, and the recorded values of the cells that the seat then held. No value
/// of it is made.
pub struct Refusal {
    /// The cell that was tried.
    pub cell: u32,
    /// For each cell its recorded value, where the seat held its turn.
    pub held: LinkedList<Option<Recorded>>,
}

/// What a seat knows. No value of it is made.
pub struct View {
    /// What the hall is of.
    pub setting: Setting,
    /// Whether the rule speaks of this view: it doesn't of one that was joined.
    pub live: bool,
    /// Whether the seat has a number. A note has none.
    pub numbered: bool,
    /// The seat's number.
    pub number: u32,
    /// The least of the numbers that the seat may still hand out, which go up to 32.
    pub next: u32,
    /// The part of the history that the seat has seen.
    pub seen: LinkedList<Entry>,
    /// What another seat had seen, of which this one was told.
    pub heard: LinkedList<Entry>,
    /// The seat's own entries.
    pub mine: LinkedList<Entry>,
    /// For each cell its recorded value, where the seat holds its turn.
    pub held: LinkedList<Option<Recorded>>,
    /// 0, or 1 more than the number of the cell whose slot the seat has open.
    pub opened: u64,
    /// Whether the seat holds the journal's turn.
    pub journal: bool,
    /// The history, as it was when the seat last took the journal's turn, or wrote.
    pub history: LinkedList<Entry>,
    /// The marks that the seat found when it last took the journal's turn.
    pub marks: LinkedList<Mark>,
    /// The seat's own mark.
    pub mark: Mark,
    /// The tries that found a turn held, in order.
    pub refused: LinkedList<Refusal>,
}

/// An entry as contracts see it.
#[derive(Drop)]
pub enum Shown {
    /// This one.
    Whole(Snapshot<Entry>),
    /// That of a step of a call, by its parts.
    Parts {
        /// The number of the seat.
        worker: u32,
        /// The call.
        call: Snapshot<Call>,
        /// How far it had come.
        go: Go,
        /// What the step answered.
        outcome: Snapshot<Outcome>,
        /// The state after it.
        after: State,
    },
}

/// What is at hand of the history, and the mark of each number from 0 to 32.
#[derive(Drop)]
pub struct Journal {
    /// The length of the history.
    pub length: u64,
    /// The entries of the history, where they are kept.
    pub kept: Option<Vec<Entry>>,
    /// The entry that a commit adds, as contracts see it.
    pub last: Last,
    /// The mark of each number.
    pub marks: Vec<Mark>,
    /// Who is to be woken.
    pub bells: Bells,
}

/// What a slot of a hall has.
#[derive(Drop)]
pub enum Held<C> {
    /// The value of a cell.
    Cell(C),
    /// The journal, in a box, so that a slot is small.
    Journal(Box<Journal>),
}
