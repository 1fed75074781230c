//! The lines that are read so far, and what they say together.

ghost use Rattle.std.specs.Prelude.{◌≡◌, ◌≤◌, ◌<◌, ◌+◌, [], take, length, IfOk, IfNone, OnErr};
ghost use Rattle.std.specs.List.{concat};
ghost use Rattle.xti_model.specs.Work.{argument_bytes};
ghost use Rattle.xti_model.specs.Resolve.{opens, listens};
ghost use Rattle.xti_script_reader.specs.Names.{after, is_defined};
ghost use Rattle.xti_script_reader.specs.Known.{HasCall, IfAdded, TakesCall, TakesName};
ghost use Rattle.xti_script_reader.specs.TextSets.{HaveSame};
ghost use Rattle.xti_script_reader.specs.Reading.{less, bytes_with_parts, room_after, with_call};

use crate::names::{TextSet, add_name, empty_sets, is_defined};
use std::alloc::{AllocError, Global};
use std::marker::Model;
use xti_base::Octets;
use xti_base::limits::{LAST_WORKER, MOST_ARGUMENT_BYTES, MOST_LINES};
use xti_model::{Line, Lines, NamedCall};

fn less(left: usize, n: usize) -> Option<usize>
    ensures { result ≡ less left n }
{
    if n <= left { Some(left - n) } else { None }
}

fn less_one(left: usize, bytes: &Octets) -> Option<usize>
    ensures { result ≡ less left (length bytes.now) }
{
    less(left, bytes.as_slice().len())
}

fn less_two(left: usize, first: &Octets, second: &Octets) -> Option<usize>
    ensures { result ≡ less left (length first.now + length second.now) }
{
    less_one(less_one(left, first)?, second)
}

fn less_three(left: usize, first: &Octets, second: &Octets, third: &Octets) -> Option<usize>
    ensures { result ≡ less left (length first.now + length second.now + length third.now) }
{
    less_one(less_two(left, first, second)?, third)
}

fn less_parts(left: usize, parts: &[Octets]) -> Option<usize>
    ensures { result ≡ less left (length (concat parts.now)) }
{
    match parts {
        [] => less(left, 0),
        [part, parts @ ..] => less_parts(less_one(left, part)?, parts),
    }
}

fn less_two_and_parts(
    left: usize,
    first: &Octets,
    second: &Octets,
    parts: &[Octets],
) -> Option<usize>
    ensures { result ≡ less left (bytes_with_parts first.now second.now parts.now) }
{
    less_parts(less_two(left, first, second)?, parts)
}

/// What is left of so many bytes after those of the call; `None` where the call has more.
fn left_after(left: usize, call: &NamedCall) -> Option<usize>
    ensures { result ≡ less left (argument_bytes call.now) }
{
    match call {
        NamedCall::TBind { addr, .. } => less_one(left, addr),
        NamedCall::TConnect {
            addr,
            opt,
            udata,
            ..
        } => less_three(left, addr, opt, udata),
        NamedCall::TAccept { opt, udata, .. } => less_two(left, opt, udata),
        NamedCall::TSnd { bytes, .. } => less_one(left, bytes),
        NamedCall::TSndV { parts, .. } => less_parts(left, parts.as_slice()),
        NamedCall::TSndDis { udata, .. } | NamedCall::TSndRelData { udata, .. } => {
            less_one(left, udata)
        }
        NamedCall::TSndUData {
            addr,
            opt,
            bytes,
            ..
        } => less_three(left, addr, opt, bytes),
        NamedCall::TSndVUData {
            addr,
            opt,
            parts,
            ..
        } => less_two_and_parts(left, addr, opt, parts.as_slice()),
        NamedCall::TOptMgmt { opt, .. } => less_one(left, opt),
        _ => Some(left),
    }
}

/// What is left of so many bytes after one more line after so many; `None` where a limit is in the way.
#[tactic(auto, unfolding(crate::specs::Reading::room_after))]
fn room_after(count: usize, left: usize, call: &NamedCall) -> Option<usize>
    ensures { result ≡ room_after count left call.now }
{
    if count < MOST_LINES {
        left_after(left, call)
    } else {
        None
    }
}

/// What became of a line: it was read, is wrong, or passes a limit.
#[derive(Clone, Copy, Debug, PartialEq, Eq)]
pub(crate) enum Taken {
    Read,
    Wrong,
    TooMany,
}

/// What is left of so many bytes after the line, whose name is added; `None` where a limit is in the way.
fn admit(
    opened: &mut [TextSet],
    listened: &mut [TextSet],
    alloc: Global,
    count: usize,
    left: usize,
    line: &Line,
) -> Result<Option<usize>, AllocError>
    requires endpoints { line.now.worker < length opened.old }
    requires sequences { line.now.worker < length listened.old }
    ensures room { IfOk result (λ room. room ≡ room_after count left line.now.call) }
    ensures opened { IfAdded result (TakesName opens line.now opened.old opened.new) }
    ensures listened { IfAdded result (TakesName listens line.now listened.old listened.new) }
    ensures opened_same { IfOk result (λ room. IfNone room (opened.new ≡ opened.old)) }
    ensures listened_same { IfOk result (λ room. IfNone room (listened.new ≡ listened.old)) }
    ensures opened_kept { OnErr result (HaveSame opened.old opened.new) }
    ensures listened_kept { OnErr result (HaveSame listened.old listened.new) }
{
    let Some(left) = room_after(count, left, &line.call) else {
        return Ok(None);
    };
    add_name(alloc, opened, listened, line)?;
    Ok(Some(left))
}

// Apart, since lines are seldom refused.
#[inline(never)]
fn shorten(lines: &mut Vec<Line>, count: usize)
    ensures { lines.new.items ≡ take count lines.old.items }
{
    lines.truncate(count);
}

/// Adds the line of the worker with the call; what is left of so many bytes after it. `None` where a limit is in the way:
/// then, and where memory runs out, nothing is added.
fn add_line(
    lines: &mut Vec<Line>,
    opened: &mut [TextSet],
    listened: &mut [TextSet],
    left: usize,
    worker: u32,
    call: NamedCall,
) -> Result<Option<usize>, AllocError>
    requires endpoints { worker < length opened.old }
    requires sequences { worker < length listened.old }
    ensures room { IfOk result (λ room. room ≡ room_after (length lines.old.items) left call) }
    ensures opened { IfAdded result (TakesCall opens worker call opened.old opened.new) }
    ensures listened { IfAdded result (TakesCall listens worker call listened.old listened.new) }
    ensures more { IfAdded result (HasCall worker call lines.old.items lines.new.items) }
    ensures opened_same { IfOk result (λ room. IfNone room (opened.new ≡ opened.old)) }
    ensures listened_same { IfOk result (λ room. IfNone room (listened.new ≡ listened.old)) }
    ensures same { IfOk result (λ room. IfNone room (lines.new.items ≡ lines.old.items)) }
    ensures opened_kept { OnErr result (HaveSame opened.old opened.new) }
    ensures listened_kept { OnErr result (HaveSame listened.old listened.new) }
    ensures kept { OnErr result (lines.new.items ≡ lines.old.items) }
{
    let alloc = *lines.allocator();
    let count = lines.as_slice().len();
    if lines.reserve(1).is_err() {
        drop(call);
        return Err(AllocError);
    }
    lines.push_reserved(Line { worker, call });
    match admit(opened, listened, alloc, count, left, &lines[count]) {
        Ok(Some(left)) => Ok(Some(left)),
        refused => {
            shorten(lines, count);
            refused
        }
    }
}

/// The lines that are read so far.
#[derive(Drop)]
pub(crate) struct Draft {
    lines: Vec<Line>,
    /// The names of endpoints that each worker's lines define.
    opened: Vec<TextSet>,
    /// The names of sequence numbers that each worker's lines define.
    listened: Vec<TextSet>,
    /// How many bytes the arguments of further lines may have.
    left: usize,
}

impl Model for Draft {
    ghost use Rattle.std.specs.Prelude.{List};
    ghost use Rattle.xti_model.specs.declared.script.Line.{Line};
    ghost use Rattle.xti_script_reader.specs.Known.{Knows};

    ghost Value = { List Line };

    ghost view = { λ d. d.lines.items };

    ghost invariant = { λ d. Knows d.lines.items d.opened.items d.listened.items d.left };
}

impl Draft {
    /// No lines.
    pub(crate) fn new(alloc: Global) -> Result<Draft, AllocError>
        ensures { IfOk result (λ draft. draft ≡ []) }
    {
        Ok(Draft {
            opened: empty_sets(alloc)?,
            listened: empty_sets(alloc)?,
            lines: Vec::new(alloc),
            left: MOST_ARGUMENT_BYTES,
        })
    }

    /// Adds the line of the worker with the call, if no limit is in the way. If one is, and where memory runs out, the lines
    /// are as before.
    pub(crate) fn add(&mut self, worker: u32, call: NamedCall) -> Result<Taken, AllocError>
        requires { worker ≤ LAST_WORKER }
        ensures ok { IfOk result (λ taken. (taken, self.new) ≡ with_call self.old worker call) }
        ensures err { OnErr result (self.new ≡ self.old) }
    {
        let opened = self.opened.as_mut_slice();
        let listened = self.listened.as_mut_slice();
        match add_line(&mut self.lines, opened, listened, self.left, worker, call)? {
            Some(left) => {
                self.left = left;
                Ok(Taken::Read)
            }
            None => Ok(Taken::TooMany),
        }
    }

    /// Where the lines are allocated.
    pub(crate) fn alloc(&self) -> Global {
        *self.lines.allocator()
    }

    /// The lines. Takes no memory.
    pub(crate) fn finish(self) -> Lines
        ensures { result ≡ self }
    {
        let Draft { lines, .. } = self;
        Lines::from_vec(lines)
    }

    /// Whether a line of the worker or of worker 0 defines the name of an endpoint.
    pub(crate) fn has_endpoint(&self, worker: u32, name: &[u8]) -> bool
        ensures { result ≡ is_defined opens (after self.now worker) name.now }
    {
        is_defined(self.opened.as_slice(), worker, name)
    }

    /// Whether a line of the worker or of worker 0 defines the name of a sequence number.
    pub(crate) fn has_sequence(&self, worker: u32, name: &[u8]) -> bool
        ensures { result ≡ is_defined listens (after self.now worker) name.now }
    {
        is_defined(self.listened.as_slice(), worker, name)
    }
}
