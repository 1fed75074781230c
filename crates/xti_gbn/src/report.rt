//! Lines of a run, and its report.

ghost use Rattle.std.specs.Prelude.{◌≡◌, ◌++◌, OnOk, IfOk, Some};
ghost use Rattle.std.specs.List.{flat_map};
ghost use Rattle.xti_words.specs.WrittenWords.{number_word};
ghost use Rattle.xti_gbn.specs.Reports.{arrival_line, ended, last_line, report_text};

use crate::receiver::Taken;
use std::alloc::{AllocError, Global};
use xti_base::{Octets, Parts};
use xti_words::{put_number, put_octets, put_text};

/// What a run came to.
#[derive(Drop)]
pub struct Report {
    /// The line of each event, without its line feed.
    pub lines: Parts,
    /// How many bodies the sender took.
    pub offered: u32,
    /// How many bodies the receiver took.
    pub delivered: u32,
    /// How many bodies the sender knows to be delivered.
    pub acknowledged: u32,
    /// Four, and two for each time that something was carried.
    pub entries: u32,
}

/// A line of words alone.
pub(crate) fn text_line(alloc: Global, text: &str) -> Result<Octets, AllocError>
    ensures { IfOk result (λ line. line ≡ text.now) }
{
    Octets::copy_of(alloc, text.as_bytes())
}

/// A line of words and a number.
pub(crate) fn number_line(alloc: Global, key: &str, number: u32) -> Result<Octets, AllocError>
    ensures { IfOk result (λ line. line ≡ number_word key.now number) }
{
    let mut line = Vec::new(alloc);
    put_number(&mut line, key, number as u64)?;
    Ok(Octets::from_vec(line))
}

// The line of a packet whose body was taken.
fn delivered_line(alloc: Global, number: u32, body: &[u8], ack: u32) -> Result<Octets, AllocError>
    ensures { IfOk result (λ line. line ≡ arrival_line number (Some body.now) ack) }
{
    let mut line = Vec::new(alloc);
    put_number(&mut line, "delivered ", number as u64)
        .and(put_octets(&mut line, " ", body))
        .and(put_number(&mut line, " ack ", ack as u64))?;
    Ok(Octets::from_vec(line))
}

/// The line of a packet of this number that came.
pub(crate) fn arrival_line(alloc: Global, number: u32, taken: &Taken) -> Result<Octets, AllocError>
    ensures { IfOk result (λ line. line ≡ arrival_line number taken.now.body taken.now.ack) }
{
    match &taken.body {
        Some(body) => delivered_line(alloc, number, body.as_slice(), taken.ack),
        None => number_line(alloc, "dropped ack ", taken.ack),
    }
}

// Appends lines, each with its line feed.
fn put_lines(out: &mut Vec<u8>, lines: &[Octets]) -> Result<(), AllocError>
    ensures { OnOk result (out.new.items ≡ out.old.items ++ flat_map ended lines.now) }
{
    for line in lines {
        out.extend_from_slice(line.as_slice())?;
        put_text(out, "\n")?;
    }
    Ok(())
}

// Appends the last line, with its line feed.
fn put_last(out: &mut Vec<u8>, report: &Report) -> Result<(), AllocError>
    ensures { OnOk result (out.new.items ≡ out.old.items ++ ended (last_line report.now)) }
{
    put_number(out, "offered ", report.offered as u64)
        .and(put_number(out, " delivered ", report.delivered as u64))
        .and(put_number(out, " acknowledged ", report.acknowledged as u64))
        .and(put_number(out, " entries ", report.entries as u64))
        .and(put_text(out, "\n"))
}

/// The whole text of a report: its lines and the last line, each with its line feed.
pub fn write_report(alloc: Global, report: &Report) -> Result<Octets, AllocError>
    ensures { IfOk result (λ text. text ≡ report_text report.now) }
{
    let mut out = Vec::new(alloc);
    put_lines(&mut out, report.lines.as_slice()).and(put_last(&mut out, report))?;
    Ok(Octets::from_vec(out))
}
