//! The two lengths at the start of a frame, and which primitives may have them.

ghost use Rattle.std.specs.Prelude.{◌≡◌, ◌≤◌, find, map, option_map};
ghost use Rattle.std.specs.List.{list_any};
ghost use Rattle.tpi_grammar.specs.Word.{meets, viable};
ghost use Rattle.tpi_grammar.specs.Frame.{table, size_range, data_range, number_range, has_part, is_part, part_range, rows_of_size, rows_of_lengths, row_of_number, may_count, may_number};
ghost use Rattle.tpi_grammar.specs.Kinds.{row_of, slot_view, slots_view};

use crate::kind::{Kind, MOST_CONTROL, Slot, kinds};
use crate::word::{Choice, Range, Within, between, meets_range};

fn is_part(slot: Slot) -> bool
    ensures { result ≡ is_part (slot_view slot) }
{
    match slot {
        Slot::Upto(_) => false,
        Slot::Part => true,
    }
}

fn any_part(slots: &[Slot]) -> bool
    ensures { result ≡ list_any (λ s. is_part (slot_view s)) slots.now }
{
    slots.iter().any(|slot| is_part(*slot))
}

pub(crate) fn has_part(slots: &[Slot]) -> bool
    ensures { result ≡ has_part (slots_view slots.now) }
{
    any_part(slots)
}

/// How long a part may be where these slots follow it: the last one has all the bytes that are left.
pub(crate) fn part_length(slots: &[Slot], left: u32) -> Within
    ensures { result ≡ record { 0 = part_range (slots_view slots.now) left } }
{
    if has_part(slots) {
        between(0, left)
    } else {
        between(left, left)
    }
}

fn size_range(kind: Kind) -> Range
    ensures { result ≡ size_range (row_of kind) }
{
    let low = kind.head();
    if has_part(kind.slots()) {
        Range {
            low,
            high: MOST_CONTROL,
        }
    } else {
        Range { low, high: low }
    }
}

fn data_range(kind: Kind) -> Range
    ensures { result ≡ data_range (row_of kind) }
{
    Range {
        low: 0,
        high: kind.most_data(),
    }
}

fn number_range(kind: Kind) -> Range
    ensures { result ≡ number_range (row_of kind) }
{
    Range {
        low: kind.number(),
        high: kind.number(),
    }
}

/// Whether the control part may have this length.
pub(crate) fn fits_size(kind: Kind, size: u32) -> bool
    ensures { result ≡ meets 1 size (size_range (row_of kind)) }
{
    meets_range(1, size, size_range(kind))
}

/// Whether the user data may have this length.
pub(crate) fn fits_count(kind: Kind, count: u32) -> bool
    ensures { result ≡ meets 1 count (data_range (row_of kind)) }
{
    meets_range(1, count, data_range(kind))
}

fn fits_number(kind: Kind, number: u32) -> bool
    ensures { result ≡ meets 1 number (number_range (row_of kind)) }
{
    meets_range(1, number, number_range(kind))
}

/// The lengths of control parts.
#[derive(Clone, Copy)]
pub(crate) struct Sizes;

impl Choice for Sizes {
    ghost use Rattle.std.specs.Prelude.{map};
    ghost use Rattle.tpi_grammar.specs.Frame.{table, size_range};

    ghost ranges = { λ _. map size_range table };

    fn is_viable(&self, unit: u64, x: u32) -> bool {
        any_size(unit, x)
    }
}

fn any_size(unit: u64, x: u32) -> bool
    requires { unit ≤ 16777216 }
    ensures { result ≡ viable (map size_range table) unit x }
{
    some_size(kinds(), unit, x)
}

fn some_size(kinds: &[Kind], unit: u64, x: u32) -> bool
    requires { unit ≤ 16777216 }
    ensures { result ≡ list_any (λ k. meets unit x (size_range (row_of k))) kinds.now }
{
    kinds
        .iter()
        .any(|kind| meets_range(unit, x, size_range(*kind)))
}

/// The lengths of user data, after a control part of this length.
#[derive(Clone, Copy)]
pub(crate) struct Counts {
    pub(crate) size: u32,
}

impl Choice for Counts {
    ghost use Rattle.std.specs.Prelude.{map};
    ghost use Rattle.tpi_grammar.specs.Frame.{table, left, size_range, data_range};

    ghost ranges = { λ s. map data_range (left size_range s.size table) };

    fn is_viable(&self, unit: u64, x: u32) -> bool {
        any_count(self.size, unit, x)
    }
}

fn any_count(size: u32, unit: u64, x: u32) -> bool
    requires { unit ≤ 16777216 }
    ensures { result ≡ viable (map data_range (rows_of_size size)) unit x }
{
    some_count(kinds(), size, unit, x)
}

fn some_count(kinds: &[Kind], size: u32, unit: u64, x: u32) -> bool
    requires { unit ≤ 16777216 }
    ensures { result ≡ list_any (λ k. may_count size unit x (row_of k)) kinds.now }
{
    kinds.iter().any(|kind| may_count(*kind, size, unit, x))
}

/// Whether the control part may have this length, and the user data one of the `unit` lengths from `x * unit` on.
pub(crate) fn may_count(kind: Kind, size: u32, unit: u64, x: u32) -> bool
    requires { unit ≤ 16777216 }
    ensures { result ≡ may_count size unit x (row_of kind) }
{
    fits_size(kind, size) && meets_range(unit, x, data_range(kind))
}

/// The values of PRIM_type, after these two lengths.
#[derive(Clone, Copy)]
pub(crate) struct PrimTypes {
    pub(crate) size: u32,
    pub(crate) count: u32,
}

impl Choice for PrimTypes {
    ghost use Rattle.std.specs.Prelude.{map};
    ghost use Rattle.tpi_grammar.specs.Frame.{table, left, size_range, data_range, number_range};

    ghost ranges = { λ s. map number_range (left data_range s.count (left size_range s.size table)) };

    fn is_viable(&self, unit: u64, x: u32) -> bool {
        any_number(self.size, self.count, unit, x)
    }
}

fn any_number(size: u32, count: u32, unit: u64, x: u32) -> bool
    requires { unit ≤ 16777216 }
    ensures { result ≡ viable (map number_range (rows_of_lengths size count)) unit x }
{
    some_number(kinds(), size, count, unit, x)
}

fn some_number(kinds: &[Kind], size: u32, count: u32, unit: u64, x: u32) -> bool
    requires { unit ≤ 16777216 }
    ensures { result ≡ list_any (λ k. may_number size count unit x (row_of k)) kinds.now }
{
    kinds
        .iter()
        .any(|kind| may_number(*kind, size, count, unit, x))
}

fn may_number(kind: Kind, size: u32, count: u32, unit: u64, x: u32) -> bool
    requires { unit ≤ 16777216 }
    ensures { result ≡ may_number size count unit x (row_of kind) }
{
    fits_size(kind, size) && fits_count(kind, count) && meets_range(unit, x, number_range(kind))
}

fn fits_all(kind: Kind, size: u32, count: u32, number: u32) -> bool
    ensures { result ≡ may_number size count 1 number (row_of kind) }
{
    fits_size(kind, size) && fits_count(kind, count) && fits_number(kind, number)
}

fn first_kind(kinds: &[Kind], size: u32, count: u32, number: u32) -> Option<Kind>
    ensures { result ≡ find (λ k. may_number size count 1 number (row_of k)) kinds.now }
{
    kinds
        .iter()
        .copied()
        .find(|kind| fits_all(*kind, size, count, number))
}

/// The primitive with this value of PRIM_type, if it may have these lengths.
pub(crate) fn kind_of(size: u32, count: u32, number: u32) -> Option<Kind>
    ensures { option_map row_of result ≡ row_of_number size count number }
{
    first_kind(kinds(), size, count, number)
}
