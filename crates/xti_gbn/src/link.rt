//! The run of both ends.

ghost use Rattle.std.specs.Prelude.{◌≡◌, ◌≤◌, ◌+◌, ℕ, List, length, All, IfOk, OnOk, OnErr};
ghost use Rattle.xti_gbn.specs.declared.events.LinkEvent.{LinkEvent};
ghost use Rattle.xti_gbn.specs.declared.events.TheConstants.{MOST_EVENTS};
ghost use Rattle.xti_gbn.specs.Carrying.{IsLeft};
ghost use Rattle.xti_gbn.specs.Events.{IsSmallEvent};
ghost use Rattle.xti_gbn.specs.Sending.{window};
ghost use Rattle.xti_gbn.specs.Reports.{report_of};
ghost use Rattle.xti_gbn.specs.Laws.{AfterAnyEvents, IsPrefix, RoundDelivers, RoundsDeliver};

use crate::carrier::Carrier;
use crate::ends::Ends;
use crate::events::Events;
use crate::report::Report;
use std::alloc::{AllocError, Global};
use xti_base::Parts;

/// Runs both ends of a link: the report is that of the link's definition over these events, whatever carries between the ends.
/// At most 10,000 events, each body of at most 512 bytes. After an error the carrier is ready still, or bytes wait in it.
pub fn run_link<C: Carrier>(
    alloc: Global,
    events: &Events,
    carrier: &mut C,
) -> Result<Report, AllocError>
    requires few { length events.now ≤ MOST_EVENTS }
    requires small { All IsSmallEvent events.now }
    requires ready { C.is_ready carrier.old }
    ensures report { IfOk result (λ report. report ≡ report_of events.now) }
    ensures stays_ready { OnOk result (C.is_ready carrier.new) }
    ensures left { OnErr result (IsLeft C.is_ready C.holds carrier.new) }
{
    let mut ends = Ends::new(alloc);
    let mut lines = Parts::new(alloc);
    for event in events.as_slice() {
        let line = ends.step(alloc, event, carrier)?;
        lines.push(line)?;
    }
    Ok(ends.report(lines))
}

/// What is delivered is a prefix of what was offered, whatever befalls the link.
///
/// `acknowledged`, `window`: the sender knows no more to be delivered than is, and at most 8 bodies less than it took.
pub fn links_keep_order()
    ensures prefix { AfterAnyEvents (λ w. IsPrefix w.delivered w.offered) }
    ensures delivered { AfterAnyEvents (λ w. length w.delivered ≤ length w.offered) }
    ensures acknowledged { AfterAnyEvents (λ w. w.acknowledged ≤ length w.delivered) }
    ensures window { AfterAnyEvents (λ w. length w.offered ≤ w.acknowledged + window) }
{}

/// After whatever befell the link, a round without loss delivers and acknowledges all that was offered.
///
/// `rounds`: so do as many rounds as there are bodies that aren't acknowledged, and any more.
pub fn rounds_deliver_all()
    ensures one { (events : List LinkEvent) → RoundDelivers events }
    ensures rounds { (events : List LinkEvent) (count : ℕ) → RoundsDeliver events count }
{}
