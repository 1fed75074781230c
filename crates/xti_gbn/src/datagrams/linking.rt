//! The run of a link over datagrams.

ghost use Rattle.std.specs.Prelude.{◌≡◌, ◌≤◌, length, All, IfOk};
ghost use Rattle.xti_gbn.specs.declared.events.TheConstants.{MOST_EVENTS};
ghost use Rattle.xti_gbn.specs.Events.{IsSmallEvent};
ghost use Rattle.xti_gbn.specs.Reports.{report_of, report_text};

use crate::datagrams::carrier::DatagramCarrier;
use crate::{Events, Report, run_link, write_report};
use std::alloc::{AllocError, Global};
use xti_base::{Octets, let_go};

// The report of a run over a carrier of its own.
fn run_over_datagrams(alloc: Global, events: &Events) -> Result<Report, AllocError>
    requires few { length events.now ≤ MOST_EVENTS }
    requires small { All IsSmallEvent events.now }
    ensures { IfOk result (λ report. report ≡ report_of events.now) }
{
    let mut carrier = DatagramCarrier::new(alloc)?;
    let report = run_link(alloc, events, &mut carrier);
    let_go(carrier);
    report
}

/// Runs both ends of a link over datagrams, and writes the report. At most 10,000 events, each body of at most 512 bytes.
pub fn show_link(alloc: Global, events: &Events) -> Result<Octets, AllocError>
    requires few { length events.now ≤ MOST_EVENTS }
    requires small { All IsSmallEvent events.now }
    ensures { IfOk result (λ text. text ≡ report_text (report_of events.now)) }
{
    let report = run_over_datagrams(alloc, events)?;
    let text = write_report(alloc, &report);
    let_go(report);
    text
}
