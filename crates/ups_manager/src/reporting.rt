//! The reports of a watcher's events.

ghost use Rattle.std.specs.Prelude.{◌≡◌, true, map, All, IfOk};
ghost use Rattle.ups_history.specs.View.{is_in_memory};
ghost use Rattle.ups_life.specs.declared.event.Event.{Event};
ghost use Rattle.ups_service.specs.Reporting.{information_of, report_of_event};

use std::alloc::{AllocError, Allocator};
use ups_dataset::DataSet;
use ups_history::History;
use ups_life::{Entry, Event, EventReport, EventReports};
use ups_reports::payload;

/// Returns the Event Information of an event, by the entry that made it, which is in memory; it is empty if there is no such entry.
///
/// Errors: if memory runs out.
fn information_of<A: Allocator + Copy>(
    alloc: A,
    history: &History<A>,
    event: &Event,
) -> Result<DataSet<A>, AllocError>
    requires { is_in_memory history.now event.now.entry ≡ true }
    ensures { IfOk result (λ set. set ≡ information_of history.now.entries event.now) }
{
    match history.get(event.entry) {
        Some(entry) => payload(alloc, event, entry),
        None => Ok(DataSet::new(alloc)),
    }
}

/// Returns the reports of events, in their order, by the history that made them. Their entries are in memory.
///
/// Errors: if memory runs out.
pub(crate) fn reports_of<A: Allocator + Copy>(
    alloc: A,
    history: &History<A>,
    events: &[Event],
) -> Result<EventReports<A>, AllocError>
    requires { All (λ (x : Event). is_in_memory history.now x.entry ≡ true) events.now }
    ensures { IfOk result (λ r. r ≡ map (report_of_event history.now.entries) events.now) }
{
    let mut reports = EventReports::new(alloc);
    for event in events {
        let information = information_of(alloc, history, event)?;
        reports.push(EventReport {
            event: *event,
            information,
        })?;
    }
    Ok(reports)
}
