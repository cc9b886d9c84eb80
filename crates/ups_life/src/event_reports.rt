//! Event reports and lists of them.

ghost use Rattle.std.specs.Prelude.{◌≡◌, [], ◌∷◌, ◌++◌, OnOk, OnErr};

use crate::event::Event;
use std::alloc::{AllocError, Allocator};
use std::marker::Model;
use ups_dataset::DataSet;

/// An event, with the Event Information of its N-EVENT-REPORT (PS3.4 table CC.2.4-1).
#[derive(Drop)]
pub struct EventReport<A: Allocator + Copy> {
    /// The event.
    pub event: Event,
    /// The Event Information.
    pub information: DataSet<A>,
}

/// A list of event reports. A contract sees it as the list of the reports.
#[derive(Drop)]
pub struct EventReports<A: Allocator + Copy> {
    reports: Vec<EventReport<A>, A>,
}

impl<A: Allocator + Copy> Model for EventReports<A> {
    ghost use Rattle.std.specs.Prelude.{List};
    ghost use Rattle.std.specs.Coded.{codes};
    ghost use Rattle.ups_dataset.specs.Code.{set_code};
    ghost use Rattle.ups_life.specs.declared.event_reports.EventReport.{EventReport};

    ghost Value = { List (EventReport A) };

    ghost coded = { Prim.hlevel (set_code, codes) };

    ghost view = { λ r. r.reports.items };
}

impl<A: Allocator + Copy> EventReports<A> {
    /// Creates an empty list, which takes no memory.
    pub fn new(alloc: A) -> EventReports<A>
        ensures { result ≡ [] }
    {
        EventReports {
            reports: Vec::new(alloc),
        }
    }

    /// Appends a report to the list.
    ///
    /// # Errors
    ///
    /// Returns an error if memory runs out. The list is then unchanged.
    pub fn push(&mut self, report: EventReport<A>) -> Result<(), AllocError>
        ensures ok { OnOk result (self.new ≡ self.old ++ report ∷ []) }
        ensures err { OnErr result (self.new ≡ self.old) }
    {
        self.reports.push(report)?;
        Ok(())
    }

    /// Returns the reports as a slice.
    pub fn as_slice(&self) -> &[EventReport<A>]
        ensures { result.now ≡ self.now }
    {
        self.reports.as_slice()
    }
}
