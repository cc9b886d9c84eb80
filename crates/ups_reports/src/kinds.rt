//! The Event Type IDs.

ghost use Rattle.std.specs.Prelude.{◌≡◌};
ghost use Rattle.ups_reports.specs.Payloads.{type_id};

use ups_life::EventKind;

/// Returns the Event Type ID of an N-EVENT-REPORT of this kind (PS3.4 table CC.2.4-1).
pub fn type_id(kind: EventKind) -> u16
    ensures { result ≡ type_id kind }
{
    match kind {
        EventKind::StateReport => 1,
        EventKind::CancelRequested => 2,
        EventKind::ProgressReport => 3,
        EventKind::Assigned => 5,
    }
}
