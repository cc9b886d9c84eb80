//! The size of the Event Information of an event.

ghost use Rattle.std.specs.Prelude.{◌≤◌, ◌+◌, length};
ghost use Rattle.ups_pdu.specs.declared.syntax.TransferSyntax.TheVariants.{Explicit};
ghost use Rattle.ups_dataset.specs.Written.{written};
ghost use Rattle.ups_life.specs.declared.entry.Entry.{Entry};
ghost use Rattle.ups_life.specs.declared.event.Event.{Event};
ghost use Rattle.ups_reports.specs.Payloads.{sent, payload};

use std::alloc::Allocator;

/// The Event Information of an event has at most 40 bytes more than what was sent with the request that caused the
/// event, in Explicit VR Little Endian. A title has at most 16 bytes (PS3.5 section 6.2, AE).
pub fn a_payload_is_little_more_than_what_was_sent<A: Allocator + Copy>()
    ensures { (x : Event) → (e : Entry A) → length e.ae ≤ 16 → length (written Explicit (payload x e)) ≤ length (written Explicit (sent e.request)) + 40 }
{}
