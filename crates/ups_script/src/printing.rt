//! Writing replies as lines: a status, and the results.

ghost use Rattle.std.specs.Prelude.{◌≡◌, ◌∷◌, [], ◌++◌, true, map, OnOk};
ghost use Rattle.std.specs.Fmt.{decimal};
ghost use Rattle.std.specs.Io.KnownBytes.{Appends, Keeps};
ghost use Rattle.std.specs.List.{flat_map};
ghost use Rattle.std.specs.Option.{option_copied};
ghost use Rattle.ups_dataset.specs.View.{value_view, element_view};
ghost use Rattle.ups_reports.specs.Payloads.{type_id};
ghost use Rattle.ups_life.specs.Readiness.{readiness_word};
ghost use Rattle.ups_cycle.specs.Statuses.{code};
ghost use Rattle.ups_lines.specs.Printing.{hex_word, printed, words, spaced};
ghost use Rattle.ups_lines.specs.Ways.{way_text};
ghost use Rattle.ups_script.specs.Printing.{bracketed, title_word, subscription_text, watched_word, event_word, report_word, reply_words, reply_head, reply_line, line_of};

use crate::reading::is_interrupted;
use crate::telling::Told;
use std::alloc::Allocator;
use std::io::{self, Error, ErrorKind, Write};
use ups_cycle::Status;
use ups_dataset::DataSet;
use ups_life::{Event, EventReport, InputReadiness, Reply, StepUid, Subscription, Watched};
use ups_lines::{Way, put_hex, put_set, put_text};
use ups_pdu::Ae;
use ups_reports::type_id;

/// Flushes a writer. Tries again if a signal interrupts the call.
fn flush<W: Write>(writer: &mut W) -> io::Result<()>
    ensures { OnOk result (Keeps (W.contents writer.old) (W.contents writer.new)) }
{
    for _ in 0..u64::MAX {
        match writer.flush() {
            Ok(()) => return Ok(()),
            Err(error) if is_interrupted(&error) => {}
            Err(error) => return Err(error),
        }
    }
    Err(Error::from(ErrorKind::Interrupted))
}

/// Ends a line, and flushes it.
pub(crate) fn end<W: Write>(writer: &mut W) -> io::Result<()>
    ensures { OnOk result (Appends (W.contents writer.old) (W.contents writer.new) (10 ∷ [])) }
{
    writer.write_all(b"\n")?;
    flush(writer)
}

/// Writes the attributes of one of several sets, in brackets.
fn put_bracketed<A: Allocator + Copy, W: Write>(writer: &mut W, set: &DataSet<A>) -> io::Result<()>
    ensures { OnOk result (Appends (W.contents writer.old) (W.contents writer.new) (32 ∷ bracketed set.now)) }
{
    writer.write_all(b" [")?;
    put_set(set, &Way::Here, &mut false, writer)?;
    writer.write_all(b"]")
}

/// Writes the sets that were found.
fn put_sets<A: Allocator + Copy, W: Write>(writer: &mut W, sets: &[DataSet<A>]) -> io::Result<()>
    ensures { OnOk result (Appends (W.contents writer.old) (W.contents writer.new) (spaced true (map bracketed sets.now))) }
{
    for set in sets {
        put_bracketed(writer, set)?;
    }
    Ok(())
}

/// Writes the UIDs of steps.
fn put_steps<W: Write>(writer: &mut W, steps: &[StepUid]) -> io::Result<()>
    ensures { OnOk result (Appends (W.contents writer.old) (W.contents writer.new) (spaced true (map printed steps.now))) }
{
    for step in steps {
        writer.write_all(b" ")?;
        put_text(writer, step.as_bytes())?;
    }
    Ok(())
}

/// Returns the text of a subscription.
fn subscription_text(subscription: Subscription) -> &'static [u8]
    ensures { result.now ≡ subscription_text subscription }
{
    match subscription {
        Subscription::Free => b"free",
        Subscription::Locked => b"locked",
    }
}

/// Writes a step that a watcher is subscribed to, after a space.
fn put_watched<W: Write>(writer: &mut W, watched: &Watched) -> io::Result<()>
    ensures { OnOk result (Appends (W.contents writer.old) (W.contents writer.new) (32 ∷ watched_word watched.now)) }
{
    writer.write_all(b" ")?;
    put_text(writer, watched.step.as_bytes())?;
    writer.write_all(b":")?;
    writer.write_all(subscription_text(watched.subscription))
}

/// Writes the steps that a watcher is subscribed to.
fn put_watches<W: Write>(writer: &mut W, watches: &[Watched]) -> io::Result<()>
    ensures { OnOk result (Appends (W.contents writer.old) (W.contents writer.new) (spaced true (map watched_word watches.now))) }
{
    for watched in watches {
        put_watched(writer, watched)?;
    }
    Ok(())
}

/// Writes a value after a colon.
fn put_part<W: Write>(writer: &mut W, value: &[u8]) -> io::Result<()>
    ensures { OnOk result (Appends (W.contents writer.old) (W.contents writer.new) (58 ∷ printed value.now)) }
{
    writer.write_all(b":")?;
    put_text(writer, value)
}

/// Returns the text of a step's readiness, or an empty one if its attributes have none.
fn readiness_text(readiness: Option<InputReadiness>) -> &'static [u8]
    ensures { result.now ≡ readiness_word readiness }
{
    match readiness {
        Some(readiness) => readiness.text(),
        None => b"",
    }
}

/// Writes the number and the type of an event, after a space.
fn put_event_number<W: Write>(writer: &mut W, event: &Event) -> io::Result<()>
    ensures { OnOk result (Appends (W.contents writer.old) (W.contents writer.new) (32 ∷ (decimal event.now.number ++ (58 ∷ decimal (type_id event.now.kind))))) }
{
    let number = event.number;
    let kind = type_id(event.kind);
    write!(writer, " {number}:{kind}")
}

/// Writes an event, after a space.
fn put_event<W: Write>(writer: &mut W, event: &Event) -> io::Result<()>
    ensures { OnOk result (Appends (W.contents writer.old) (W.contents writer.new) (32 ∷ event_word event.now)) }
{
    put_event_number(writer, event)?;
    put_part(writer, event.step.as_bytes())?;
    put_part(writer, event.state.text())?;
    put_part(writer, readiness_text(event.readiness))
}

/// Writes the events of reports.
fn put_reports<A: Allocator + Copy, W: Write>(
    writer: &mut W,
    reports: &[EventReport<A>],
) -> io::Result<()>
    ensures { OnOk result (Appends (W.contents writer.old) (W.contents writer.new) (spaced true (map report_word reports.now))) }
{
    for report in reports {
        put_event(writer, &report.event)?;
    }
    Ok(())
}

/// Writes who holds a step: a title, or `-` if nobody does.
fn put_holder<W: Write>(writer: &mut W, holder: Option<Ae>) -> io::Result<()>
    ensures { OnOk result (Appends (W.contents writer.old) (W.contents writer.new) (32 ∷ title_word holder)) }
{
    writer.write_all(b" ")?;
    match holder {
        Some(ae) => put_text(writer, ae.as_bytes()),
        None => writer.write_all(b"-"),
    }
}

/// Writes how many steps a sweep removed.
fn put_count<W: Write>(writer: &mut W, count: u64) -> io::Result<()>
    ensures { OnOk result (Appends (W.contents writer.old) (W.contents writer.new) (32 ∷ decimal count)) }
{
    write!(writer, " {count}")
}

/// Writes the reply to a message, without the end of its line.
fn put_reply<A: Allocator + Copy, W: Write>(writer: &mut W, reply: &Reply<A>) -> io::Result<()>
    ensures { OnOk result (Appends (W.contents writer.old) (W.contents writer.new) (reply_head reply.now ++ spaced true (reply_words reply.now))) }
{
    match reply {
        Reply::Status(status) => put_hex(writer, status.code()),
        Reply::Set(status, set) => {
            put_hex(writer, status.code())?;
            put_set(set, &Way::Here, &mut true, writer)
        }
        Reply::Sets(sets) => {
            put_hex(writer, Status::Success.code())?;
            put_sets(writer, sets.as_slice())
        }
        Reply::Swept(count) => {
            put_hex(writer, Status::Success.code())?;
            put_count(writer, *count)
        }
        Reply::AckAhead => writer.write_all(b"AckAhead"),
        Reply::AckStale => writer.write_all(b"AckStale"),
        Reply::Reports(reports) => {
            put_hex(writer, Status::Success.code())?;
            put_reports(writer, reports.as_slice())
        }
    }
}

/// Writes an answer as a line, and flushes it.
pub(crate) fn put_told<A: Allocator + Copy, W: Write>(
    writer: &mut W,
    told: &Told<A>,
) -> io::Result<()>
    ensures { OnOk result (Appends (W.contents writer.old) (W.contents writer.new) (line_of told.now)) }
{
    match told {
        Told::Replied(reply) => put_reply(writer, reply)?,
        Told::Steps(steps) => {
            put_hex(writer, Status::Success.code())?;
            put_steps(writer, steps.as_slice())?;
        }
        Told::Watched(watches) => {
            put_hex(writer, Status::Success.code())?;
            put_watches(writer, watches.as_slice())?;
        }
        Told::Holder(holder) => {
            put_hex(writer, Status::Success.code())?;
            put_holder(writer, *holder)?;
        }
    }
    end(writer)
}
