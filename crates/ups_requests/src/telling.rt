//! Lines that tell accepted requests.

ghost use Rattle.std.specs.Prelude.{◌≡◌, ℕ, false, Result, Ok, IfOk, OnOk};
ghost use Rattle.std.specs.List.{list_any};
ghost use Rattle.ups_cycle.specs.declared.status.Status.{Status};
ghost use Rattle.ups_life.specs.declared.entry.Entry.{Entry};
ghost use Rattle.ups_life.specs.declared.request.Ask.{Ask};
ghost use Rattle.ups_life.specs.declared.request.Ask.TheVariants.{Do};
ghost use Rattle.ups_journal.specs.Columns.{recorded};
ghost use Rattle.ups_lines.specs.Words.{words_of};
ghost use Rattle.ups_requests.specs.Asking.{Asks};
ghost use Rattle.ups_requests.specs.Questions.{AsksAt, IsExactLine};
ghost use Rattle.ups_requests.specs.Told.{AsksFor, TellsEntry, is_feed};

use crate::asking::{Asked, Question, asked_by};
use crate::comparing::is_same;
use crate::exact::Grammar;
use crate::fault::Untold;
use crate::meaning::{Unasked, ask_of};
use crate::writing::written;
use std::alloc::Allocator;
use ups_dataset::laws::bytes_spell_one_set;
use ups_dimse::Operation;
use ups_journal::{Record, record_of};
use ups_life::{Ask, Entry, Request};
use ups_lines::{what_is_printed_is_read_again, words_encode_one_data_set};

/// Returns what a message asks.
///
/// Errors: Unsayable if it is refused; lack of memory.
fn meaning_of<A: Allocator + Copy>(
    alloc: A,
    operation: &Operation<A>,
    data_set: &[u8],
    offset: i16,
) -> Result<Ask<A>, Untold>
    ensures { IfOk result (λ ask. Asks offset operation.now data_set.now (Ok ask)) }
{
    match ask_of(alloc, operation, data_set, offset) {
        Ok(ask) => Ok(ask),
        Err(Unasked::Memory) => Err(Untold::Memory),
        Err(Unasked::Refused(_)) => Err(Untold::Unsayable),
    }
}

/// Returns the request that a message asks for.
///
/// Errors: Unsayable if it asks for none; lack of memory.
fn requested<A: Allocator + Copy>(
    alloc: A,
    operation: &Operation<A>,
    data_set: &[u8],
    offset: i16,
) -> Result<Request<A>, Untold>
    ensures { IfOk result (λ request. (meaning : Result (Ask A) Status) → Asks offset operation.now data_set.now meaning → meaning ≡ Ok (Do request)) }
{
    bytes_spell_one_set();
    let ask = meaning_of(alloc, operation, data_set, offset)?;
    match ask {
        Ask::Do(request) => Ok(request),
        _ => Err(Untold::Unsayable),
    }
}

/// Returns the request that a question asks for.
///
/// Errors: Unsayable if it asks for none; lack of memory.
fn request_of<A: Allocator + Copy>(
    alloc: A,
    question: &Question<A>,
    offset: i16,
) -> Result<Request<A>, Untold>
    ensures { IfOk result (AsksFor offset question.now) }
{
    match question {
        Question::Message(operation, data_set) => {
            requested(alloc, operation, data_set.as_slice(), offset)
        }
        Question::Acknowledge(upto) => Ok(Request::Ack { upto: *upto }),
        Question::Sweep => Ok(Request::Sweep),
        Question::Reserve(step) => Ok(Request::Reserve { step: *step }),
        _ => Err(Untold::Unsayable),
    }
}

/// Returns what an exact line asks.
///
/// Errors: Unsayable if the line is not exact; lack of memory.
fn exactly_asked<A: Allocator + Copy>(alloc: A, line: &[u8]) -> Result<Asked<A>, Untold>
    ensures asks { IfOk result (λ asked. AsksAt (words_of line.now) asked.moment asked.ae asked.question) }
    ensures exact { OnOk result (IsExactLine (words_of line.now)) }
{
    let asked = asked_by(alloc, line, Grammar::History)?;
    if asked.is_exact {
        Ok(asked)
    } else {
        Err(Untold::Unsayable)
    }
}

/// Returns the entry that an exact line tells, with this number of its caller, which no line tells. `offset` is the
/// offset of the local time from UTC in minutes, for keys of DT without one.
///
/// # Errors
///
/// Unsayable if the line is not exact, or asks for no request; lack of memory.
pub fn entry_in<A: Allocator + Copy>(
    alloc: A,
    line: &[u8],
    caller: u32,
    offset: i16,
) -> Result<Entry<A>, Untold>
    ensures tells { IfOk result (TellsEntry offset line.now) }
    ensures caller { IfOk result (λ e. e.caller ≡ caller) }
{
    what_is_printed_is_read_again();
    words_encode_one_data_set();
    let asked = exactly_asked(alloc, line)?;
    let request = request_of(alloc, &asked.question, offset)?;
    Ok(Entry {
        caller,
        ae: asked.ae,
        moment: asked.moment,
        request,
    })
}

/// Returns whether a text has a line feed.
fn has_feed(text: &[u8]) -> bool
    ensures { result ≡ list_any is_feed text.now }
{
    text.contains(&b'\n')
}

/// Checks that a line tells the entry that has this record.
///
/// Errors: Unsayable; lack of memory.
fn check_told<A: Allocator + Copy>(
    alloc: A,
    line: &[u8],
    stored: &Record<A>,
    offset: i16,
) -> Result<(), Untold>
    ensures { OnOk result ((e : Entry A) × (recorded e ≡ stored.now) × TellsEntry offset line.now e) }
{
    let entry = entry_in(alloc, line, stored.caller, offset)?;
    let again = record_of(alloc, &entry)?;
    if is_same(&again, stored) {
        Ok(())
    } else {
        Err(Untold::Unsayable)
    }
}

/// Returns the line of an accepted request, without a line feed: whoever reads it is asked for this request, by its
/// application entity, at its moment. `offset` is that with which the line will be read.
///
/// # Errors
///
/// Unsayable if no line tells the request; lack of memory.
pub fn line_of<A: Allocator + Copy>(
    alloc: A,
    stored: &Record<A>,
    offset: i16,
) -> Result<Vec<u8, A>, Untold>
    ensures tells { IfOk result (λ line. (e : Entry A) × (recorded e ≡ stored.now) × TellsEntry offset line.items e) }
    ensures one { IfOk result (λ line. list_any is_feed line.items ≡ false) }
{
    let line = written(alloc, stored)?;
    if has_feed(line.as_slice()) {
        return Err(Untold::Unsayable);
    }
    check_told(alloc, line.as_slice(), stored, offset)?;
    Ok(line)
}
