//! Running a script.

ghost use Rattle.std.specs.Prelude.{◌≡◌, ◌≤◌, ◌⊎◌, length, [], List, None, Err, OnOk, IfOk, IfErr};
ghost use Rattle.std.specs.Io.KnownBytes.{Appends};
ghost use Rattle.ups_life.specs.declared.entry.Entry.{Entry};
ghost use Rattle.ups_life.specs.Limits.{history_limit, peer_limit};
ghost use Rattle.ups_lines.specs.Words.{words_of};
ghost use Rattle.ups_settings.specs.Refusal.{refusal};
ghost use Rattle.ups_script.specs.declared.fault.ScriptFault.TheVariants.{Memory};
ghost use Rattle.ups_script.specs.declared.telling.Told.{Told};
ghost use Rattle.ups_script.specs.Limits.{max_lines};
ghost use Rattle.ups_script.specs.Printing.{bad_text, line_of};
ghost use Rattle.ups_requests.specs.Questions.{AsksAt, IsBad, OnBad};
ghost use Rattle.ups_script.specs.Running.{TellsLine, AnswersLine, Leaves, Breaks, Runs};
ghost use Rattle.ups_script.specs.Telling.{TellsAsked};

use crate::fault::{BadLine, ScriptFault};
use crate::limits::MAX_LINES;
use crate::printing::{end, put_told};
use crate::reading::{is_at_end, next_line};
use crate::telling::tell;
use std::alloc::Allocator;
use std::io::{self, BufRead, Write};
use ups_life::{MAX_HISTORY, Peer};
use ups_lines::LineFault;
use ups_manager::Manager;
use ups_requests::{Asked, Grammar, asked_by};

/// Writes that the line with this number is invalid.
fn put_bad_line<W: Write>(writer: &mut W, number: u64) -> io::Result<()>
    ensures { OnOk result (Appends (W.contents writer.old) (W.contents writer.new) (bad_text number)) }
{
    write!(writer, "bad line {number}")?;
    end(writer)
}

/// Makes a request to a manager, and writes the answer.
///
/// Errors: Write; Memory, and then nothing was done.
fn put_answer<A: Allocator + Copy, W: Write>(
    alloc: A,
    manager: &mut Manager<A>,
    writer: &mut W,
    asked: &Asked<A>,
) -> Result<(), ScriptFault>
    ensures told { OnOk result ((told : Told A) × TellsAsked manager.old.settings manager.old.history asked.now told manager.new.history × Appends (W.contents writer.old) (W.contents writer.new) (line_of told)) }
    ensures fault { IfErr result (λ fault. Leaves manager.old.settings manager.old.history asked.now (W.contents writer.old) (W.contents writer.new) fault manager.new.history) }
    ensures settings { manager.new.settings ≡ manager.old.settings }
{
    let told = tell(alloc, manager, asked)?;
    match put_told(writer, &told) {
        Ok(()) => Ok(()),
        Err(_) => Err(ScriptFault::Write),
    }
}

/// Returns the request that a line makes, and drops the line.
fn asked_of<A: Allocator + Copy>(
    alloc: A,
    line: Vec<u8, A>,
    grammar: Grammar,
) -> Result<Asked<A>, LineFault>
    ensures asks { IfOk result (λ asked. AsksAt (words_of line.items) asked.moment asked.ae asked.question) }
    ensures bad { IfErr result (λ fault. OnBad fault (IsBad line.items)) }
{
    asked_by(alloc, &line, grammar)
}

/// Writes the reply to the line with this number.
///
/// Errors: BadLine, after writing it among the replies; Write; Memory.
fn answer<A: Allocator + Copy, W: Write>(
    alloc: A,
    manager: &mut Manager<A>,
    writer: &mut W,
    number: u64,
    line: Vec<u8, A>,
    grammar: Grammar,
) -> Result<(), ScriptFault>
    ensures told { OnOk result ((told : Told A) × AnswersLine manager.old.settings manager.old.history line.items told manager.new.history × Appends (W.contents writer.old) (W.contents writer.new) (line_of told)) }
    ensures fault { IfErr result (λ fault. Breaks manager.old.settings manager.old.history line.items number (W.contents writer.old) (W.contents writer.new) fault manager.new.history) }
    ensures settings { manager.new.settings ≡ manager.old.settings }
{
    let ends_in_return = line.last() == Some(&b'\r');
    match asked_of(alloc, line, grammar) {
        Ok(asked) => put_answer(alloc, manager, writer, &asked),
        Err(LineFault::Memory) => Err(ScriptFault::Memory),
        Err(LineFault::Malformed(reason)) => {
            if put_bad_line(writer, number).is_err() {
                return Err(ScriptFault::Write);
            }
            Err(ScriptFault::BadLine(BadLine {
                number,
                reason,
                ends_in_return,
            }))
        }
    }
}

/// Answers at most `limit` lines of a script with this grammar.
///
/// Errors: those of `run_of`; TooManyLines if there are more than `limit`.
fn answer_each<A: Allocator + Copy, R: BufRead, W: Write>(
    alloc: A,
    manager: &mut Manager<A>,
    reader: &mut R,
    writer: &mut W,
    limit: u64,
    grammar: Grammar,
) -> Result<(), ScriptFault>
    requires { limit ≤ max_lines }
    ensures line { IfErr result TellsLine }
    ensures runs { Runs manager.old.settings limit (R.remaining reader.old) (R.remaining reader.new) (W.contents writer.old) (W.contents writer.new) manager.old.history manager.new.history result }
{
    for count in 0..limit {
        if is_at_end(reader)? {
            return Ok(());
        }
        let line = next_line(alloc, reader)?;
        answer(alloc, manager, writer, count + 1, line, grammar)?;
    }
    if is_at_end(reader)? {
        Ok(())
    } else {
        Err(ScriptFault::TooManyLines)
    }
}

/// Answers at most `limit` lines of a script with a manager.
///
/// # Errors
///
/// Those of [`run`]; TooManyLines if there are more than `limit`.
pub fn answer_lines<A: Allocator + Copy, R: BufRead, W: Write>(
    alloc: A,
    manager: &mut Manager<A>,
    reader: &mut R,
    writer: &mut W,
    limit: u64,
) -> Result<(), ScriptFault>
    requires { limit ≤ max_lines }
    ensures line { IfErr result TellsLine }
    ensures runs { Runs manager.old.settings limit (R.remaining reader.old) (R.remaining reader.new) (W.contents writer.old) (W.contents writer.new) manager.old.history manager.new.history result }
{
    answer_each(alloc, manager, reader, writer, limit, Grammar::Script)
}

/// Runs a script with this grammar on a manager without history.
///
/// Errors: those of `run`.
fn run_of<A: Allocator + Copy, R: BufRead, W: Write>(
    alloc: A,
    reader: &mut R,
    writer: &mut W,
    peers: &[Peer],
    keep: u32,
    offset: i16,
    grammar: Grammar,
) -> Result<(), ScriptFault>
    requires few { length peers.now ≤ peer_limit }
    requires allowed { refusal peers.now offset history_limit ≡ None }
    ensures line { IfErr result TellsLine }
    ensures runs { (result ≡ Err Memory) ⊎ ((after : List (Entry A)) × Runs (record { peers = peers.now; keep = keep; offset = offset; limit = history_limit }) max_lines (R.remaining reader.old) (R.remaining reader.new) (W.contents writer.old) (W.contents writer.new) [] after result) }
{
    let Ok(mut manager) = Manager::new(alloc, peers, keep, offset, MAX_HISTORY) else {
        return Err(ScriptFault::Memory);
    };
    answer_each(alloc, &mut manager, reader, writer, MAX_LINES, grammar)
}

/// Runs a script on a manager without history: reads line by line, and writes and flushes a line for each reply before
/// it reads the next. `peers` may watch steps; a finished step is kept for at least `keep` seconds; `offset` is the
/// offset of the local time from UTC in minutes, positive east of it.
///
/// # Errors
///
/// BadLine at the first invalid line, which is written among the replies too; TooManyLines if there are more than
/// 1,000,000; Read if a read failed; Write if a write failed; Memory if memory ran out. What was accepted before is
/// answered as far as it was written.
pub fn run<A: Allocator + Copy, R: BufRead, W: Write>(
    alloc: A,
    reader: &mut R,
    writer: &mut W,
    peers: &[Peer],
    keep: u32,
    offset: i16,
) -> Result<(), ScriptFault>
    requires few { length peers.now ≤ peer_limit }
    requires allowed { refusal peers.now offset history_limit ≡ None }
    ensures line { IfErr result TellsLine }
    ensures runs { (result ≡ Err Memory) ⊎ ((after : List (Entry A)) × Runs (record { peers = peers.now; keep = keep; offset = offset; limit = history_limit }) max_lines (R.remaining reader.old) (R.remaining reader.new) (W.contents writer.old) (W.contents writer.new) [] after result) }
{
    run_of(alloc, reader, writer, peers, keep, offset, Grammar::Script)
}

/// Runs a script that may have the lines of a history too: attributes that begin with a colon, and the reservation of a
/// UID. Otherwise as [`run`].
///
/// # Errors
///
/// Those of [`run`].
pub fn run_history<A: Allocator + Copy, R: BufRead, W: Write>(
    alloc: A,
    reader: &mut R,
    writer: &mut W,
    peers: &[Peer],
    keep: u32,
    offset: i16,
) -> Result<(), ScriptFault>
    requires few { length peers.now ≤ peer_limit }
    requires allowed { refusal peers.now offset history_limit ≡ None }
    ensures line { IfErr result TellsLine }
    ensures runs { (result ≡ Err Memory) ⊎ ((after : List (Entry A)) × Runs (record { peers = peers.now; keep = keep; offset = offset; limit = history_limit }) max_lines (R.remaining reader.old) (R.remaining reader.new) (W.contents writer.old) (W.contents writer.new) [] after result) }
{
    run_of(alloc, reader, writer, peers, keep, offset, Grammar::History)
}
