//! Reading the lines of a script.

ghost use Rattle.std.specs.Prelude.{◌≡◌, ◌≢◌, ◌≤◌, ◌<◌, ℕ, List, Some, Ok, true, false, All, length, take, IfOk, IfErr, OnErr, OnSome};
ghost use Rattle.std.specs.Io.KnownBytes.{Keeps, Consumes, IsAtEnd};
ghost use Rattle.ups_script.specs.Lines.{HasMore, IsLinePart, Lengthens, TakesLine};
ghost use Rattle.ups_script.specs.Running.{IsReading};

use crate::fault::ScriptFault;
use std::alloc::Allocator;
use std::io::{BufRead, Error, ErrorKind};
use ups_requests::MAX_LINE;

/// Returns whether a signal interrupted the failed call, so that it is tried again.
pub(crate) fn is_interrupted(error: &Error) -> bool {
    error.kind() == ErrorKind::Interrupted
}

/// Returns whether the reader has nothing left, or None if a signal interrupted it.
///
/// Errors: Read.
fn gives_nothing<R: BufRead>(reader: &mut R) -> Result<Option<bool>, ScriptFault>
    ensures kept { Keeps (R.remaining reader.old) (R.remaining reader.new) }
    ensures end { result ≡ Ok (Some true) → OnSome (R.remaining reader.old) (IsAtEnd (R.remaining reader.new)) }
    ensures more { result ≡ Ok (Some false) → HasMore (R.remaining reader.old) }
    ensures fault { IfErr result IsReading }
{
    match reader.fill_buf() {
        Ok(bytes) => Ok(Some(bytes.is_empty())),
        Err(error) => {
            if is_interrupted(&error) {
                Ok(None)
            } else {
                Err(ScriptFault::Read)
            }
        }
    }
}

/// Returns whether the input is at its end. Tries again if a signal interrupts the read.
///
/// Errors: Read.
pub(crate) fn is_at_end<R: BufRead>(reader: &mut R) -> Result<bool, ScriptFault>
    ensures kept { Keeps (R.remaining reader.old) (R.remaining reader.new) }
    ensures end { result ≡ Ok true → OnSome (R.remaining reader.old) (IsAtEnd (R.remaining reader.new)) }
    ensures more { result ≡ Ok false → HasMore (R.remaining reader.old) }
    ensures fault { IfErr result IsReading }
{
    for _ in 0..u64::MAX {
        if let Some(is_at_end) = gives_nothing(reader)? {
            return Ok(is_at_end);
        }
    }
    Err(ScriptFault::Read)
}

/// Returns how many bytes come before the first line feed, or at most `most`.
fn before_feed(bytes: &[u8], most: usize) -> usize
    ensures within { result ≤ length bytes.now }
    ensures none { All (λ b. b ≢ 10) (take result bytes.now) }
{
    let end = most.min(bytes.len());
    let mut count = 0;
    while count < end {
        if bytes[count] == b'\n' {
            return count;
        }
        count += 1;
    }
    count
}

/// The continuation of a line in the bytes that a reader shows.
#[derive(Clone, Copy)]
struct Part {
    /// How many of the bytes belong to the line.
    count: usize,
    /// How many bytes to consume: those, and the line feed after them.
    taken: usize,
    /// Whether this completes the line.
    is_whole: bool,
}

/// Returns how a line of `before` bytes continues in the bytes that a reader shows. The line is complete if its line
/// feed is among them, if there are none, or if it is too long: then it has one byte more than a line may have.
fn part_in(shown: &[u8], before: usize) -> Part
    ensures within { (result.count ≤ length shown.now) × (result.taken ≤ length shown.now) }
    ensures none { All (λ b. b ≢ 10) (take result.count shown.now) }
    ensures ends { IsLinePart shown.now before result.count result.taken result.is_whole }
{
    let count = before_feed(shown, (MAX_LINE + 1).saturating_sub(before));
    if count < shown.len() && shown[count] == b'\n' {
        return Part {
            count,
            taken: count + 1,
            is_whole: true,
        };
    }
    let is_too_long = before.saturating_add(count) > MAX_LINE;
    Part {
        count,
        taken: count,
        is_whole: shown.is_empty() || is_too_long,
    }
}

/// Appends what a reader shows of a line to its first bytes, and consumes it with the line feed that ends the line.
/// Returns whether the line is complete. Nothing is appended or consumed if a signal interrupts the read.
///
/// Errors: Read; Memory.
fn lengthen<A: Allocator + Copy, R: BufRead>(
    reader: &mut R,
    line: &mut Vec<u8, A>,
) -> Result<bool, ScriptFault>
    ensures whole { IfOk result (λ whole. Lengthens (R.remaining reader.old) (R.remaining reader.new) line.old.items line.new.items whole) }
    ensures kept { OnErr result (Keeps (R.remaining reader.old) (R.remaining reader.new)) }
    ensures fault { IfErr result IsReading }
{
    let shown = match reader.fill_buf() {
        Ok(shown) => shown,
        Err(error) => {
            return if is_interrupted(&error) {
                Ok(false)
            } else {
                Err(ScriptFault::Read)
            };
        }
    };
    let part = part_in(shown, line.len());
    line.extend_from_slice(&shown[..part.count])?;
    reader.consume(part.taken);
    Ok(part.is_whole)
}

/// Reads the next line, without its line feed. A line that is too long is cut to one byte more than a line may have.
/// Tries again if a signal interrupts the read.
///
/// Errors: Read; Memory.
pub(crate) fn next_line<A: Allocator + Copy, R: BufRead>(
    alloc: A,
    reader: &mut R,
) -> Result<Vec<u8, A>, ScriptFault>
    ensures line { IfOk result (λ line. TakesLine (R.remaining reader.old) line.items (R.remaining reader.new)) }
    ensures part { (part : List ℕ) × (OnErr result (Consumes (R.remaining reader.old) (R.remaining reader.new) part)) }
    ensures fault { IfErr result IsReading }
{
    let mut line = Vec::new(alloc);
    for _ in 0..u64::MAX {
        if lengthen(reader, &mut line)? {
            return Ok(line);
        }
    }
    Err(ScriptFault::Read)
}
