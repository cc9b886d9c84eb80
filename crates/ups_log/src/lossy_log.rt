//! A log that loses lines rather than wait.

use crate::clock::moment_of;
use crate::heading::{Heading, LineStyle};
use crate::line_queue::{Batch, LineQueue};
use libc::net::{POLLERR, POLLNVAL, POLLOUT, poll};
use libc::types::pollfd;
use log::kv::Source;
use log::span::Spans;
use log::{Level, Line, Log, Metadata, Record};
use std::alloc::{AllocError, Global};
use std::fmt::Display;
use std::sync::{Arc, Wait};
use std::thread::{self, Threads};
use std::time::Clock;

/// The descriptor of standard error.
const STANDARD_ERROR: i32 = 2;

/// The timeouts of `poll` to check a descriptor without waiting, and to wait until it takes something.
const AT_ONCE: i32 = 0;

const FOR_EVER: i32 = -1;

/// The number of bytes for which a line has room before it grows.
const USUAL: usize = 256;

/// Logs to standard error from a thread of its own, so that no other thread is stopped by its log.
///
/// Only that thread waits if standard error takes nothing: a pipe or a socket that nobody reads, or a terminal, which
/// may take no line although the system says that it takes some bytes. Up to 1,024 lines wait, and others are lost;
/// their number is logged before the next one that is not.
///
/// If standard error is closed when the log is made, no line is ever written, since a connection may get its descriptor
/// later. No contract covers any of this: `trials/ending.py` tries it.
#[derive(Drop)]
pub struct LossyLog<R> {
    rt: R,
    alloc: Global,
    style: LineStyle,
    /// The lines that wait; None if none is ever written.
    lines: Option<Arc<LineQueue>>,
}

/// Returns the events of standard error that `poll` reports within `milliseconds`.
fn events(milliseconds: i32) -> i16 {
    let mut asked = [pollfd {
        fd: STANDARD_ERROR,
        events: POLLOUT,
        revents: 0,
    }];
    if poll(&mut asked, milliseconds) > 0 {
        asked[0].revents
    } else {
        0
    }
}

/// Returns the heading of a line of this level that is logged now.
fn heading_of<R: Clock>(rt: &R, style: LineStyle, level: Level) -> Heading {
    Heading::new(style, level, moment_of(rt))
}

/// Returns the text of a line with its heading and its line end.
///
/// # Errors
///
/// If memory runs out.
fn text_of<D: Display>(alloc: Global, heading: Heading, line: &D) -> Result<String, AllocError> {
    let mut text = String::with_capacity(alloc, USUAL)?;
    write!(text, "{heading}{line}\n")?;
    Ok(text)
}

/// Writes lines once standard error takes some bytes, and before them how many were lost. Writes nothing if nobody is
/// left to read it.
fn write_batch<R: Clock, O: Print>(rt: &R, output: &O, style: LineStyle, batch: Batch) {
    if events(FOR_EVER) & (POLLERR | POLLNVAL) != 0 {
        return;
    }
    let lost = batch.lost;
    if lost > 0 {
        let heading = heading_of(rt, style, Level::Warn);
        let _ = println!(output;
            "{heading}[WARN  upsd] {lost} lines of the log were lost: standard error took none"
        );
    }
    let _ = output.write_all(batch.text.as_bytes());
}

/// Writes each line that is put into a queue, for as long as the program lives.
fn write_lines<R: Wait + Clock, O: Print>(rt: &R, output: &O, style: LineStyle, lines: &LineQueue) {
    for _ in rt.forever() {
        write_batch(rt, output, style, lines.next(rt));
    }
}

impl<R> LossyLog<R> {
    /// Creates a log that writes nothing.
    pub fn silent(rt: R, alloc: Global) -> LossyLog<R> {
        LossyLog {
            rt,
            alloc,
            style: LineStyle::Time,
            lines: None,
        }
    }

    /// Starts a log with its thread, which writes lines in this style to `output`, standard error.
    ///
    /// # Errors
    ///
    /// If memory runs out, or no thread can be started.
    pub fn start<O>(
        rt: R,
        output: O,
        alloc: Global,
        style: LineStyle,
    ) -> Result<LossyLog<R>, AllocError>
    where
        R: Threads + Wait + Clock + Copy + Send + 'static,
        O: Print + Drop + Send + 'static,
    {
        if events(AT_ONCE) & POLLNVAL != 0 {
            return Ok(LossyLog::silent(rt, alloc));
        }
        let lines = Arc::new(alloc, LineQueue::new(alloc)?)?;
        let theirs = Arc::try_clone(&lines)?;
        thread::spawn(&rt, move || write_lines(&rt, &output, style, &theirs))?;
        Ok(LossyLog {
            rt,
            alloc,
            style,
            lines: Some(lines),
        })
    }
}

impl<R: Wait + Clock + Log> Log for LossyLog<R> {
    fn enabled(&self, metadata: &Metadata<'_>) -> bool {
        self.rt.enabled(metadata)
    }

    fn log<D: Display, K: Source, S: Spans>(&self, record: &Record<'_, D, K, S>) {
        if let Some(lines) = &self.lines {
            let heading = heading_of(&self.rt, self.style, record.level());
            let line = text_of(self.alloc, heading, &Line::new(record)).ok();
            lines.put(&self.rt, line.as_ref().map(String::as_str));
        }
    }

    fn flush(&self) {
        if let Some(lines) = &self.lines {
            lines.drain(&self.rt);
        }
    }

    fn target(&self) -> &str {
        self.rt.target()
    }
}
