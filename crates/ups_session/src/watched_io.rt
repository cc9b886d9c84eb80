//! A reader and a writer that remember the outcome of their last call.

ghost use Rattle.std.specs.Prelude.{◌≡◌, ◌≢◌, ◌↔◌, ◌<◌, IsTrue, IfOk, IfErr, MatchResult, is_err, false, length};
ghost use Rattle.std.specs.Io.{ReadsAtMost, WritesAtMost};
ghost use Rattle.std.specs.Io.KnownBytes.{Keeps, ReadConsumes, WriteAppends};
ghost use Rattle.std.specs.IoError.{error_kind};

use std::io;
use std::io::{Error, ErrorKind, Read, Write};
use std::marker::Model;

/// The outcome of the last read.
#[derive(Clone, Copy, Debug, PartialEq, Eq)]
pub enum LastRead {
    /// It gave bytes, or there was no room for any, or nothing was read yet.
    Gave,
    /// It met the end of the input.
    Ended,
    /// It failed.
    Failed,
}

/// Returns whether a call failed because a signal interrupted it, so that it is tried again.
fn is_interrupted(error: &Error) -> bool
    ensures { IsTrue result ↔ (error_kind error.now ≡ ErrorKind.Interrupted) }
{
    error.kind() == ErrorKind::Interrupted
}

/// Reads, and tries again if a signal interrupts the read.
///
/// Errors: that of the reader; Other after 2^64 - 1 interruptions.
fn read_again<R: Read>(reader: &mut R, buf: &mut [u8]) -> io::Result<usize>
    ensures bound { ReadsAtMost result buf.new }
    ensures bytes { ReadConsumes (R.remaining reader.old) (R.remaining reader.new) result buf.new }
    ensures retried { IfErr result (λ e. error_kind e ≢ ErrorKind.Interrupted) }
{
    for _ in 0..u64::MAX {
        match reader.read(buf) {
            Ok(n) => return Ok(n),
            Err(e) if is_interrupted(&e) => {}
            Err(e) => return Err(e),
        }
    }
    Err(Error::from(ErrorKind::Other))
}

/// Writes, and tries again if a signal interrupts the write.
///
/// Errors: that of the writer; WriteZero if it took none of the bytes; Other after 2^64 - 1 interruptions.
fn write_again<W: Write>(writer: &mut W, buf: &[u8]) -> io::Result<usize>
    ensures bound { WritesAtMost result buf.now }
    ensures bytes { WriteAppends (W.contents writer.old) (W.contents writer.new) result buf.now }
    ensures some { IfOk result (λ n. 0 < length buf.now → 0 < n) }
    ensures retried { IfErr result (λ e. error_kind e ≢ ErrorKind.Interrupted) }
{
    for _ in 0..u64::MAX {
        match writer.write(buf) {
            Ok(0) if !buf.is_empty() => return Err(Error::from(ErrorKind::WriteZero)),
            Ok(n) => return Ok(n),
            Err(e) if is_interrupted(&e) => {}
            Err(e) => return Err(e),
        }
    }
    Err(Error::from(ErrorKind::Other))
}

/// A reader that remembers the outcome of the last read. A read that a signal interrupts is tried again.
#[derive(Drop)]
pub struct WatchedReader<R: Read> {
    reader: R,
    last: LastRead,
}

impl<R: Read> Model for WatchedReader<R> {
    ghost use Rattle.ups_session.specs.WatchedIo.{Input};

    ghost Value = { Input };

    ghost view = { λ w. record { left = R.remaining w.reader; last = w.last } };
}

impl<R: Read> WatchedReader<R> {
    /// Watches a reader.
    pub fn new(reader: R) -> WatchedReader<R>
        ensures { result ≡ record { left = R.remaining reader; last = LastRead.Gave } }
    {
        WatchedReader {
            reader,
            last: LastRead::Gave,
        }
    }
}

impl<R: Read> Read for WatchedReader<R> {
    ghost use Rattle.ups_session.specs.WatchedIo.{last_read};

    ghost remaining = { λ w. w.left };

    fn read(&mut self, buf: &mut [u8]) -> io::Result<usize>
        ensures bound { ReadsAtMost result buf.new }
        ensures bytes { ReadConsumes self.old.left self.new.left result buf.new }
        ensures last { self.new.last ≡ last_read result (length buf.new) }
        ensures retried { IfErr result (λ e. error_kind e ≢ ErrorKind.Interrupted) }
    {
        let given = read_again(&mut self.reader, buf);
        self.last = match given {
            Err(_) => LastRead::Failed,
            Ok(0) if !buf.is_empty() => LastRead::Ended,
            Ok(_) => LastRead::Gave,
        };
        given
    }
}

/// A writer that remembers whether the last write failed. A write that a signal interrupts is tried again, and one that
/// takes none of the bytes has failed.
#[derive(Drop)]
pub struct WatchedWriter<W: Write> {
    writer: W,
    failed: bool,
}

impl<W: Write> Model for WatchedWriter<W> {
    ghost use Rattle.ups_session.specs.WatchedIo.{Output};

    ghost Value = { Output };

    ghost view = { λ w. record { written = W.contents w.writer; failed = w.failed } };
}

impl<W: Write> WatchedWriter<W> {
    /// Watches a writer.
    pub fn new(writer: W) -> WatchedWriter<W>
        ensures { result ≡ record { written = W.contents writer; failed = false } }
    {
        WatchedWriter {
            writer,
            failed: false,
        }
    }
}

impl<W: Write> Write for WatchedWriter<W> {
    ghost contents = { λ w. w.written };

    fn write(&mut self, buf: &[u8]) -> io::Result<usize>
        ensures bound { WritesAtMost result buf.now }
        ensures bytes { WriteAppends self.old.written self.new.written result buf.now }
        ensures some { IfOk result (λ n. 0 < length buf.now → 0 < n) }
        ensures failed { self.new.failed ≡ is_err result }
        ensures retried { IfErr result (λ e. error_kind e ≢ ErrorKind.Interrupted) }
    {
        let taken = write_again(&mut self.writer, buf);
        self.failed = taken.is_err();
        taken
    }

    fn flush(&mut self) -> io::Result<()> {
        self.writer.flush()
    }
}
