//! Readers and writers whose calls are interrupted by a signal.

use std::io::{self, Error, ErrorKind, Read, Write};

/// A reader or a writer whose calls are each interrupted once, if `halts` is set.
#[derive(Drop)]
pub(crate) struct Interrupted<D> {
    pub(crate) device: D,
    halts: bool,
    was: bool,
}

impl<D> Interrupted<D> {
    /// Wraps a reader or a writer.
    pub(crate) fn new(device: D, halts: bool) -> Interrupted<D> {
        Interrupted {
            device,
            halts,
            was: false,
        }
    }

    /// Counts a call, and fails if it is to be interrupted.
    fn call(&mut self) -> io::Result<()> {
        self.was = self.halts && !self.was;
        if self.was {
            return Err(Error::from(ErrorKind::Interrupted));
        }
        Ok(())
    }
}

impl<R: Read> Read for Interrupted<R> {
    fn read(&mut self, buf: &mut [u8]) -> io::Result<usize> {
        self.call()?;
        self.device.read(buf)
    }
}

impl<W: Write> Write for Interrupted<W> {
    fn write(&mut self, buf: &[u8]) -> io::Result<usize> {
        self.call()?;
        self.device.write(buf)
    }

    fn flush(&mut self) -> io::Result<()> {
        self.call()?;
        self.device.flush()
    }
}
