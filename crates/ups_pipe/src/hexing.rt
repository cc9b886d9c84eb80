//! Bytes as hex digits: the readable form of what a session reads and writes.

ghost use Rattle.std.specs.Prelude.{◌≡◌, ◌<◌, ◌∷◌, [], nat_lt, true, false, None, Some, option_map, unwrap_or, IfOk, OnOk, MatchOption};
ghost use Rattle.std.specs.Char.{digit_value};
ghost use Rattle.std.specs.Io.KnownBytes.{Appends, IsAtEnd, Keeps};
ghost use Rattle.hex.specs.Hex.{encode_lower};
ghost use Rattle.ups_pipe.specs.Hexing.{bytes_left, hex_line, values_after, GivesCharacter, GivesDigit, GivesNext};

use crate::limits::WHITE_SPACE_LIMIT;
use std::io::{self, ErrorKind, Read, Write};
use thiserror::Error;

/// What is wrong with hex digits from which bytes are read.
#[derive(Clone, Copy, Debug, PartialEq, Eq, Error)]
pub enum DigitFault {
    /// A character is neither a hex digit nor white space.
    #[error("what was read is neither a hex digit nor white space")]
    NoDigit,
    /// There are more than 1,000,000 white space characters in a row.
    #[error("more than 1,000,000 white space characters in a row were read")]
    WhiteSpace,
    /// The digits end within a byte.
    #[error("the hex digits end within a byte")]
    HalfByte,
}

/// What comes next among hex digits.
#[derive(Clone, Copy, Debug, PartialEq, Eq)]
pub(crate) enum Next {
    /// A digit with this value.
    Digit(u8),
    /// The end.
    End,
    /// A character that is neither a digit nor white space.
    Wrong,
    /// More white space than is allowed in a row.
    Spaces,
}

/// Returns whether a signal interrupted the failed call, so that it is tried again.
fn is_interrupted(error: &io::Error) -> bool {
    error.kind() == ErrorKind::Interrupted
}

/// Reads the next character, or None at the end. Tries again if a signal interrupts the read.
///
/// Errors: those of the reader.
fn character<R: Read>(reader: &mut R) -> io::Result<Option<u8>>
    ensures { GivesCharacter (R.remaining reader.old) (R.remaining reader.new) result }
{
    let mut one = [0; 1];
    for _ in 0..u64::MAX {
        match reader.read(&mut one) {
            Ok(0) => return Ok(None),
            Ok(_) => return Ok(Some(one[0])),
            Err(e) if is_interrupted(&e) => {}
            Err(e) => return Err(e),
        }
    }
    Err(io::Error::from(ErrorKind::Interrupted))
}

/// Returns the value of a hex digit, in either case, or None if the character is no hex digit.
fn value_of(character: u8) -> Option<u8>
    ensures { MatchOption result (nat_lt (digit_value character) 16 ≡ false) (λ d. (d ≡ digit_value character) × (nat_lt (digit_value character) 16 ≡ true)) }
{
    match char::from(character).to_digit(16) {
        Some(value) => Some(value as u8),
        None => None,
    }
}

/// Reads what comes next among the digits of a reader.
///
/// Errors: those of the reader.
fn read_next<R: Read>(reader: &mut R) -> io::Result<Next>
    ensures { GivesNext (R.remaining reader.old) (R.remaining reader.new) result }
{
    for _ in 0..=WHITE_SPACE_LIMIT {
        let Some(character) = character(reader)? else {
            return Ok(Next::End);
        };
        if let Some(value) = value_of(character) {
            return Ok(Next::Digit(value));
        }
        if !character.is_ascii_whitespace() {
            return Ok(Next::Wrong);
        }
    }
    Ok(Next::Spaces)
}

/// Reads bytes from the hex digits of another reader, with white space among them. After a fault it reads nothing more.
///
/// Errors: those of the reader; InvalidData for a fault of the digits.
#[derive(Drop)]
pub(crate) struct HexReader<R: Read> {
    inner: R,
    high: Option<u8>,
    fault: Option<DigitFault>,
    ghost is_digit: { unwrap_or high 0 < 16 },
}

impl<R: Read> HexReader<R> {
    pub(crate) fn new(inner: R) -> HexReader<R>
        ensures inner { result.inner ≡ inner }
        ensures begins { (result.high ≡ None) × (result.fault ≡ None) }
    {
        HexReader {
            inner,
            high: None,
            fault: None,
        }
    }

    /// Returns what is wrong with the digits, if that was found.
    pub(crate) fn fault(&self) -> Option<DigitFault>
        ensures { result ≡ self.now.fault }
    {
        self.fault
    }

    /// Notes a fault of the digits, and returns its error.
    fn fail(&mut self, fault: DigitFault) -> io::Error
        ensures rest { (self.new.inner ≡ self.old.inner) × (self.new.high ≡ self.old.high) }
        ensures noted { self.new.fault ≡ Some fault }
    {
        self.fault = Some(fault);
        io::Error::from(ErrorKind::InvalidData)
    }

    /// Reads the value of the next digit, or None at the end.
    fn digit(&mut self) -> io::Result<Option<u8>>
        ensures digit { GivesDigit (option_map (values_after self.old.fault) (R.remaining self.old.inner)) (option_map (values_after self.new.fault) (R.remaining self.new.inner)) result }
        ensures high { self.new.high ≡ self.old.high }
        ensures sound { OnOk result (self.new.fault ≡ None) }
    {
        if self.fault.is_some() {
            return Err(io::Error::from(ErrorKind::InvalidData));
        }
        match read_next(&mut self.inner)? {
            Next::Digit(value) => Ok(Some(value)),
            Next::End => Ok(None),
            Next::Wrong => Err(self.fail(DigitFault::NoDigit)),
            Next::Spaces => Err(self.fail(DigitFault::WhiteSpace)),
        }
    }
}

impl<R: Read> HexReader<R> {
    /// Reads the high digit of the next byte, or None at the end. Keeps it until the low one is read.
    fn high(&mut self) -> io::Result<Option<u8>>
        ensures kept { Keeps (bytes_left self.old.high self.old.fault (R.remaining self.old.inner)) (bytes_left self.new.high self.new.fault (R.remaining self.new.inner)) }
        ensures found { IfOk result (λ high. high ≡ self.new.high) }
        ensures end { IfOk result (λ high. high ≡ None → IsAtEnd (bytes_left self.new.high self.new.fault (R.remaining self.new.inner))) }
    {
        if self.high.is_none() {
            self.high = self.digit()?;
        }
        Ok(self.high)
    }

    /// Reads the next byte, or None at the end.
    fn byte(&mut self) -> io::Result<Option<u8>>
        ensures { GivesCharacter (bytes_left self.old.high self.old.fault (R.remaining self.old.inner)) (bytes_left self.new.high self.new.fault (R.remaining self.new.inner)) result }
    {
        let Some(high) = self.high()? else {
            return Ok(None);
        };
        let Some(low) = self.digit()? else {
            return Err(self.fail(DigitFault::HalfByte));
        };
        self.high = None;
        Ok(Some(high * 16 + low))
    }
}

impl<R: Read> Read for HexReader<R> {
    ghost remaining = { λ r. bytes_left r.high r.fault (R.remaining r.inner) };

    fn read(&mut self, buf: &mut [u8]) -> io::Result<usize> {
        let Some(place) = buf.first_mut() else {
            return Ok(0);
        };
        match self.byte()? {
            Some(byte) => {
                *place = byte;
                Ok(1)
            }
            None => Ok(0),
        }
    }
}

/// Writes the digits of a byte, in lower case.
fn put_byte<W: Write>(writer: &mut W, byte: u8) -> io::Result<()>
    ensures { OnOk result (Appends (W.contents writer.old) (W.contents writer.new) (encode_lower (byte ∷ []))) }
{
    let mut digits = [0; 2];
    if hex::encode_to_slice([byte].as_slice(), &mut digits).is_err() {
        return Err(io::Error::from(ErrorKind::InvalidData));
    }
    writer.write_all(&digits)
}

/// Writes bytes as a line of digits.
fn put_line<W: Write>(writer: &mut W, bytes: &[u8]) -> io::Result<()>
    ensures { OnOk result (Appends (W.contents writer.old) (W.contents writer.new) (hex_line bytes.now)) }
{
    for byte in bytes {
        put_byte(writer, *byte)?;
    }
    writer.write_all(b"\n")
}

/// Writes bytes to another writer as lower-case hex digits, with a line for each write. Tries again if a signal
/// interrupts a write.
#[derive(Drop)]
pub(crate) struct HexWriter<'a, W: Write> {
    inner: &'a mut W,
}

impl<'a, W: Write> HexWriter<'a, W> {
    pub(crate) fn new(inner: &'a mut W) -> HexWriter<'a, W> {
        HexWriter { inner }
    }
}

impl<W: Write> Write for HexWriter<'_, W> {
    fn write(&mut self, buf: &[u8]) -> io::Result<usize> {
        put_line(self.inner, buf)?;
        Ok(buf.len())
    }

    fn flush(&mut self) -> io::Result<()> {
        self.inner.flush()
    }
}
