//! PDUs read from a reader and written to a writer.

ghost use Rattle.std.specs.Prelude.{◌≡◌, ℕ, List, ◌++◌, ◌<◌, ◌≤◌, false, true, length, take, ◌+◌, ◌^◌, [], IfErr, OnOk, MatchResult, vec_capacity, ◌∷◌};
ghost use Rattle.std.specs.Io.KnownBytes.{Appends, Consumes};
ghost use Rattle.ups_session.specs.WatchedIo.{HasEnded};
ghost use Rattle.ups_session.specs.declared.watched_io.LastRead.TheVariants as last_reads;
ghost use Rattle.ups_session.specs.declared.gate.GateCall.TheVariants.{Before, After};
ghost use Rattle.ups_session.specs.Tells.{IsAnnounced, Tells};
ghost use Rattle.ups_session.specs.Wire.{Sent};
ghost use Rattle.ups_pdu.specs.declared.kind.PduKind.{PduKind};
ghost use Rattle.ups_pdu.specs.Header.{IsHeader, type_code, limit};
ghost use Rattle.ups_session.specs.Reading.{IsCutOff, IsRead};
ghost use Rattle.ups_session.specs.declared.pdu_io.PduRead.TheVariants.{Cut, Failed};
ghost use Rattle.ups_session.specs.declared.fault.SessionFault.TheVariants.{Memory};
ghost use Rattle.std.specs.List.{AllByRecursion};
ghost use Rattle.ups_pdu.specs.Fits.{Fits};
ghost use Rattle.ups_session.specs.Visits.{SendsPdus};

use crate::fault::SessionFault;
use crate::gate::Gate;
use crate::watched_io::{WatchedReader, WatchedWriter};
use std::alloc::Allocator;
use std::io::{Read, Write};
use ups_pdu::{MAX_DATA_LENGTH, Pdu, PduFault, body_len, write_pdu};

/// How far a buffer was filled, and whether the reader failed.
#[derive(Clone, Copy, Debug)]
pub(crate) struct Filled {
    pub count: usize,
    pub failed: bool,
}

/// Fills a buffer from an index on, until it is full or the reader ends or fails.
pub(crate) fn fill<R: Read>(reader: &mut WatchedReader<R>, buf: &mut [u8], from: usize) -> Filled
    requires { from ≤ length buf.old }
    ensures within { (from ≤ result.count) × (result.count ≤ length buf.new) }
    ensures bytes { (input : List ℕ) × Consumes reader.old.left reader.new.left input
        × (take result.count buf.new ≡ take from buf.old ++ input) }
    ensures end { result.count < length buf.new → result.failed ≡ false → HasEnded reader.new }
    ensures failed { result.failed ≡ true → reader.new.last ≡ last_reads.Failed }
{
    let mut at = from;
    while at < buf.len() {
        match reader.read(&mut buf[at..]) {
            Ok(0) => return Filled {
                count: at,
                failed: false,
            },
            Ok(n) => at += n,
            Err(_) => return Filled {
                count: at,
                failed: true,
            },
        }
    }
    Filled {
        count: at,
        failed: false,
    }
}

/// Writes bytes for which the gate was called just before. If a write fails, a prefix of them was written.
///
/// Errors: a failed write.
pub(crate) fn write_announced<W: Write, G: Gate>(
    writer: &mut WatchedWriter<W>,
    gate: &G,
    bytes: &[u8],
) -> Result<(), SessionFault>
    requires { IsAnnounced (G.told gate.now) }
    ensures { (sent : List ℕ) × Appends writer.old.written writer.new.written sent × Sent bytes.now sent writer.new.failed result }
{
    let mut rest = bytes;
    while !rest.is_empty() {
        match writer.write(rest) {
            Ok(n) => rest = &rest[n..],
            Err(_) => return Err(SessionFault::Write),
        }
    }
    Ok(())
}

/// The length of a PDU's header, in bytes (PS3.8 section 9.3.1).
const HEADER_LENGTH: usize = 6;

/// The outcome of reading one PDU.
#[derive(Clone, Copy, Debug, PartialEq, Eq)]
pub(crate) enum PduRead {
    /// The bytes of a PDU, as its header announces them.
    Whole,
    /// Bytes that are not the beginning of a PDU, whatever follows.
    Bad(PduFault),
    /// The input ended before a PDU.
    Closed,
    /// The input ended inside a PDU.
    Cut,
    /// A read failed before the end of a PDU.
    Failed,
}

/// Returns the outcome of reading an incomplete header or body.
#[cold]
fn cut_off(filled: Filled) -> PduRead
    ensures failed { filled.failed ≡ true → result ≡ Failed }
    ensures ended { filled.failed ≡ false → result ≡ Cut }
{
    if filled.failed {
        PduRead::Failed
    } else {
        PduRead::Cut
    }
}

/// The maximum number of bytes of memory that a buffer keeps between two PDUs: as many as the longest P-DATA-TF takes, so
/// that a long message takes no memory anew for each of its PDUs.
const KEPT_CAPACITY: usize = HEADER_LENGTH + MAX_DATA_LENGTH as usize;

/// Frees the memory of a buffer if a long PDU made it larger than what is kept.
pub(crate) fn trim<A: Allocator + Copy>(buffer: &mut Vec<u8, A>)
    ensures { vec_capacity buffer.new ≤ 16390 }
{
    if buffer.capacity() > KEPT_CAPACITY {
        let alloc = *buffer.allocator();
        *buffer = Vec::new(alloc);
    }
}

/// Fills the buffer with a header and with room for the body that it announces. Bytes of an earlier PDU stay after the
/// header until the body is read over them: filling all of it with zeros would take longer than reading it.
///
/// Errors: out of memory.
fn begin_pdu<A: Allocator + Copy>(
    buffer: &mut Vec<u8, A>,
    header: &[u8],
    len: usize,
) -> Result<(), SessionFault>
    requires six { length header.now ≡ 6 }
    requires len { len < 2 ^ 32 }
    ensures front { OnOk result (take 6 buffer.new.items ≡ header.now) }
    ensures len { OnOk result (length buffer.new.items ≡ 6 + len) }
    ensures memory { IfErr result (λ e. e ≡ Memory) }
{
    buffer.resize(HEADER_LENGTH + len, 0)?;
    buffer.as_mut_slice()[0..HEADER_LENGTH].copy_from_slice(header);
    Ok(())
}

/// Reads the body that a header announces, and not a byte more. The buffer gets the bytes of the PDU.
///
/// Errors: out of memory.
fn read_body<A: Allocator + Copy, R: Read>(
    reader: &mut WatchedReader<R>,
    buffer: &mut Vec<u8, A>,
    header: &[u8],
    len: usize,
) -> Result<PduRead, SessionFault>
    requires six { length header.now ≡ 6 }
    requires header { (kind : PduKind) × (rest : List ℕ) × IsHeader header.now (type_code kind) len rest × (len ≤ limit kind) }
    requires len { len < 2 ^ 32 }
    ensures { (body : List ℕ) × Consumes reader.old.left reader.new.left body × IsRead A reader.new (header.now ++ body) buffer.new.items result }
{
    begin_pdu(buffer, header, len)?;
    let whole = fill(reader, buffer.as_mut_slice(), HEADER_LENGTH);
    if whole.count < buffer.len() {
        return Ok(cut_off(whole));
    }
    Ok(PduRead::Whole)
}

/// Reads the header of a PDU.
///
/// Errors: the outcome if no header came.
fn read_header<R: Read>(reader: &mut WatchedReader<R>) -> Result<[u8; 6], PduRead>
    ensures { (input : List ℕ) × Consumes reader.old.left reader.new.left input
        × MatchResult result (λ header. (header ≡ input) × (length input ≡ 6)) (IsCutOff reader.new input) }
{
    let mut header = [0; HEADER_LENGTH];
    let front = fill(reader, &mut header, 0);
    if front.count == 0 && !front.failed {
        return Err(PduRead::Closed);
    }
    if front.count < HEADER_LENGTH {
        return Err(cut_off(front));
    }
    Ok(header)
}

/// Reads the bytes of one PDU, and not a byte more than its header and its length announce. The buffer gets the bytes.
///
/// Errors: out of memory.
pub(crate) fn read_one<A: Allocator + Copy, R: Read>(
    reader: &mut WatchedReader<R>,
    buffer: &mut Vec<u8, A>,
) -> Result<PduRead, SessionFault>
    ensures { (input : List ℕ) × Consumes reader.old.left reader.new.left input × IsRead A reader.new input buffer.new.items result }
{
    trim(buffer);
    let header = match read_header(reader) {
        Ok(header) => header,
        Err(got) => return Ok(got),
    };
    match body_len(&header) {
        Ok(len) => read_body(reader, buffer, &header, len),
        Err(fault) => Ok(PduRead::Bad(fault)),
    }
}

/// Sends the bytes of one PDU, between two calls of the gate.
///
/// Errors: a failed write; a prefix of the bytes was then written.
pub(crate) fn send_bytes<W: Write, G: Gate>(
    writer: &mut WatchedWriter<W>,
    gate: &mut G,
    bytes: &[u8],
) -> Result<(), SessionFault>
    ensures bytes { (sent : List ℕ) × Appends writer.old.written writer.new.written sent × Sent bytes.now sent writer.new.failed result }
    ensures told { Tells (G.told gate.old) (G.told gate.new) (Before ∷ After ∷ []) }
{
    gate.before_write();
    let sent = write_announced(writer, gate, bytes);
    gate.after_write();
    sent
}

/// Sends one PDU, between two calls of the gate.
///
/// Errors: a failed write, or out of memory; a prefix of the bytes was then written.
pub(crate) fn send_pdu<A: Allocator + Copy, W: Write, G: Gate>(
    alloc: A,
    writer: &mut WatchedWriter<W>,
    gate: &mut G,
    pdu: &Pdu<A>,
) -> Result<(), SessionFault>
    requires { Fits pdu.now }
    ensures { SendsPdus (pdu.now ∷ []) writer.old writer.new (G.told gate.old) (G.told gate.new) result }
{
    let bytes = write_pdu(alloc, pdu)?;
    send_bytes(writer, gate, &bytes)
}

/// Sends PDUs, each written by itself.
///
/// Errors: a failed write, or out of memory; a prefix of the bytes was then written.
pub(crate) fn send_pdus<A: Allocator + Copy, W: Write, G: Gate>(
    alloc: A,
    writer: &mut WatchedWriter<W>,
    gate: &mut G,
    said: &[Pdu<A>],
) -> Result<(), SessionFault>
    requires { AllByRecursion (λ p. Fits p) said.now }
    ensures { SendsPdus said.now writer.old writer.new (G.told gate.old) (G.told gate.new) result }
{
    for pdu in said {
        send_pdu(alloc, writer, gate, pdu)?;
    }
    Ok(())
}
