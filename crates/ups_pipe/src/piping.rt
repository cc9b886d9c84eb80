//! One association from a reader to a writer.

ghost use Rattle.std.specs.Prelude.{◌≡◌, ◌≤◌, ℕ, List, [], length, None, false, true};
ghost use Rattle.std.specs.Io.KnownBytes.{Consumes};
ghost use Rattle.ups_life.specs.declared.entry.Entry.{Entry};
ghost use Rattle.ups_service.specs.Law.{nobody, alone};
ghost use Rattle.ups_settings.specs.Defaults.{local_offset};
ghost use Rattle.ups_settings.specs.Refusal.{refusal};
ghost use Rattle.ups_session.specs.Acceptor.{acceptor, opened};
ghost use Rattle.ups_session.specs.Session.{IsSession};
ghost use Rattle.ups_session.specs.WatchedIo.{Input, Output};
ghost use Rattle.ups_session.specs.World.{world};
ghost use Rattle.ups_life.specs.Limits.{history_limit, peer_limit};
ghost use Rattle.ups_pipe.specs.Hexing.{bytes_left};
ghost use Rattle.ups_pipe.specs.Piping.{config, epoch, settings, unwritten};

use crate::gate::Epoch;
use crate::hexing::{DigitFault, HexReader, HexWriter};
use std::alloc::Allocator;
use std::io::{Read, Write};
use ups_assoc::Config;
use ups_life::{MAX_HISTORY, Peer};
use ups_manager::Manager;
use ups_pdu::Ae;
use ups_session::{End, SessionFault, WatchedReader, WatchedWriter, serve};
use ups_settings::{KEEP, OFFSET};

/// The outcome of an association, and what was wrong with its hex digits, if that was found.
#[derive(Clone, Copy, Debug, PartialEq, Eq)]
pub struct Piped {
    /// How it ended.
    pub ended: Result<End, SessionFault>,
    /// Why no more digits were read.
    pub digits: Option<DigitFault>,
}

/// Answers one association from hex digits to lines of hex digits, at 1970-01-01, 00:00 UTC.
///
/// Errors: those of `serve`.
fn serve_digits<A: Allocator + Copy, R: Read, W: Write>(
    alloc: A,
    digits: &mut HexReader<R>,
    writer: &mut W,
    manager: &mut Manager<A>,
    config: &Config,
    turns: u64,
) -> Result<End, SessionFault>
    ensures session { (now : Input) × (written : Output) × (input : List ℕ) × Consumes (bytes_left digits.old.high digits.old.fault (R.remaining digits.old.inner)) now.left input
        × IsSession (acceptor config.now) (λ live. live.ending) opened turns now input
        (world unwritten epoch manager.old.settings nobody 0 (alone manager.old.history))
        (world written epoch manager.new.settings nobody 0 (alone manager.new.history)) result }
{
    let mut gate = Epoch;
    let mut bytes = WatchedReader::new(digits);
    let mut lines = WatchedWriter::new(HexWriter::new(writer));
    serve(
        alloc, &mut bytes, &mut lines, manager, &mut gate, config, turns,
    )
}

/// Answers one association from a reader to a writer (PS3.8 section 9.2, PS3.7 section 10, PS3.4 annex CC), with a
/// manager without history, until it has ended or `turns` PDUs were read. `ae` is the title of this application entity,
/// and `peers` may watch steps; each request is made at 1970-01-01, 00:00 UTC. With `hex` both sides are hexadecimal
/// digits, and each PDU is written as a line.
///
/// # Errors
///
/// Read if a read failed or the input ended inside a PDU; Write if a write failed; Turns if `turns` PDUs were read;
/// Memory if memory ran out. What was accepted before is answered as far as it was written. Digits that encode no bytes
/// are a failed read, and `digits` of the result says what is wrong with them.
pub fn pipe_told<A: Allocator + Copy, R: Read, W: Write>(
    alloc: A,
    reader: &mut WatchedReader<R>,
    writer: &mut WatchedWriter<W>,
    ae: Ae,
    peers: &[Peer],
    hex: bool,
    turns: u64,
) -> Piped
    requires few { length peers.now ≤ peer_limit }
    requires allowed { refusal peers.now local_offset history_limit ≡ None }
    ensures session { hex ≡ false → (input : List ℕ) × (history : List (Entry A)) × Consumes reader.old.left reader.new.left input
        × IsSession (acceptor (config ae)) (λ live. live.ending) opened turns reader.new input
        (world writer.old epoch (settings peers.now) nobody 0 (alone []))
        (world writer.new epoch (settings peers.now) nobody 0 (alone history)) result.ended }
    ensures digits { hex ≡ true → (now : Input) × (written : Output) × (input : List ℕ) × (history : List (Entry A)) × Consumes (bytes_left None None reader.old.left) now.left input
        × IsSession (acceptor (config ae)) (λ live. live.ending) opened turns now input
        (world unwritten epoch (settings peers.now) nobody 0 (alone []))
        (world written epoch (settings peers.now) nobody 0 (alone history)) result.ended }
{
    let Ok(mut manager) = Manager::new(alloc, peers, KEEP, OFFSET, MAX_HISTORY) else {
        return Piped {
            ended: Err(SessionFault::Memory),
            digits: None,
        };
    };
    let config = Config { ae, offset: OFFSET };
    let mut gate = Epoch;
    if hex {
        let mut digits = HexReader::new(reader);
        let ended = serve_digits(alloc, &mut digits, writer, &mut manager, &config, turns);
        return Piped {
            ended,
            digits: digits.fault(),
        };
    }
    let ended = serve(
        alloc,
        reader,
        writer,
        &mut manager,
        &mut gate,
        &config,
        turns,
    );
    Piped {
        ended,
        digits: None,
    }
}
