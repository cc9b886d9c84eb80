//! Messages sent fragment by fragment (PS3.8 section 9.3.5 and annex E): the bytes of each PDU are encoded in one
//! buffer.

ghost use Rattle.std.specs.Prelude.{◌≤◌, ◌<◌, ◌-◌, ◌∷◌, [], None, Some, length};
ghost use Rattle.ups_pdu.specs.Limits.{max_data_length};
ghost use Rattle.ups_assoc.specs.Cutting.{fragment, run, pieces};
ghost use Rattle.ups_session.specs.Visits.{SendsPdus};

use crate::fault::SessionFault;
use crate::gate::Gate;
use crate::pdu_io::send_bytes;
use crate::watched_io::WatchedWriter;
use std::alloc::Allocator;
use std::io::Write;
use ups_assoc::{put_fragment, room};

/// Sends one fragment, in a PDU of its own. The buffer is emptied, and then holds the bytes of that PDU.
///
/// Errors: a failed write, or out of memory; a prefix of the bytes was then written.
fn send_fragment<A: Allocator + Copy, W: Write, G: Gate>(
    writer: &mut WatchedWriter<W>,
    gate: &mut G,
    buffer: &mut Vec<u8, A>,
    context: u8,
    command: bool,
    last: bool,
    bytes: &[u8],
) -> Result<(), SessionFault>
    requires { length bytes.now ≤ max_data_length - 6 }
    ensures { SendsPdus (fragment {A = A} context command last bytes.now ∷ []) writer.old writer.new (G.told gate.old) (G.told gate.new) result }
{
    buffer.clear();
    put_fragment(buffer, context, command, last, bytes)?;
    send_bytes(writer, gate, buffer.as_slice())
}

/// Sends the fragments of a command set or of a data set, each in a PDU of its own. All but the last have `size` bytes.
///
/// Errors: a failed write, or out of memory; a prefix of the bytes was then written.
fn send_run<A: Allocator + Copy, W: Write, G: Gate>(
    writer: &mut WatchedWriter<W>,
    gate: &mut G,
    buffer: &mut Vec<u8, A>,
    size: usize,
    context: u8,
    command: bool,
    bytes: &[u8],
) -> Result<(), SessionFault>
    requires some { 0 < size }
    requires most { size ≤ max_data_length - 6 }
    ensures { SendsPdus (run {A = A} size context command bytes.now) writer.old writer.new (G.told gate.old) (G.told gate.new) result }
{
    let mut rest = bytes;
    while rest.len() > size {
        let (front, after) = rest.split_at(size);
        send_fragment(writer, gate, buffer, context, command, false, front)?;
        rest = after;
    }
    send_fragment(writer, gate, buffer, context, command, true, rest)
}

/// Sends a message without a data set, in PDUs of at most `max` bytes: the fragments of its command. The buffer is for the
/// bytes of one PDU after the other.
///
/// Errors: a failed write, or out of memory; a prefix of the bytes was then written.
pub(crate) fn send_command<A: Allocator + Copy, W: Write, G: Gate>(
    writer: &mut WatchedWriter<W>,
    gate: &mut G,
    buffer: &mut Vec<u8, A>,
    max: u32,
    context: u8,
    command: &[u8],
) -> Result<(), SessionFault>
    requires { 8 ≤ max }
    ensures { SendsPdus (pieces {A = A} context command.now None max) writer.old writer.new (G.told gate.old) (G.told gate.new) result }
{
    send_run(writer, gate, buffer, room(max), context, true, command)
}

/// Sends a message with a data set, in PDUs of at most `max` bytes: the fragments of its command, then those of its
/// data set. The buffer is for the bytes of one PDU after the other.
///
/// Errors: a failed write, or out of memory; a prefix of the bytes was then written.
pub(crate) fn send_message<A: Allocator + Copy, W: Write, G: Gate>(
    writer: &mut WatchedWriter<W>,
    gate: &mut G,
    buffer: &mut Vec<u8, A>,
    max: u32,
    context: u8,
    command: &[u8],
    body: &[u8],
) -> Result<(), SessionFault>
    requires { 8 ≤ max }
    ensures { SendsPdus (pieces {A = A} context command.now (Some body.now) max) writer.old writer.new (G.told gate.old) (G.told gate.new) result }
{
    let size = room(max);
    send_run(writer, gate, buffer, size, context, true, command)?;
    send_run(writer, gate, buffer, size, context, false, body)
}
