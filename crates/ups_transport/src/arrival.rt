//! How far into a message the bytes received from a peer go.

use crate::requests::CommandListener;
use ups_pdu::{PduKind, be_u32_at};

/// The number of bytes in the header of a PDU: its type, a reserved byte and its length (PS3.8 section 9.3.1). The
/// header of a PDV in a P-DATA-TF has as many: its length, its presentation context and its message control header
/// (PS3.8 section 9.3.5.1 and annex E.2).
const HEAD: usize = 6;

/// The positions of the message control header in the header of a PDV, and of the length in that of a PDU.
const CONTROL_AT: usize = 5;

const LENGTH_AT: usize = 2;

/// The number of bytes in the header of a PDV that its length includes.
const COUNTED: usize = 2;

/// The bits of a message control header for a fragment of a command, and for the last fragment of a command or data
/// set.
const COMMAND: u8 = 1;

const LAST: u8 = 2;

/// How far into a message the received bytes go. A command that announces a data set is a message with it, so a peer that
/// pauses between the two pauses inside a message. Only the time limits depend on it.
#[derive(Clone, Copy)]
pub(crate) struct Arrival {
    /// The header that is being received, of a PDU or of a PDV.
    head: [u8; HEAD],
    /// The number of bytes of the header that were received.
    come: usize,
    /// The number of bytes still to come of the fragment, or of a PDU without PDVs.
    body: usize,
    /// The number of bytes of the P-DATA-TF still to come after the fragment.
    behind: usize,
    /// Whether the message ends with the rest of the fragment or the PDU.
    is_last: bool,
    /// Whether the fragment belongs to a command.
    is_command: bool,
    /// Whether the last command announces a data set.
    is_announced: bool,
}

impl Arrival {
    /// Creates the state before the first byte.
    pub(crate) fn new() -> Arrival {
        Arrival {
            head: [0; HEAD],
            come: 0,
            body: 0,
            behind: 0,
            is_last: true,
            is_command: false,
            is_announced: false,
        }
    }

    /// Returns whether each message that has begun is complete.
    pub(crate) fn is_between(&self) -> bool {
        self.is_whole() && !(self.is_command && self.is_announced)
    }

    // Returns whether each command, data set and PDU that has begun is complete.
    fn is_whole(&self) -> bool {
        self.is_last && self.come == 0 && self.body == 0 && self.behind == 0
    }

    // Returns whether a command is complete, and nothing has come after it.
    fn is_at_end_of_command(&self) -> bool {
        self.is_command && self.is_last && self.come == 0 && self.body == 0
    }

    /// Takes received bytes, and returns whether a command, a data set or another PDU ends among them. The listener learns
    /// of the commands.
    pub(crate) fn take<C: CommandListener>(&mut self, bytes: &[u8], listener: &mut C) -> bool {
        let mut left = bytes;
        let mut is_ended = false;
        for _ in 0..bytes.len() {
            if left.is_empty() {
                break;
            }
            left = self.step_heard(left, listener);
            is_ended = is_ended || self.is_whole();
        }
        is_ended
    }

    // Takes a step, of which the listener learns if it is one in a command. Returns the bytes that follow.
    fn step_heard<'b, C: CommandListener>(
        &mut self,
        bytes: &'b [u8],
        listener: &mut C,
    ) -> &'b [u8] {
        let is_inside = self.is_command && self.body > 0;
        let rest = self.step(bytes);
        let is_complete = self.is_at_end_of_command();
        if is_inside {
            let count = bytes.len().saturating_sub(rest.len());
            self.is_announced = listener.hear(bytes.get(..count).unwrap_or(&[]), is_complete);
        } else if is_complete {
            self.is_announced = listener.hear(&[], true);
        }
        rest
    }

    // Takes a header, one byte of it or the available bytes of a body, and returns the bytes that follow.
    fn step<'b>(&mut self, bytes: &'b [u8]) -> &'b [u8] {
        if self.body > 0 {
            let count = self.body.min(bytes.len());
            self.body -= count;
            return bytes.get(count..).unwrap_or(&[]);
        }
        match bytes {
            [first, second, third, fourth, fifth, sixth, rest @ ..] if self.come == 0 => {
                self.head = [*first, *second, *third, *fourth, *fifth, *sixth];
                self.open();
                rest
            }
            _ => self.step_in_header(bytes),
        }
    }

    // Takes one byte of a header, and returns the bytes that follow.
    #[cold]
    fn step_in_header<'b>(&mut self, bytes: &'b [u8]) -> &'b [u8] {
        if let (Some(place), Some(byte)) = (self.head.get_mut(self.come), bytes.first()) {
            *place = *byte;
        }
        self.come = self.come.saturating_add(1);
        if self.come >= HEAD {
            self.come = 0;
            self.open();
        }
        bytes.get(1..).unwrap_or(&[])
    }

    // Interprets a complete header.
    fn open(&mut self) {
        if self.behind > 0 {
            self.open_fragment();
        } else {
            self.open_pdu();
        }
    }

    // Interprets the header of a PDU. A message needs more than the header of a P-DATA-TF; any other PDU is a message.
    fn open_pdu(&mut self) {
        let length = self.length_at(LENGTH_AT);
        let is_data = self.head[0] == PduKind::Data.code();
        self.is_last = !is_data;
        self.is_command = false;
        if is_data {
            self.behind = length;
        } else {
            self.body = length;
        }
    }

    // Interprets the header of a PDV.
    fn open_fragment(&mut self) {
        self.body = self.length_at(0).saturating_sub(COUNTED);
        self.behind = self.behind.saturating_sub(HEAD).saturating_sub(self.body);
        self.is_last = self.head[CONTROL_AT] & LAST != 0;
        self.is_command = self.head[CONTROL_AT] & COMMAND != 0;
    }

    // Returns the length at `place` in the header.
    fn length_at(&self, place: usize) -> usize {
        match be_u32_at(self.head.get(place..).unwrap_or(&[])) {
            Some((length, _)) => length as usize,
            None => 0,
        }
    }
}
