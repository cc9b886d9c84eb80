//! An association that a peer requested, as the log sees it.

use crate::failures::is_failure;
use crate::first_bytes::FirstBytes;
use crate::journal::{
    Because, Overrun, Time, name_with, operation_of, reason_in, reason_of, title_of, warn_of,
};
use crate::kinds::{ACTION_RESPONSE, RequestKind};
use crate::tally::Tally;
use log::{Level, Log, info, log, warn};
use std::alloc::Global;
use std::cell::{Cell, RefCell};
use std::net::SocketAddr;
use std::time::{Clock, Duration, Instant};
use std::{fmt, str};
use ups_dataset::Tag;
use ups_dimse::{Command, HEADER_LEN, ResponseCommand, STATUS, read_command};
use ups_pdu::{Ae, PduKind, calling_title};
use ups_session::{End, SessionFault};

/// The start and the end of the called AE title in an A-ASSOCIATE-RQ (PS3.8 table 9-11).
const CALLED_FROM: usize = 10;

const CALLED_TO: usize = 26;

/// The positions of the message control header and of the fragment after it, in a P-DATA-TF with one PDV (PS3.8 section
/// 9.3.5.1 and annex E.2).
const CONTROL_AT: usize = 11;

const FRAGMENT_AT: usize = 12;

/// The message control headers of a command fragment that is not the last one, and of the last one.
const MORE_OF_COMMAND: u8 = 1;

const END_OF_COMMAND: u8 = 3;

/// The status of a response that others to the same request follow (PS3.4 section C.4.1.1.4).
const PENDING: u16 = 0xff00;

/// The numbers of Command Field and Action Type ID in a command set (PS3.7 annex E.1).
const COMMAND_FIELD: u16 = 0x0100;

const ACTION_TYPE: u16 = 0x1008;

/// Returns the number in an element of a command set, or None if it has none. What follows is not read.
fn number_in(command: &[u8], element: u16) -> Option<u16> {
    let mut rest = command;
    while rest.len() >= HEADER_LEN {
        let (header, after) = rest.split_at(HEADER_LEN);
        let number = u16::from_le_bytes([header[2], header[3]]);
        let len = u16::from_le_bytes([header[4], header[5]]) as usize;
        let value = after.get(..len)?;
        if number == element {
            return Some(u16::from_le_bytes([*value.first()?, *value.get(1)?]));
        }
        rest = &after[len..];
    }
    None
}

/// Returns the kind of the request that a response answers, by its command set. The rest is not read.
fn kind_in(command: &[u8]) -> RequestKind {
    let field = number_in(command, COMMAND_FIELD).unwrap_or(0);
    if field == ACTION_RESPONSE {
        return RequestKind::of_action(number_in(command, ACTION_TYPE).unwrap_or(0));
    }
    RequestKind::of(field)
}

/// Returns the called AE title from the beginning of an A-ASSOCIATE-RQ, or None if the bytes encode none (PS3.8 section
/// 9.3.2).
#[cold]
fn called_title(beginning: &[u8]) -> Option<Ae> {
    if beginning.first() != Some(&PduKind::AssociateRq.code()) {
        return None;
    }
    Ae::of(beginning.get(CALLED_FROM..CALLED_TO)?)
}

/// The cause of the end of an association, as a log line shows it.
#[derive(Clone, Copy)]
struct Cause {
    /// The called AE title.
    called: Option<Ae>,
    reason: Because,
}

impl fmt::Display for Cause {
    fn fmt<W: fmt::Write>(&self, f: &mut fmt::Formatter<W>) -> fmt::Result {
        if let Some(called) = self.called {
            write!(f, ", it called {}", title_of(&called))?;
        }
        write!(f, "{}", self.reason)
    }
}

/// An association that a peer requested: its number, who requested it and from where, how many requests were answered,
/// and which limit the peer ran into. It learns these from the bytes that are read and sent. Only the log depends on
/// it.
#[derive(Drop)]
pub struct Account<'a> {
    /// The number of the association, 1 for the first one since the start.
    number: u64,
    /// The address of the peer.
    address: SocketAddr,
    /// When the association began, if the clock works.
    begun: Option<Instant>,
    /// Whether each answer is logged.
    is_verbose: bool,
    /// The counts of the server.
    tally: &'a Tally,
    alloc: Global,
    /// The first bytes that were read.
    first: RefCell<FirstBytes>,
    /// How lines name the association, once its calling AE title is known: they are many, and the text stays the same.
    name: RefCell<String>,
    /// The calling AE title, if it is known, and the called one.
    calling: Cell<Option<Ae>>,
    called: Cell<Option<Ae>>,
    /// Whether the association request was answered.
    is_answered: Cell<bool>,
    /// The number of requests that were answered.
    requests: Cell<u64>,
    /// The limit that the peer ran into.
    overrun: Cell<Option<Overrun>>,
    /// The source and the reason for which this side rejected or aborted the association.
    reason: Cell<Option<(u8, u8)>>,
    /// The fragments of a command that is not complete yet.
    command: RefCell<Vec<u8>>,
    /// The last pending response. A C-FIND sends the same one for each match, so the others are not parsed.
    pending: RefCell<Vec<u8>>,
}

impl<'a> fmt::Display for Account<'a> {
    fn fmt<W: fmt::Write>(&self, f: &mut fmt::Formatter<W>) -> fmt::Result {
        match self.name.try_borrow() {
            Ok(name) if !name.is_empty() => f.write_str(name.as_str()),
            _ => self.write_name(f),
        }
    }
}

impl<'a> Account<'a> {
    /// Creates the account of an association that begins now, and counts it in `tally`.
    pub fn new<R: Clock>(
        rt: &R,
        alloc: Global,
        number: u64,
        address: SocketAddr,
        is_verbose: bool,
        tally: &'a Tally,
    ) -> Account<'a> {
        tally.add_association();
        Account {
            number,
            address,
            begun: Instant::now(rt).ok(),
            is_verbose,
            tally,
            alloc,
            first: RefCell::new(FirstBytes::new()),
            name: RefCell::new(String::new(alloc)),
            calling: Cell::new(None),
            called: Cell::new(None),
            is_answered: Cell::new(false),
            requests: Cell::new(0),
            overrun: Cell::new(None),
            reason: Cell::new(None),
            command: RefCell::new(Vec::new(alloc)),
            pending: RefCell::new(Vec::new(alloc)),
        }
    }

    /// Learns the calling and the called AE title from the first bytes that are read, in however many reads they come.
    /// Later bytes name nobody.
    pub fn hear(&self, bytes: &[u8]) {
        if self.is_answered.get() {
            return;
        }
        let Ok(mut first) = self.first.try_borrow_mut() else {
            return;
        };
        if first.add(bytes) {
            self.called.set(called_title(first.as_slice()));
            self.calling.set(calling_title(first.as_slice()));
            self.keep_name();
        }
    }

    /// Learns the title under which the service answers the peer: later lines name the association by it.
    pub fn know(&self, ae: Ae) {
        if self.calling.get() != Some(ae) {
            self.calling.set(Some(ae));
            self.keep_name();
        }
    }

    /// Writes how lines name the association: its number, and the title and the address of the peer.
    fn write_name<W: fmt::Write>(&self, f: &mut fmt::Formatter<W>) -> fmt::Result {
        let number = self.number;
        let address = self.address;
        match self.calling.get() {
            Some(ae) => write!(f, "#{number} {} {address}", title_of(&ae)),
            None => write!(f, "#{number} - {address}"),
        }
    }

    /// Keeps the name for the lines to come, if the calling AE title is known. If memory runs out, each line makes it anew.
    #[cold]
    fn keep_name(&self) {
        let Ok(mut name) = self.name.try_borrow_mut() else {
            return;
        };
        name.clear();
        if self.calling.get().is_some()
            && let Ok(text) = format!(in self.alloc; "{self}")
        {
            *name = text;
        }
    }

    /// Notes how long it took from a read to the first bytes of the answer.
    pub fn note_time(&self, time: Duration) {
        self.tally.add_time(time);
    }

    /// Notes which limit the peer ran into, if any.
    pub fn note_overrun(&self, overrun: Option<Overrun>) {
        self.overrun.set(overrun);
    }

    /// Learns from a PDU that is sent how the peer is answered, and may log the answer.
    pub fn note<R: Log>(&self, rt: &R, alloc: Global, pdu: &[u8]) {
        let Some(code) = pdu.first() else {
            return;
        };
        if *code == PduKind::Data.code() {
            self.note_data(rt, alloc, pdu);
        } else if *code == PduKind::AssociateAc.code() {
            self.is_answered.set(true);
            if self.is_verbose {
                info!(rt; target: "upsd", "serve: accepted {self}");
            }
        } else if *code == PduKind::AssociateRj.code() {
            self.is_answered.set(true);
            self.reason.set(reason_in(pdu));
        } else if *code == PduKind::Abort.code() {
            self.reason.set(reason_in(pdu));
        }
    }

    /// Learns from a P-DATA-TF, which has one PDV since this side sends it.
    fn note_data<R: Log>(&self, rt: &R, alloc: Global, pdu: &[u8]) {
        let Ok(mut command) = self.command.try_borrow_mut() else {
            return;
        };
        let control = pdu.get(CONTROL_AT).copied().unwrap_or(0);
        let fragment = pdu.get(FRAGMENT_AT..).unwrap_or(&[]);
        if control == MORE_OF_COMMAND {
            let _ = command.extend_from_slice(fragment);
        } else if control == END_OF_COMMAND && command.is_empty() {
            self.note_command(rt, alloc, fragment);
        } else if control == END_OF_COMMAND {
            let _ = command.extend_from_slice(fragment);
            self.note_command(rt, alloc, command.as_slice());
            command.clear();
        }
    }

    /// Learns from a command that is sent, unless it equals the pending response that was sent last.
    fn note_command<R: Log>(&self, rt: &R, alloc: Global, bytes: &[u8]) {
        let Ok(mut pending) = self.pending.try_borrow_mut() else {
            return;
        };
        if pending.as_slice() == bytes {
            return;
        }
        let Some(status) = number_in(bytes, STATUS) else {
            return;
        };
        if status == PENDING {
            pending.clear();
            let _ = pending.extend_from_slice(bytes);
        } else {
            self.note_response(rt, alloc, status, bytes);
        }
    }

    /// Returns the title and address of the peer, or None if memory runs out.
    #[cold]
    fn peer(&self, alloc: Global) -> Option<String> {
        let address = self.address.ip();
        match self.calling.get() {
            Some(ae) => format!(in alloc; "{} {address}", title_of(&ae)).ok(),
            None => format!(in alloc; "- {address}").ok(),
        }
    }

    /// Learns of a query with a sequence that was read as bytes, and may warn of it: once a minute for each peer.
    #[cold]
    pub fn note_unread<R: Log>(&self, rt: &R, alloc: Global, tag: Tag) {
        if self.tally.add_unread(self.peer(alloc)) {
            let Tag { group, element } = tag;
            warn!(rt; target: "upsd", "serve: C-FIND {self}, ({group:04X},{element:04X}) came as UN and matches only as a whole value: propose Explicit VR");
        }
    }

    /// Counts a response that answers a request, and may log it: only then is all of it read.
    fn note_response<R: Log>(&self, rt: &R, alloc: Global, status: u16, bytes: &[u8]) {
        self.requests.set(self.requests.get().saturating_add(1));
        let kind = kind_in(bytes);
        self.tally.add_request(kind);
        let is_refused = is_failure(status);
        let is_told = is_refused && self.tally.add_refusal(kind, status, self.peer(alloc));
        if self.is_verbose || is_told {
            let level = if is_refused { Level::Warn } else { Level::Info };
            self.tell_command(rt, alloc, level, bytes);
        }
    }

    /// Logs a request by the command set of its response.
    #[cold]
    fn tell_command<R: Log>(&self, rt: &R, alloc: Global, level: Level, bytes: &[u8]) {
        let Ok(command) = read_command(alloc, bytes) else {
            return;
        };
        if let Command::Response(response) = &command {
            self.tell_response(rt, level, response);
        }
    }

    /// Logs a request by its response: the operation, the step and the status.
    fn tell_response<R: Log>(&self, rt: &R, level: Level, response: &ResponseCommand) {
        let (operation, step) = operation_of(&response.result);
        let status = response.status;
        match &step {
            Some(uid) => {
                let step = str::from_utf8(uid.as_bytes()).unwrap_or("");
                log!(rt; target: "upsd", level, "serve: {operation} {self}, {step}, {status:04X}");
            }
            None => log!(rt; target: "upsd", level, "serve: {operation} {self}, {status:04X}"),
        }
    }

    /// Returns how long the association has taken.
    fn elapsed<R: Clock>(&self, rt: &R) -> Duration {
        match self.begun {
            Some(begun) => begun.elapsed(rt).unwrap_or(Duration::ZERO),
            None => Duration::ZERO,
        }
    }

    /// Returns the cause to log for the end of the association, with the called AE title if it was rejected.
    fn cause(&self, ended: &Result<End, SessionFault>) -> Cause {
        let called = match ended {
            Ok(End::Rejected) => self.called.get(),
            _ => None,
        };
        Cause {
            called,
            reason: reason_of(ended, self.reason.get()),
        }
    }

    /// Logs how the association ended.
    pub fn tell_end<R: Clock + Log>(&self, rt: &R, ended: &Result<End, SessionFault>) {
        let name = name_with(ended, self.overrun.get());
        let cause = self.cause(ended);
        let requests = self.requests.get();
        let time = Time(self.elapsed(rt));
        info!(rt; target: "upsd", "serve: {name} {self}{cause}, {requests} requests, {time}");
        warn_of(rt, ended);
    }
}
