//! The options of a course and of a part, which follow its number or its kind.

use crate::lines::{no_course, number_of};
use std::io;
use ups_life::MAX_HISTORY;

/// The maximum number of PDUs read in an association, and of lines in a script, unless an option says otherwise.
const TURNS: u16 = 60_000;

/// The growth that is refused in a course, the limit of the history in requests, whether it has none, and the local time.
#[derive(Clone, Copy, Debug, PartialEq, Eq)]
pub(crate) struct CourseSettings {
    pub(crate) refused: u64,
    pub(crate) history: u64,
    /// Whether the history has no end, so that requests may leave memory. No growth is refused then.
    pub(crate) is_lasting: bool,
    /// In minutes east of UTC.
    pub(crate) offset: i16,
}

impl CourseSettings {
    /// Reads the settings from the first word of a line.
    ///
    /// Errors: InvalidData if the word is not valid.
    pub(crate) fn of(word: &str) -> io::Result<CourseSettings> {
        let (number, options) = word.split_once(',').unwrap_or((word, ""));
        let Ok(refused) = number.parse::<u64>() else {
            return Err(no_course());
        };
        let mut settings = CourseSettings {
            refused,
            history: MAX_HISTORY,
            is_lasting: false,
            offset: 0,
        };
        for option in options.split_terminator(',') {
            settings.set(option)?;
        }
        Ok(settings)
    }

    /// Applies an option.
    fn set(&mut self, option: &str) -> io::Result<()> {
        if option == "lasting" {
            self.is_lasting = true;
            return Ok(());
        }
        if let Some(number) = option.strip_prefix("history=") {
            self.history = u64::from(number_of(number)?);
            return Ok(());
        }
        let number = option.strip_prefix("offset=").unwrap_or("");
        let Ok(offset) = number.parse::<i16>() else {
            return Err(no_course());
        };
        self.offset = offset;
        Ok(())
    }
}

/// The kind of a part.
#[derive(Clone, Copy, Debug, PartialEq, Eq)]
pub(crate) enum ServiceKind {
    /// A peer asks for an association.
    Serve,
    /// This side asks W1 for an association, and sends event reports over it.
    Deliver,
    /// A script is answered.
    Script,
    /// Events are acknowledged, but for the newest.
    Ack,
    /// The plain programs list the steps.
    Plain,
    /// The plain program finds steps.
    Find,
    /// The plain program tells whether a step is due.
    Due,
    /// The row of a step is measured.
    Size,
    /// The events of each peer are counted.
    Counts,
}

impl ServiceKind {
    /// Returns the kind that a word names, or None if it names none.
    fn of(word: &str) -> Option<ServiceKind> {
        match word {
            "serve" => Some(ServiceKind::Serve),
            "deliver" => Some(ServiceKind::Deliver),
            "script" => Some(ServiceKind::Script),
            "ack" => Some(ServiceKind::Ack),
            _ => ServiceKind::of_question(word),
        }
    }

    /// Returns the kind that a word names, of those that ask nothing of the service.
    fn of_question(word: &str) -> Option<ServiceKind> {
        match word {
            "plain" => Some(ServiceKind::Plain),
            "find" => Some(ServiceKind::Find),
            "due" => Some(ServiceKind::Due),
            "size" => Some(ServiceKind::Size),
            "counts" => Some(ServiceKind::Counts),
            _ => None,
        }
    }
}

/// A part without its bytes: its kind, its limits, how its devices fail, and what is reported of it.
#[derive(Clone, Copy, Debug, PartialEq, Eq)]
pub(crate) struct ServicePart {
    pub(crate) kind: ServiceKind,
    /// The maximum number of PDUs or lines to read.
    pub(crate) turns: u16,
    /// The number of bytes that the output accepts.
    pub(crate) room: usize,
    /// Whether the input fails after its bytes instead of ending.
    pub(crate) fails: bool,
    /// Whether each read is interrupted once.
    pub(crate) reads: bool,
    /// Whether each write is interrupted once.
    pub(crate) writes: bool,
    /// Whether the gate gives two moments of 2024-02-29.
    pub(crate) is_timed: bool,
    /// Whether the calls of the gate and the entries are reported.
    pub(crate) is_full: bool,
    /// Whether the events pending for W1 are reported.
    pub(crate) has_pending: bool,
}

impl ServicePart {
    /// Reads a part from a word.
    ///
    /// Errors: InvalidData if the word is not valid.
    pub(crate) fn of(word: &str) -> io::Result<ServicePart> {
        let (kind, options) = word.split_once(',').unwrap_or((word, ""));
        let Some(kind) = ServiceKind::of(kind) else {
            return Err(no_course());
        };
        let mut part = ServicePart {
            kind,
            turns: TURNS,
            room: usize::MAX,
            fails: false,
            reads: false,
            writes: false,
            is_timed: false,
            is_full: false,
            has_pending: false,
        };
        for option in options.split_terminator(',') {
            part.set(option)?;
        }
        Ok(part)
    }

    /// Applies an option.
    fn set(&mut self, option: &str) -> io::Result<()> {
        if self.sets_device(option) || self.sets_telling(option) {
            return Ok(());
        }
        self.limit(option)
    }

    /// Sets how a device fails, or returns false if the option is not about that.
    fn sets_device(&mut self, option: &str) -> bool {
        match option {
            "fails" => self.fails = true,
            "reads" => self.reads = true,
            "writes" => self.writes = true,
            _ => return false,
        }
        true
    }

    /// Sets what the gate gives and what is reported, or returns false if the option is not about that.
    fn sets_telling(&mut self, option: &str) -> bool {
        match option {
            "timed" => self.is_timed = true,
            "full" => self.is_full = true,
            "pending" => self.has_pending = true,
            _ => return false,
        }
        true
    }

    /// Sets the limit that an option gives.
    fn limit(&mut self, option: &str) -> io::Result<()> {
        let (name, number) = option.split_once('=').unwrap_or((option, ""));
        let number = number_of(number)?;
        match name {
            "turns" => self.turns = number,
            "room" => self.room = usize::from(number),
            _ => return Err(no_course()),
        }
        Ok(())
    }
}
