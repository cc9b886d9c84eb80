//! How the program ends, and its exit status.

ghost use Rattle.std.specs.Prelude.{◌≡◌};
ghost use Rattle.clap.specs.Values.{kind_of};
ghost use Rattle.upsd.specs.Statuses.{checked_status, exit_code, parse_status, script_status, session_status};

use clap::error::ErrorKind;
use std::alloc::AllocError;
use std::process::ExitCode;
use ups_args::ArgumentFault;
use ups_ledger::Ledger;
use ups_script::ScriptFault;
use ups_server::RanServer;
use ups_session::{End, SessionFault};

/// How the program ends.
#[derive(Clone, Copy, Debug, PartialEq, Eq)]
pub enum ExitStatus {
    /// It did what it was asked to, such as answering an association or a script to its end, or printing its version.
    Done,
    /// The command line is invalid.
    Usage,
    /// It stopped before it was done, such as before the end of an association or a script.
    Stopped,
    /// Memory ran out.
    Memory,
}

impl ExitStatus {
    /// Returns the exit status.
    pub fn code(self) -> u8
        ensures { result ≡ exit_code self }
    {
        match self {
            ExitStatus::Done => 0,
            ExitStatus::Usage => 1,
            ExitStatus::Stopped => 2,
            ExitStatus::Memory => 3,
        }
    }
}

impl From<ExitStatus> for ExitCode {
    ghost use Rattle.std.specs.Process.{exit_status};

    ghost from_gives = { λ status e. exit_status e ≡ exit_code status };

    fn from(status: ExitStatus) -> ExitCode {
        ExitCode::from(status.code())
    }
}

/// Returns how the program ends after an association with this outcome.
pub fn session_status(ended: &Result<End, SessionFault>) -> ExitStatus
    ensures { result ≡ session_status ended.now }
{
    match ended {
        Ok(_) => ExitStatus::Done,
        Err(SessionFault::Memory) => ExitStatus::Memory,
        Err(_) => ExitStatus::Stopped,
    }
}

/// Returns how the program ends after a script with this outcome.
pub fn script_status(ended: &Result<(), ScriptFault>) -> ExitStatus
    ensures { result ≡ script_status ended.now }
{
    match ended {
        Ok(()) => ExitStatus::Done,
        Err(ScriptFault::Memory) => ExitStatus::Memory,
        Err(_) => ExitStatus::Stopped,
    }
}

/// Returns how the program ends if the parser of command lines returns this error: usage and version are errors too.
pub fn parse_status(kind: ErrorKind) -> ExitStatus
    ensures { result ≡ parse_status kind }
{
    match kind {
        ErrorKind::DisplayHelp | ErrorKind::DisplayVersion => ExitStatus::Done,
        ErrorKind::OutOfMemory => ExitStatus::Memory,
        _ => ExitStatus::Usage,
    }
}

/// Returns how the program ends after a server with this result: as stopped if it could not listen.
///
/// Errors: lack of memory, if its threads did not begin.
pub(crate) fn server_status<L: Ledger>(
    left: Option<RanServer<L>>,
) -> Result<ExitStatus, AllocError> {
    let Some(server) = left else {
        return Ok(ExitStatus::Stopped);
    };
    if !server.begun {
        return Err(AllocError);
    }
    Ok(ExitStatus::Done)
}

/// Returns how the program ends after a look at what a start would find.
pub(crate) fn checked_status(can_start: bool) -> ExitStatus
    ensures { result ≡ checked_status can_start }
{
    if can_start {
        ExitStatus::Done
    } else {
        ExitStatus::Stopped
    }
}

/// Prints why the words of a command line are refused, and returns how the program ends.
///
/// Errors: lack of memory, if that is why.
pub(crate) fn refuse<R: Eprint>(
    rt: &R,
    fault: ArgumentFault<'_>,
) -> Result<ExitStatus, AllocError> {
    if fault == ArgumentFault::Memory {
        return Err(AllocError);
    }
    let _ = eprintln!(rt; "upsd: {fault}");
    Ok(ExitStatus::Usage)
}
