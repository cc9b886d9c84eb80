//! The steps that passes claim, and the manager that holds them.

use std::alloc::Global;
use std::io::{self, ErrorKind};
use ups_manager::Manager;
use ups_script::answer_lines;

/// The number of steps.
pub(crate) const STEPS: u32 = 100;

/// The number of seconds for which a finished step is kept.
const KEEP: u32 = 60;

/// The limit of the history in requests.
const HISTORY: u64 = 1_000;

/// The moment of each request: 2024-02-29 12:00:00 UTC.
pub(crate) const NOON: u64 = 1_709_208_000;

/// What a line of a script has after the UID of a step that it creates.
const STEP: &str =
    "00404005=20240229120000 00404041=READY 00741000=SCHEDULED 00741200=MEDIUM 00741204=CT%20READ";

/// Returns the lines of a script that create the steps.
///
/// Errors: lack of memory.
fn creations(alloc: Global) -> io::Result<String> {
    let mut script = String::new(alloc);
    for number in 0..STEPS {
        writeln!(script, "{NOON} SCHED1 create 1.2.3.{number} {STEP}")?;
    }
    Ok(script)
}

/// Makes a manager answer a script.
///
/// Errors: lack of memory.
fn answer(alloc: Global, manager: &mut Manager<Global>, script: &str) -> io::Result<()> {
    let mut lines = script.as_bytes();
    let mut told = Vec::new(alloc);
    match answer_lines(alloc, manager, &mut lines, &mut told, u64::from(STEPS)) {
        Ok(()) => Ok(()),
        Err(_) => Err(io::Error::from(ErrorKind::OutOfMemory)),
    }
}

/// Creates the steps at a manager.
///
/// Errors: lack of memory.
fn create_steps(alloc: Global, manager: &mut Manager<Global>) -> io::Result<()> {
    let script = creations(alloc)?;
    answer(alloc, manager, &script)
}

/// Returns a manager that holds the steps, created by no pass.
///
/// Errors: lack of memory.
pub(crate) fn with_steps(alloc: Global) -> io::Result<Manager<Global>> {
    let Ok(mut manager) = Manager::new(alloc, &[], KEEP, 0, HISTORY) else {
        return Err(io::Error::from(ErrorKind::OutOfMemory));
    };
    create_steps(alloc, &mut manager)?;
    Ok(manager)
}
