//! The command line as a whole.

use crate::compact::compact_command;
use crate::history::history_command;
use crate::init::init_command;
use crate::pipe::pipe_command;
use crate::script::script_command;
use crate::server::serve_command;
use clap::Command;
use std::alloc::{AllocError, Global};

/// The version of `upsd`. Its implementation version name (`ups_assoc::version_name`) does not follow it.
pub const VERSION: &str = "0.3.0";

/// The commit that the program was built from, and whether all of it was proved. `packaging/build` puts the true text, of the
/// same length, in the place of this one in a program that was proved; so this one stands once in a program, and nothing but
/// printing depends on it.
const PROVENANCE: &str = "commit 0000000000000000000000000000000000000000, not proved";

/// Returns the commit that the program was built from, and whether all of it was proved.
pub fn provenance() -> &'static str {
    PROVENANCE
}

/// Adds a subcommand, unless memory ran out while it was made.
fn with_command<'a>(
    command: Command<'a>,
    other: Result<Command<'a>, AllocError>,
) -> Result<Command<'a>, AllocError> {
    command.subcommand(other?)
}

/// Returns the command line of `upsd`, with the subcommands `pipe`, `script`, `serve`, `init`, `compact` and
/// `history`.
///
/// # Errors
///
/// Lack of memory.
pub fn command<'a>(alloc: Global) -> Result<Command<'a>, AllocError> {
    let command = Command::new(alloc, "upsd")
        .version(VERSION)
        .about("a DICOM Unified Procedure Step manager")
        .subcommand_required(true);
    let command = with_command(command, pipe_command(alloc))?;
    let command = with_command(command, script_command(alloc))?;
    let command = with_command(command, serve_command(alloc))?;
    let command = with_command(command, init_command(alloc))?;
    let command = with_command(command, compact_command(alloc))?;
    with_command(command, history_command(alloc))
}
