//! The outcome of the passes of a desk, and what is told of it.

use crate::claims::Claims;
use std::alloc::Global;
use std::io;
use ups_life::Entry;
use ups_manager::Manager;

/// The outcome of the passes of a desk.
#[derive(Drop)]
pub(crate) struct RaceOutcome {
    /// The claims of each pass, in the order of the passes.
    pub(crate) claims: Vec<Claims>,
    /// The number of entries that the last pass has seen, once it has met all others.
    pub(crate) met: u64,
    /// What the passes shared.
    pub(crate) manager: Manager<Global>,
}

/// Returns the number of entries of a caller: the number of a pass, or 0 for the entries that no pass made.
fn count_of(history: &[Entry<Global>], caller: u32) -> u64 {
    let mut count: u64 = 0;
    for entry in history {
        if entry.caller == caller {
            count = count.wrapping_add(1);
        }
    }
    count
}

/// Prints how the claims of all passes were answered.
///
/// Errors: those of the output.
fn tell_sums<R: Print>(rt: &R, claims: &[Claims]) -> io::Result<()> {
    let mut accepted: u64 = 0;
    let mut refused: u64 = 0;
    let mut other: u64 = 0;
    for one in claims {
        accepted = accepted.wrapping_add(one.accepted);
        refused = refused.wrapping_add(one.refused);
        other = other.wrapping_add(one.other);
    }
    println!(rt; "claims: {accepted} accepted, {refused} refused, {other} answered otherwise")
}

/// Prints whether a pass has as many entries as it had claims accepted.
///
/// Errors: those of the output.
fn tell_pass<R: Print>(rt: &R, claims: Claims, entries: u64) -> io::Result<()> {
    let Claims { pass, accepted, .. } = claims;
    if entries == accepted {
        return println!(rt; "pass {pass}: as many entries as accepted claims");
    }
    println!(rt; "pass {pass}: {entries} entries, and {accepted} accepted claims")
}

/// Prints the outcome of the passes of a desk, and what the history then has.
///
/// Errors: those of the output.
pub(crate) fn tell_outcome<R: Print>(rt: &R, outcome: &RaceOutcome) -> io::Result<()> {
    let history = outcome.manager.history();
    println!(rt; "passes: {}", outcome.claims.len())?;
    tell_sums(rt, &outcome.claims)?;
    println!(rt; "seen once they met: {} entries", outcome.met)?;
    println!(rt;
        "history: {} entries, {} of no pass",
        history.len(),
        count_of(history, 0)
    )?;
    for one in &outcome.claims {
        tell_pass(rt, *one, count_of(history, one.pass))?;
    }
    Ok(())
}
