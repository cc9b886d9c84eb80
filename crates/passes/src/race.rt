//! Passes that claim the same steps at the same time.

ghost use Rattle.std.specs.Prelude.{◌≡◌, All, IfOk};

use crate::claims::{Claims, claim_all};
use crate::outcome::RaceOutcome;
use std::alloc::{AllocError, Global};
use std::io::{self, ErrorKind};
use std::sync::Wait;
use std::thread::{Threads, map_vec};
use ups_manager::Manager;
use ups_pdu::Ae;
use ups_turn::{Desk, DeskFault, Pass};

/// The passes of a desk once they have claimed each step, and met.
#[derive(Drop)]
struct Raced {
    /// The passes, of which the last has met all others.
    passes: Vec<Pass<Manager<Global>, Global>>,
    /// The claims of each pass, in the order of the passes.
    claims: Vec<Claims>,
    /// The number of entries that the last pass has then seen.
    met: u64,
}

/// Makes each pass claim each step at the same time, each in its own thread, and returns the passes with their claims.
///
/// Errors: lack of memory.
fn race<R: Threads + Wait + Sync>(
    rt: &R,
    alloc: Global,
    desk: &Desk<Manager<Global>, Global>,
    passes: Vec<Pass<Manager<Global>, Global>>,
    ae: Ae,
) -> Result<Vec<(Pass<Manager<Global>, Global>, Claims)>, AllocError>
    requires here { All (λ p. p.table ≡ desk.now.table) passes.items }
    ensures here { IfOk result (λ done. All (λ d. d.0.table ≡ desk.now.table) done.items) }
{
    map_vec(
        rt,
        passes,
        &|pass| -> (Pass<Manager<Global>, Global>, Claims)
            requires { pass.table ≡ desk.now.table }
            ensures { result.0.table ≡ desk.entry.now.table }
        { claim_all(rt, alloc, desk, pass, ae) },
    )
}

/// Returns the claims of each pass.
///
/// Errors: lack of memory.
fn claims_of(
    alloc: Global,
    done: &[(Pass<Manager<Global>, Global>, Claims)],
) -> Result<Vec<Claims>, AllocError> {
    let mut claims = Vec::new(alloc);
    for one in done {
        claims.push(one.1)?;
    }
    Ok(claims)
}

/// Makes the last pass meet each other one. Returns the passes, and the number of entries that the last one has then
/// seen.
///
/// Errors: lack of memory.
fn meet_all(
    alloc: Global,
    desk: &Desk<Manager<Global>, Global>,
    mut done: Vec<(Pass<Manager<Global>, Global>, Claims)>,
) -> Result<(Vec<Pass<Manager<Global>, Global>>, u64), AllocError>
    requires here { All (λ d. d.0.table ≡ desk.now.table) done.items }
    ensures here { IfOk result (λ r. All (λ p. p.table ≡ desk.now.table) r.0.items) }
{
    let mut passes = Vec::with_capacity(alloc, done.len())?;
    let Some((mut last, _)) = done.pop() else {
        return Ok((passes, 0));
    };
    for one in done {
        let (mut pass, _) = one;
        desk.meet(&mut pass, &mut last);
        passes.push_reserved(pass);
    }
    let seen = last.seen();
    passes.push_reserved(last);
    Ok((passes, seen))
}

/// Makes the passes of a desk claim each step at the same time, and meet, and returns them with their claims.
///
/// Errors: lack of memory.
fn race_and_meet<R: Threads + Wait + Sync>(
    rt: &R,
    alloc: Global,
    ae: Ae,
    desk: &Desk<Manager<Global>, Global>,
    passes: Vec<Pass<Manager<Global>, Global>>,
) -> Result<Raced, AllocError>
    requires here { All (λ p. p.table ≡ desk.now.table) passes.items }
    ensures here { IfOk result (λ it. All (λ p. p.table ≡ desk.now.table) it.passes.items) }
{
    let done = race(rt, alloc, desk, passes, ae)?;
    let claims = claims_of(alloc, &done)?;
    let (passes, met) = meet_all(alloc, desk, done)?;
    Ok(Raced {
        passes,
        claims,
        met,
    })
}

/// Makes the passes of a desk claim each step at the same time, and meet, then closes the desk, and returns the outcome.
///
/// Errors: InvalidInput if these are not all of its passes; lack of memory.
fn outcome_at<R: Threads + Wait + Sync>(
    rt: &R,
    alloc: Global,
    ae: Ae,
    desk: Desk<Manager<Global>, Global>,
    passes: Vec<Pass<Manager<Global>, Global>>,
) -> io::Result<RaceOutcome>
    requires here { All (λ p. p.table ≡ desk.table) passes.items }
{
    let Raced {
        passes,
        claims,
        met,
    } = race_and_meet(rt, alloc, ae, &desk, passes)?;
    match desk.close(passes) {
        Ok(manager) => Ok(RaceOutcome {
            claims,
            met,
            manager,
        }),
        Err(_) => Err(io::Error::from(ErrorKind::InvalidInput)),
    }
}

/// Returns why no desk was opened: InvalidInput if none has so many passes, or lack of memory.
fn unopened(fault: DeskFault) -> io::Error {
    match fault {
        DeskFault::BadSeats => io::Error::from(ErrorKind::InvalidInput),
        DeskFault::Memory => io::Error::from(ErrorKind::OutOfMemory),
    }
}

/// The same with a new desk with this number of seats.
///
/// Errors: InvalidInput if no desk has so many; lack of memory.
pub(crate) fn outcome_over<R: Threads + Wait + Sync>(
    rt: &R,
    alloc: Global,
    ae: Ae,
    manager: Manager<Global>,
    seats: u32,
) -> io::Result<RaceOutcome> {
    match Desk::open(alloc, manager, seats) {
        Ok((desk, passes)) => outcome_at(rt, alloc, ae, desk, passes),
        Err((_, fault)) => Err(unopened(fault)),
    }
}
