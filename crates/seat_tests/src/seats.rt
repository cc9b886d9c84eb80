ghost use Rattle.std.specs.Prelude.{◌≡◌, All};

use fixtures::rows::check_same;
use fixtures::{Refusing, a_step, title, uid};
use std::alloc::{Allocator, Global};
use std::sync::Wait;
use std::test::Fail;
use ups_cycle::StepState;
use ups_life::{Ask, Reply, Request, StepUid, Transaction};
use ups_manager::Manager;
use ups_pdu::Ae;
use ups_service::{Service, SharedService};
use ups_turn::{CloseFault, Desk, DeskFault, Pass};

/// The moment of each request: 2024-02-29 12:00:00 UTC.
const NOON: u64 = 1_709_208_000;

/// Returns the step.
pub(crate) fn step() -> Result<StepUid, Fail> {
    Ok(StepUid::of(uid("1.2.3.1")?).ok_or("a step")?)
}

/// Returns the request that creates the step.
pub(crate) fn creation<A: Allocator + Copy>(alloc: A) -> Result<Request<A>, Fail> {
    Ok(Request::Create {
        step: step()?,
        attributes: a_step(alloc)?,
    })
}

/// Returns the request that claims the step, with a Transaction UID.
fn claim(transaction: &str) -> Result<Request<Global>, Fail> {
    Ok(Request::Change {
        step: Some(step()?),
        state: StepState::InProgress,
        transaction: Transaction::Proper(uid(transaction)?),
    })
}

/// Makes a request at a pass, and returns the number of the status, or FFFF for any other reply.
fn answered<M: SharedService<Global>, R: Wait>(
    rt: &R,
    desk: &Desk<M, Global>,
    pass: &mut Pass<M, Global>,
    ae: Ae,
    request: Request<Global>,
) -> u16
    requires here { pass.old.table ≡ desk.now.table }
    ensures stays { pass.new.table ≡ pass.old.table }
{
    match desk
        .at(rt, pass)
        .answer(ae, NOON, &mut Some(Ask::Do(request)))
    {
        Reply::Status(status) => status.code(),
        _ => 0xffff,
    }
}

/// Returns the statuses of the step's creation by one pass, its claim by the other, and its claim by the first.
fn statuses<M: SharedService<Global>, R: Wait>(
    rt: &R,
    alloc: Global,
    desk: &Desk<M, Global>,
    one: &mut Pass<M, Global>,
    two: &mut Pass<M, Global>,
) -> Result<(u16, u16, u16), Fail>
    requires one { one.old.table ≡ desk.now.table }
    requires two { two.old.table ≡ desk.now.table }
    ensures one { one.new.table ≡ one.old.table }
    ensures two { two.new.table ≡ two.old.table }
{
    let ae = title("PERFORM1")?;
    let created = answered(rt, desk, one, ae, creation(alloc)?);
    let claimed = answered(rt, desk, two, ae, claim("2.2")?);
    let refused = answered(rt, desk, one, ae, claim("2.1")?);
    Ok((created, claimed, refused))
}

/// Closes a desk with all of its passes, and returns what they share.
fn closed<M: SharedService<Global>>(
    desk: Desk<M, Global>,
    passes: Vec<Pass<M, Global>, Global>,
) -> Result<M, Fail>
    requires here { All (λ p. p.table ≡ desk.table) passes.items }
{
    match desk.close(passes) {
        Ok(shared) => Ok(shared),
        Err(_) => Err("not closed".into()),
    }
}

/// Closes a desk without its last pass, and then with it; returns why the first attempt was refused, and what the
/// passes share.
fn closed_late<M: SharedService<Global>>(
    desk: Desk<M, Global>,
    passes: Vec<Pass<M, Global>, Global>,
    last: Pass<M, Global>,
) -> Result<(CloseFault, M), Fail>
    requires here { All (λ p. p.table ≡ desk.table) passes.items }
    requires last { last.table ≡ desk.table }
{
    let Err((desk, mut passes, fault)) = desk.close(passes) else {
        return Err("closed".into());
    };
    passes.push(last)?;
    Ok((fault, closed(desk, passes)?))
}

/// The outcome of two passes: the statuses that they get, the number of entries that both have seen once they met, and
/// why the desk did not close without one of them.
#[derive(Clone, Copy)]
struct Outcome {
    statuses: (u16, u16, u16),
    met: u64,
    fault: CloseFault,
}

/// Makes two passes of a desk call and meet, and closes the desk.
fn outcome_at<M: SharedService<Global>, R: Wait>(
    rt: &R,
    alloc: Global,
    desk: Desk<M, Global>,
    mut one: Pass<M, Global>,
    mut two: Pass<M, Global>,
) -> Result<(Outcome, M), Fail>
    requires one { one.table ≡ desk.table }
    requires two { two.table ≡ desk.table }
{
    let statuses = statuses(rt, alloc, &desk, &mut one, &mut two)?;
    let met = desk.meet(&mut one, &mut two);
    let mut passes = Vec::new(alloc);
    passes.push(one)?;
    let (fault, shared) = closed_late(desk, passes, two)?;
    let outcome = Outcome {
        statuses,
        met,
        fault,
    };
    Ok((outcome, shared))
}

/// The same with a new desk of two seats.
fn outcome_over<M: SharedService<Global>, R: Wait>(
    rt: &R,
    alloc: Global,
    shared: M,
) -> Result<(Outcome, M), Fail> {
    let Ok((desk, mut passes)) = Desk::open(alloc, shared, 2) else {
        return Err("not opened".into());
    };
    let Some(two) = passes.pop() else {
        return Err("no pass".into());
    };
    let Some(one) = passes.pop() else {
        return Err("no pass".into());
    };
    outcome_at(rt, alloc, desk, one, two)
}

/// Returns the callers of a history.
fn callers_of(alloc: Global, manager: &Manager<Global>) -> Result<Vec<u32, Global>, Fail> {
    let mut callers = Vec::new(alloc);
    for entry in manager.history() {
        callers.push(entry.caller)?;
    }
    Ok(callers)
}

/// Returns the outcome of two passes with a new manager, and the callers of its history.
fn outcome_of_two<R: Wait>(rt: &R, alloc: Global) -> Result<(Outcome, Vec<u32, Global>), Fail> {
    let manager = Manager::new(alloc, &[], 60, 0, 1_000)?;
    let (outcome, manager) = outcome_over(rt, alloc, manager)?;
    Ok((outcome, callers_of(alloc, &manager)?))
}

#[test]
fn a_step_that_one_pass_has_claimed_is_refused_to_the_other(rt: HostRuntime) -> Result<(), Fail> {
    let (outcome, callers) = outcome_of_two(&rt, rt.alloc())?;
    assert_eq!(rt; outcome.statuses, (0x0000, 0x0000, 0xC302));
    assert_eq!(rt; outcome.met, 2);
    assert_eq!(rt; outcome.fault, CloseFault::Missing);
    assert_eq!(rt; callers.as_slice(), [1, 2].as_slice());
    Ok(())
}

/// Enters a request of the caller 0.
pub(crate) fn enter<A: Allocator + Copy, M: SharedService<A>>(
    shared: &mut M,
    ae: Ae,
    request: Request<A>,
) {
    let _ = shared.answer_as(0, ae, NOON, &mut Some(Ask::Do(request)));
}

/// Returns a manager that holds the step.
fn with_a_step<A: Allocator + Copy>(alloc: A) -> Result<Manager<A>, Fail> {
    let ae = title("SCHED1")?;
    let request = creation(alloc)?;
    let mut manager = Manager::new(alloc, &[], 60, 0, 1_000)?;
    enter(&mut manager, ae, request);
    Ok(manager)
}

/// Opens a desk over what passes are to share, which has one entry, and returns the outcome: it opens, or `shared` is
/// returned unchanged with a fault.
fn opening<A: Allocator + Copy, M: SharedService<A>>(
    alloc: A,
    shared: M,
    seats: u32,
) -> &'static str {
    match Desk::open(alloc, shared, seats) {
        Ok(_) => "opens",
        Err((shared, fault)) => match (shared.entries(), fault) {
            (1, DeskFault::BadSeats) => "BadSeats",
            (1, DeskFault::Memory) => "Memory",
            _ => "changed",
        },
    }
}

/// Opens a desk of two seats with each growth refused in turn, and returns the outcomes by the number of the growth.
fn openings_in_turn(alloc: Global) -> Result<String, Fail> {
    let heap = Refusing::new(alloc);
    let mut told = String::new(alloc);
    for growth in 1..=6 {
        let manager = with_a_step(&heap)?;
        heap.refuse(growth);
        told.push_str(opening(&heap, manager, 2))?;
        heap.refuse(0);
        told.push(' ')?;
    }
    Ok(told)
}

#[test]
fn a_desk_opens_with_memory_and_1_to_1024_seats(rt: HostRuntime) -> Result<(), Fail> {
    let alloc = rt.alloc();
    let told = openings_in_turn(alloc)?;
    check_same(
        "seats",
        told.as_str(),
        "Memory Memory Memory Memory Memory opens ",
    )?;
    for (seats, expected) in [
        (0, "BadSeats"),
        (1, "opens"),
        (1024, "opens"),
        (1025, "BadSeats"),
    ] {
        check_same(
            "seats",
            opening(alloc, with_a_step(alloc)?, seats),
            expected,
        )?;
    }
    Ok(())
}
