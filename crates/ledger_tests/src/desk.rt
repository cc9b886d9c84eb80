//! A desk with two passes, and the requests that are made there.

ghost use Rattle.std.specs.Prelude.{◌≡◌};

use fixtures::{a_step, title, uid};
use std::alloc::Global;
use std::sync::Wait;
use std::test::Fail;
use ups_cycle::StepState;
use ups_life::{Ask, Reply, Request, StepUid, Transaction};
use ups_manager::Manager;
use ups_service::{Service, SharedService};
use ups_turn::{Desk, Pass};

/// The moment of each request: 2024-02-29 12:00:00 UTC.
pub(crate) const NOON: u64 = 1_709_208_000;

/// Returns the step.
fn step() -> Result<StepUid, Fail> {
    Ok(StepUid::of(uid("1.2.3.1")?).ok_or("a step")?)
}

/// Returns the request that creates the step.
pub(crate) fn creation(alloc: Global) -> Result<Request<Global>, Fail> {
    Ok(Request::Create {
        step: step()?,
        attributes: a_step(alloc)?,
    })
}

/// Returns the request that claims the step.
pub(crate) fn claim() -> Result<Request<Global>, Fail> {
    Ok(Request::Change {
        step: Some(step()?),
        state: StepState::InProgress,
        transaction: Transaction::Proper(uid("1.2.3.9")?),
    })
}

/// Returns a manager without history.
pub(crate) fn empty(alloc: Global) -> Result<Manager<Global>, Fail> {
    Ok(Manager::new(alloc, &[], 60, 0, 1_000)?)
}

/// Makes a request at a pass, and returns the number of the status, or FFFF for any other reply.
pub(crate) fn asked<M: SharedService<Global>, R: Wait>(
    rt: &R,
    desk: &Desk<M, Global>,
    pass: &mut Pass<M, Global>,
    request: Request<Global>,
) -> Result<u16, Fail>
    requires here { pass.old.table ≡ desk.now.table }
    ensures stays { pass.new.table ≡ pass.old.table }
{
    let ae = title("WORK1")?;
    match desk
        .at(rt, pass)
        .answer(ae, NOON, &mut Some(Ask::Do(request)))
    {
        Reply::Status(status) => Ok(status.code()),
        _ => Ok(0xffff),
    }
}
