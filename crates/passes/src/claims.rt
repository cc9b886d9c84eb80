//! The claims of one pass.

ghost use Rattle.std.specs.Prelude.{◌≡◌};

use crate::steps::{NOON, STEPS};
use std::alloc::Global;
use std::sync::Wait;
use ups_cycle::StepState;
use ups_life::{Ask, Reply, Request, StepUid, Transaction};
use ups_manager::Manager;
use ups_pdu::{Ae, Uid};
use ups_service::Service;
use ups_turn::{Desk, Pass};

/// The numbers of a pass's claims by their answers.
#[derive(Clone, Copy)]
pub(crate) struct Claims {
    /// The number of the pass.
    pub(crate) pass: u32,
    /// Those answered with 0000.
    pub(crate) accepted: u64,
    /// Those answered with C302.
    pub(crate) refused: u64,
    /// Those answered with anything else, or for which there was no memory.
    pub(crate) other: u64,
}

impl Claims {
    /// Returns those of a pass that has made none.
    fn of(pass: u32) -> Claims {
        Claims {
            pass,
            accepted: 0,
            refused: 0,
            other: 0,
        }
    }

    /// Counts a claim by the number of the status with which it was answered.
    fn count(&mut self, status: u16) {
        match status {
            0x0000 => self.accepted = self.accepted.wrapping_add(1),
            0xC302 => self.refused = self.refused.wrapping_add(1),
            _ => self.other = self.other.wrapping_add(1),
        }
    }
}

/// Returns the UID of the step with a number, or None if there is no memory for its text.
fn step_of(alloc: Global, number: u32) -> Option<StepUid> {
    let Ok(text) = format!(in alloc; "1.2.3.{number}") else {
        return None;
    };
    StepUid::of(Uid::of(text.as_bytes())?)
}

/// Returns the Transaction UID of the pass with a number, or None if there is no memory for its text.
fn transaction_of(alloc: Global, claimant: u32) -> Option<Uid> {
    let Ok(text) = format!(in alloc; "2.{claimant}") else {
        return None;
    };
    Uid::of(text.as_bytes())
}

/// Returns the request that claims the step with a number, with the Transaction UID of the pass that claims it, or None
/// if there is no memory for one of their texts.
fn claim(alloc: Global, number: u32, claimant: u32) -> Option<Request<Global>> {
    let step = step_of(alloc, number)?;
    let transaction = transaction_of(alloc, claimant)?;
    Some(Request::Change {
        step: Some(step),
        state: StepState::InProgress,
        transaction: Transaction::Proper(transaction),
    })
}

/// Returns the number of the status that a reply is, or FFFF for any other reply.
fn code_of(reply: &Reply<Global>) -> u16 {
    match reply {
        Reply::Status(status) => status.code(),
        _ => 0xffff,
    }
}

/// Makes a request at a pass, and returns the number of the status, or FFFF for any other reply.
fn answered<R: Wait>(
    rt: &R,
    desk: &Desk<Manager<Global>, Global>,
    pass: &mut Pass<Manager<Global>, Global>,
    ae: Ae,
    request: Request<Global>,
) -> u16
    requires here { pass.old.table ≡ desk.now.table }
    ensures stays { pass.new.table ≡ pass.old.table }
{
    let reply = desk
        .at(rt, pass)
        .answer(ae, NOON, &mut Some(Ask::Do(request)));
    code_of(&reply)
}

/// Claims the step with a number, and returns the number of the status, or FFFF if there is no memory for the request.
fn claim_one<R: Wait>(
    rt: &R,
    alloc: Global,
    desk: &Desk<Manager<Global>, Global>,
    pass: &mut Pass<Manager<Global>, Global>,
    ae: Ae,
    number: u32,
) -> u16
    requires here { pass.old.table ≡ desk.now.table }
    ensures stays { pass.new.table ≡ pass.old.table }
{
    match claim(alloc, number, pass.number()) {
        Some(request) => answered(rt, desk, pass, ae, request),
        None => 0xffff,
    }
}

/// Claims each step, and returns the pass with the numbers of claims by their answers.
pub(crate) fn claim_all<R: Wait>(
    rt: &R,
    alloc: Global,
    desk: &Desk<Manager<Global>, Global>,
    mut pass: Pass<Manager<Global>, Global>,
    ae: Ae,
) -> (Pass<Manager<Global>, Global>, Claims)
    requires here { pass.table ≡ desk.now.table }
    ensures stays { result.0.table ≡ pass.table }
{
    let mut claims = Claims::of(pass.number());
    for number in 0..STEPS {
        claims.count(claim_one(rt, alloc, desk, &mut pass, ae, number));
    }
    (pass, claims)
}
