//! The answers of a manager to the requests of a script.

ghost use Rattle.std.specs.Prelude.{◌≡◌, IfOk, OnErr};
ghost use Rattle.ups_life.specs.Settings.{IsMoment};
ghost use Rattle.ups_script.specs.Telling.{RepliesToMessage, title_of, TellsOf, TellsAsked};

use std::alloc::{AllocError, Allocator};
use ups_dimse::Operation;
use ups_life::{Ask, Reply, Request, StepUid, Watched};
use ups_manager::Manager;
use ups_pdu::{Ae, Uid};
use ups_requests::{Asked, Question, Unasked, ask_of};
use ups_service::Service;

/// The answer to a request.
#[derive(Drop)]
pub(crate) enum Told<A: Allocator + Copy> {
    /// The reply to a message, a sweep, an acknowledgment, or a request for events.
    Replied(Reply<A>),
    /// The steps that are held.
    Steps(Vec<StepUid, A>),
    /// The steps that a watcher is subscribed to.
    Watched(Vec<Watched, A>),
    /// The title of who holds a step; None if nobody does.
    Holder(Option<Ae>),
}

/// Returns the reply to a message sent at `moment`, in seconds since 1970-01-01 UTC.
///
/// Errors: lack of memory outside of the manager, which has then not changed.
fn reply_to<A: Allocator + Copy>(
    alloc: A,
    manager: &mut Manager<A>,
    ae: Ae,
    moment: u64,
    operation: &Operation<A>,
    data_set: &[u8],
) -> Result<Reply<A>, AllocError>
    requires moment { IsMoment moment }
    ensures replies { IfOk result (λ reply. RepliesToMessage manager.old.settings manager.old.history ae moment operation.now data_set.now reply manager.new.history) }
    ensures nothing { OnErr result (manager.new.history ≡ manager.old.history) }
    ensures settings { manager.new.settings ≡ manager.old.settings }
{
    match ask_of(alloc, operation, data_set, manager.offset()) {
        Ok(ask) => Ok(manager.call(ae, moment, ask)),
        Err(Unasked::Refused(status)) => Ok(Reply::Status(status)),
        Err(Unasked::Memory) => Err(AllocError),
    }
}

/// Returns the title of who holds the step `instance`.
fn title_of<A: Allocator + Copy>(manager: &Manager<A>, instance: Option<Uid>) -> Option<Ae>
    ensures { result ≡ title_of manager.now.settings manager.now.history instance }
{
    let step = StepUid::of(instance?)?;
    let holder = manager.holder(step)?;
    Some(holder.ae)
}

/// Returns the answer to a request, at its moment.
///
/// Errors: lack of memory outside of the manager, which has then not changed.
pub(crate) fn tell<A: Allocator + Copy>(
    alloc: A,
    manager: &mut Manager<A>,
    asked: &Asked<A>,
) -> Result<Told<A>, AllocError>
    ensures tells { IfOk result (λ told. TellsAsked manager.old.settings manager.old.history asked.now told manager.new.history) }
    ensures nothing { OnErr result (manager.new.history ≡ manager.old.history) }
    ensures settings { manager.new.settings ≡ manager.old.settings }
{
    match &asked.question {
        Question::Message(operation, data_set) => {
            let reply = reply_to(alloc, manager, asked.ae, asked.moment, operation, data_set)?;
            Ok(Told::Replied(reply))
        }
        Question::Sweep => {
            let reply = manager.call(asked.ae, asked.moment, Ask::Do(Request::Sweep));
            Ok(Told::Replied(reply))
        }
        Question::Pending(max) => {
            let reply = manager.call(asked.ae, asked.moment, Ask::Pending { max: *max });
            Ok(Told::Replied(reply))
        }
        Question::Acknowledge(upto) => {
            let request = Request::Ack { upto: *upto };
            let reply = manager.call(asked.ae, asked.moment, Ask::Do(request));
            Ok(Told::Replied(reply))
        }
        Question::Reserve(step) => {
            let request = Request::Reserve { step: *step };
            let reply = manager.call(asked.ae, asked.moment, Ask::Do(request));
            Ok(Told::Replied(reply))
        }
        Question::Watches => Ok(Told::Watched(manager.watches(asked.ae)?)),
        Question::Held => Ok(Told::Steps(manager.held()?)),
        Question::Holder(instance) => Ok(Told::Holder(title_of(manager, *instance))),
    }
}
