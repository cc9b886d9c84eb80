//! The words of the rows of the tests: what is asked for, and what is held.

use fixtures::words::{message_of, set_of};
use fixtures::{Refusing, uid};
use std::alloc::{Allocator, Global};
use std::test::Fail;
use ups_cycle::{Status, StepState};
use ups_life::{Ask, Request, Row, StepUid, read_request};
use ups_pdu::Uid;

/// The offset of the local time, in minutes, in which keys are read.
const OFFSET: i16 = 60;

/// Returns what is read from a message while the growth with this number is refused; 0 refuses none.
pub(super) fn read<'a>(
    heap: &'a Refusing<Global>,
    message: &str,
    growth: u64,
) -> Result<Result<Ask<&'a Refusing<Global>>, Status>, Fail> {
    heap.refuse(0);
    let (operation, set) = message_of(heap, message)?;
    heap.refuse(growth);
    Ok(read_request(heap, &operation, set, OFFSET))
}

/// Returns the request that is asked for.
fn request_in<A: Allocator + Copy>(ask: Ask<A>) -> Result<Request<A>, Fail> {
    match ask {
        Ask::Do(request) => Ok(request),
        _ => Err("no request".into()),
    }
}

/// Returns the reservation of a UID.
fn reservation_of<A: Allocator + Copy>(name: &str) -> Result<Request<A>, Fail> {
    let step = StepUid::of(uid(name)?).ok_or("the UID of a step")?;
    Ok(Request::Reserve { step })
}

/// Returns the request of these words: what a message asks for, or the reservation of a UID.
pub(super) fn request_of<'a>(
    heap: &'a Refusing<Global>,
    words: &str,
) -> Result<Request<&'a Refusing<Global>>, Fail> {
    if let Some(name) = words.strip_prefix("reserve ") {
        return reservation_of(name);
    }
    match read(heap, words, 0)? {
        Ok(ask) => request_in(ask),
        Err(_) => Err("a status".into()),
    }
}

/// Returns the state that a word names, with `_` for a space.
fn state_of(word: &str) -> Option<StepState> {
    match word {
        "SCHEDULED" => Some(StepState::Scheduled),
        "IN_PROGRESS" => Some(StepState::InProgress),
        "COMPLETED" => Some(StepState::Completed),
        "CANCELED" => Some(StepState::Canceled),
        _ => None,
    }
}

/// Returns what is held of a step in a state: the Transaction UID of its claim, and its attributes. A claim that is not
/// a UID counts as none. A final state is so since a minute after 1970 began.
fn held_in<A: Allocator + Copy>(alloc: A, state: StepState, text: &str) -> Result<Row<A>, Fail> {
    let (claim, attributes) = text.split_once(' ').unwrap_or((text, ""));
    Ok(Row {
        attributes: set_of(alloc, attributes)?,
        state,
        transaction: Uid::of(claim.as_bytes()),
        final_at: if state.is_final() { Some(60) } else { None },
    })
}

/// Returns what is held of a step: its state, the Transaction UID of its claim, and its attributes. A word that is not a
/// state counts as no step.
pub(super) fn row_of<A: Allocator + Copy>(alloc: A, text: &str) -> Result<Option<Row<A>>, Fail> {
    let (state, rest) = text.split_once(' ').unwrap_or((text, ""));
    match state_of(state) {
        Some(state) => Ok(Some(held_in(alloc, state, rest)?)),
        None => Ok(None),
    }
}
