//! Request messages: which are refused, and what the others ask of the service.

ghost use Rattle.std.specs.Prelude.{◌≡◌, ◌≢◌, List, [], Option, None, Some, MatchOption, IfOk, OnErr, OnOk, ◌≤◌, ◌⊎◌, IfErr, IsSome};
ghost use Rattle.std.specs.Option.{option_copied};
ghost use Rattle.ups_dataset.specs.Data.{El};
ghost use Rattle.ups_dataset.specs.declared.fault.SetFault.TheVariants.{Memory as NoRoomForSet};
ghost use Rattle.ups_life.specs.declared.request.Ask.{Ask};
ghost use Rattle.ups_session.specs.Effects.{dispatch_view, parameters_view, message_effect, AreSendable, IsSendable};
ghost use Rattle.ups_session.specs.Dispatch.{answered_at_once, asking};
ghost use Rattle.ups_session.specs.Rules.{supports_operation, accepts_sop_class, has_action_type, supports_action_type, HasSet, unreadable_status, dispatched, DispatchesBySet, Dispatches};
ghost use Rattle.ups_assoc.specs.declared.message.RawMessage.{RawMessage};
ghost use Rattle.ups_dimse.specs.declared.command.Command.{Command};
ghost use Rattle.ups_dimse.specs.declared.command.Command.TheVariants.{Request};
ghost use Rattle.ups_dimse.specs.Commands.{SpellsCommand};
ghost use Rattle.ups_session.specs.declared.dispatch.Dispatch.{Dispatch};
ghost use Rattle.ups_session.specs.declared.fault.SessionFault.TheVariants.{Memory};
ghost use Rattle.ups_dimse.specs.declared.fault.DimseFault.TheVariants.{Memory as NoRoomForCommand};
ghost use Rattle.ups_session.specs.Acceptor.{message_effect_of, OnCommand, OnMessage};
ghost use Rattle.ups_session.specs.Sides.{context_at};

use crate::association::Parameters;
use crate::effect::{AwaitedParts, AwaitedRequest, BareResponse, Effect};
use crate::fault::SessionFault;
use crate::response::response_bytes;
use std::alloc::{AllocError, Allocator};
use ups_assoc::{AcceptedContext, Config, RawMessage, SopClass};
use ups_cycle::Status;
use ups_dataset::{DataSet, SetFault, read_set};
use ups_dimse::{Command, DimseFault, Operation, RequestCommand, read_command};
use ups_life::{Ask, CHANGE_STATE, REQUEST_CANCEL, SUSPEND, read_request};
use ups_pdu::{RegisteredUid, TransferSyntax, Uid};

/// The outcome of a request before the service sees it.
#[derive(Drop)]
pub(crate) enum Dispatch<A: Allocator + Copy> {
    /// The request is answered with this status.
    Answer(Status),
    /// The request asks this of the service.
    Question(Ask<A>),
}

/// Returns whether a SOP class supports the operation (PS3.4 section A.4, CC.2).
fn supports_operation<A: Allocator + Copy>(class: SopClass, operation: &Operation<A>) -> bool
    ensures { result ≡ supports_operation class operation.now }
{
    match (class, operation) {
        (SopClass::Verification, Operation::Echo) => true,
        (
            SopClass::UpsPush,
            Operation::Create { .. } | Operation::Get { .. } | Operation::Action { .. },
        ) => true,
        (
            SopClass::UpsPull,
            Operation::Get { .. }
            | Operation::Set { .. }
            | Operation::Action { .. }
            | Operation::Find { .. },
        ) => true,
        (
            SopClass::UpsWatch,
            Operation::Get { .. } | Operation::Action { .. } | Operation::Find { .. },
        ) => true,
        _ => false,
    }
}

/// Returns whether a SOP class has this action type (PS3.4 table CC.2-1).
fn has_action_type(class: SopClass, action: u16) -> bool
    ensures { result ≡ has_action_type class action }
{
    match class {
        SopClass::UpsPull => action == CHANGE_STATE,
        SopClass::UpsPush => action == REQUEST_CANCEL,
        SopClass::UpsWatch => REQUEST_CANCEL <= action && action <= SUSPEND,
        SopClass::Verification | SopClass::UpsEvent => false,
    }
}

/// Returns whether the SOP class has the action type of a request; any operation but an N-ACTION has none to test.
fn supports_action_type<A: Allocator + Copy>(class: SopClass, operation: &Operation<A>) -> bool
    ensures { result ≡ supports_action_type class operation.now }
{
    match operation {
        Operation::Action { action, .. } => has_action_type(class, *action),
        _ => true,
    }
}

/// Returns whether a request may name this SOP class on a presentation context: the context's own, or UPS Push for a
/// step.
fn accepts_sop_class<A: Allocator + Copy>(
    class: SopClass,
    operation: &Operation<A>,
    named: Option<Uid>,
) -> bool
    ensures { result ≡ accepts_sop_class class operation.now named }
{
    let Some(named) = named else {
        return false;
    };
    let named = named.as_bytes();
    match operation {
        Operation::Echo => named == class.registered().text(),
        _ => named == class.registered().text() || named == RegisteredUid::UpsPush.text(),
    }
}

/// Returns None for a fault in reading a data set, or an error if memory ran out.
#[cold]
fn no_set<A: Allocator + Copy>(fault: SetFault) -> Result<Option<DataSet<A>>, AllocError>
    ensures none { IfOk result (λ found. (found ≡ None) × (fault ≢ NoRoomForSet)) }
    ensures memory { OnErr result (fault ≡ NoRoomForSet) }
{
    match fault {
        SetFault::Memory => Err(AllocError),
        _ => Ok(None),
    }
}

/// Reads the data set of a message. Returns None if its bytes are not a data set.
///
/// Errors: out of memory; the bytes then are a data set.
fn data_set_of<A: Allocator + Copy>(
    alloc: A,
    syntax: TransferSyntax,
    body: Option<&[u8]>,
) -> Result<Option<DataSet<A>>, AllocError>
    ensures found { IfOk result (λ found. MatchOption found ((set : List El) → HasSet syntax (option_copied body.entry) set → ⊥) (HasSet syntax (option_copied body.entry))) }
    ensures memory { OnErr result ((set : List El) × HasSet syntax (option_copied body.entry) set) }
{
    let Some(bytes) = body else {
        return Ok(Some(DataSet::new(alloc)));
    };
    match read_set(alloc, syntax, bytes) {
        Ok(set) => Ok(Some(set)),
        Err(fault) => no_set(fault),
    }
}

/// Returns the status of a request whose data set can't be read (PS3.7 annex C, PS3.4 section C.4.1.1.4).
#[cold]
fn unreadable_status<A: Allocator + Copy>(operation: &Operation<A>) -> Status
    ensures { result ≡ unreadable_status operation.now }
{
    match operation {
        Operation::Find { .. } => Status::UnableToProcess,
        _ => Status::ProcessingFailure,
    }
}

/// Returns the outcome of a request with its data set; a C-ECHO is answered at once. `offset` is the offset of the
/// local time from UTC, in minutes.
///
/// Errors: out of memory; the request then asks something of the service.
fn dispatched<A: Allocator + Copy>(
    alloc: A,
    offset: i16,
    operation: &Operation<A>,
    set: DataSet<A>,
) -> Result<Dispatch<A>, AllocError>
    ensures dispatched { IfOk result (λ dispatch. dispatch_view dispatch ≡ dispatched offset operation.now set) }
    ensures memory { OnErr result ((ask : Ask A) × (dispatched offset operation.now set ≡ asking ask)) }
{
    if let Operation::Echo = operation {
        return Ok(Dispatch::Answer(Status::Success));
    }
    match read_request(alloc, operation, set, offset) {
        Ok(ask) => Ok(Dispatch::Question(ask)),
        Err(status) => match status {
            Status::ResourceLimitation => Err(AllocError),
            _ => Ok(Dispatch::Answer(status)),
        },
    }
}

/// Returns the outcome of a request that is not refused for its SOP class: it is answered with 0110 (C000 for a C-FIND)
/// if its data set can't be read. `offset` is the offset of the local time from UTC, in minutes.
///
/// Errors: out of memory; the data set can then be read.
#[inline(never)]
fn read_question<A: Allocator + Copy>(
    alloc: A,
    offset: i16,
    syntax: TransferSyntax,
    operation: &Operation<A>,
    body: Option<&[u8]>,
) -> Result<Dispatch<A>, AllocError>
    ensures asks { IfOk result (λ dispatch. DispatchesBySet offset syntax operation.now (option_copied body.entry) (dispatch_view dispatch)) }
    ensures memory { OnErr result ((set : List El) × HasSet syntax (option_copied body.entry) set
        × DispatchesBySet offset syntax operation.now (option_copied body.entry) (dispatched offset operation.now set)) }
{
    let Some(set) = data_set_of(alloc, syntax, body)? else {
        return Ok(Dispatch::Answer(unreadable_status(operation)));
    };
    dispatched(alloc, offset, operation, set)
}

/// Returns the outcome of a request on a presentation context. The first refusal that applies is the answer: 0211 if
/// the SOP class of the context doesn't support the operation, 0118 if the request names another SOP class, 0123 if the
/// SOP class doesn't have the action type, and 0110 (C000 for a C-FIND) if the data set can't be read. `config` has the
/// offset of the local time from UTC.
///
/// Errors: out of memory; none of the refusals then applies.
pub(crate) fn dispatch_request<A: Allocator + Copy>(
    alloc: A,
    config: &Config,
    context: &AcceptedContext,
    request: &RequestCommand<A>,
    body: Option<&[u8]>,
) -> Result<Dispatch<A>, AllocError>
    ensures dispatches { IfOk result (λ dispatch. Dispatches config.now.offset context.now request.now (option_copied body.entry) (dispatch_view dispatch)) }
    ensures memory { OnErr result ((set : List El) × HasSet context.now.transfer_syntax (option_copied body.entry) set
        × Dispatches config.now.offset context.now request.now (option_copied body.entry) (dispatched config.now.offset request.now.operation set)) }
{
    if !supports_operation(context.sop_class, &request.operation) {
        return Ok(Dispatch::Answer(Status::UnrecognizedOperation));
    }
    if !accepts_sop_class(context.sop_class, &request.operation, request.sop_class) {
        return Ok(Dispatch::Answer(Status::NoSuchSopClass));
    }
    if !supports_action_type(context.sop_class, &request.operation) {
        return Ok(Dispatch::Answer(Status::NoSuchActionType));
    }
    // without the room that any other request takes
    if let (Operation::Echo, None) = (&request.operation, body) {
        return Ok(Dispatch::Answer(Status::Success));
    }
    read_question(
        alloc,
        config.offset,
        context.transfer_syntax,
        &request.operation,
        body,
    )
}

/// Returns the accepted presentation context with an id.
pub(crate) fn context_at(id: u8, contexts: &[AcceptedContext]) -> Option<AcceptedContext>
    ensures { result ≡ context_at id contexts.now }
{
    contexts.iter().copied().find(|context| context.id == id)
}

/// Returns the effect of a request that is answered with this status before the service sees it.
///
/// Errors: out of memory.
fn respond_at_once<A: Allocator + Copy>(
    alloc: A,
    parameters: &Parameters<A>,
    context: &AcceptedContext,
    command: &RequestCommand<A>,
    status: Status,
) -> Result<Effect<A, AwaitedRequest<A>>, SessionFault>
    requires { 8 ≤ parameters.now.max }
    ensures effect { IfOk result (λ effect. message_effect (Some effect) ≡ message_effect_of (parameters_view parameters.now) context.now command.now (answered_at_once status)) }
    ensures writable { IfOk result IsSendable }
    ensures memory { IfErr result (λ e. e ≡ Memory) }
{
    Ok(Effect::Respond(BareResponse {
        max: parameters.max,
        context: context.id,
        command: response_bytes(alloc, command, status, false)?,
    }))
}

/// Returns the effect of a request that asks something of the service, whose reply is awaited.
///
/// Errors: out of memory.
fn await_reply<A: Allocator + Copy>(
    alloc: A,
    parameters: &Parameters<A>,
    context: AcceptedContext,
    command: RequestCommand<A>,
    ask: Ask<A>,
) -> Result<Effect<A, AwaitedRequest<A>>, SessionFault>
    requires { 8 ≤ parameters.now.max }
    ensures effect { IfOk result (λ effect. message_effect (Some effect) ≡ message_effect_of (parameters_view parameters.now) context command (asking ask)) }
    ensures writable { IfOk result IsSendable }
    ensures memory { IfErr result (λ e. e ≡ Memory) }
{
    let parts = AwaitedParts {
        ae: parameters.ae,
        ask: Some(ask),
        max: parameters.max,
        context,
        command,
    };
    Ok(Effect::Call(AwaitedRequest::new(alloc, parts)?))
}

/// Returns the effect of a request message, or None if its presentation context was not accepted.
///
/// Errors: out of memory; the presentation context was then accepted.
fn on_request_message<A: Allocator + Copy>(
    alloc: A,
    config: &Config,
    parameters: &Parameters<A>,
    id: u8,
    command: RequestCommand<A>,
    body: Option<&[u8]>,
) -> Result<Option<Effect<A, AwaitedRequest<A>>>, SessionFault>
    requires { 8 ≤ parameters.now.max }
    ensures effect { IfOk result (λ found. OnCommand config.now.offset (parameters_view parameters.now) (context_at id parameters.now.contexts) (option_copied body.entry) (Request command) (message_effect found)) }
    ensures writable { IfOk result AreSendable }
    ensures memory { IfErr result (λ e. e ≡ Memory) }
    ensures accepted { OnErr result (IsSome (context_at id parameters.now.contexts)) }
{
    let Some(context) = context_at(id, parameters.contexts.as_slice()) else {
        return Ok(None);
    };
    match dispatch_request(alloc, config, &context, &command, body) {
        Ok(Dispatch::Answer(status)) => {
            Ok(Some(respond_at_once(alloc, parameters, &context, &command, status)?))
        }
        Ok(Dispatch::Question(ask)) => {
            Ok(Some(await_reply(alloc, parameters, context, command, ask)?))
        }
        Err(_) => Err(SessionFault::Memory),
    }
}

/// Returns the effect of a whole message, or None if its command set can't be read or its presentation context was not
/// accepted, for which the association is aborted.
///
/// Errors: out of memory; the command set can then be read.
pub(crate) fn on_message<A: Allocator + Copy>(
    alloc: A,
    config: &Config,
    parameters: &Parameters<A>,
    message: &RawMessage<A>,
) -> Result<Option<Effect<A, AwaitedRequest<A>>>, SessionFault>
    requires { 8 ≤ parameters.now.max }
    ensures effect { IfOk result (λ found. OnMessage config.now.offset (parameters_view parameters.now) message.now (message_effect found)) }
    ensures writable { IfOk result AreSendable }
    ensures memory { IfErr result (λ e. e ≡ Memory) }
    ensures readable { OnErr result ((command : Command A) × SpellsCommand message.now.command command) }
{
    match read_command(alloc, message.command.as_slice()) {
        Ok(Command::Request(command)) => {
            let body = message.body.as_ref().map(|body| body.as_slice());
            on_request_message(alloc, config, parameters, message.context, command, body)
        }
        Ok(Command::Response(_)) => Ok(Some(Effect::Send(Vec::new(alloc)))),
        // the query that it names was answered whole before this was read
        Ok(Command::Cancel(_)) => Ok(Some(Effect::Send(Vec::new(alloc)))),
        Err(fault) => on_unreadable_command(fault),
    }
}

/// Returns None for a fault in reading a command set, for which the association is aborted.
///
/// Errors: out of memory.
#[cold]
fn on_unreadable_command<A: Allocator + Copy>(
    fault: DimseFault,
) -> Result<Option<Effect<A, AwaitedRequest<A>>>, SessionFault>
    ensures none { IfOk result (λ found. (found ≡ None) × (fault ≢ NoRoomForCommand)) }
    ensures lost { OnErr result (fault ≡ NoRoomForCommand) }
    ensures memory { IfErr result (λ e. e ≡ Memory) }
{
    match fault {
        DimseFault::Memory => Err(SessionFault::Memory),
        _ => Ok(None),
    }
}
