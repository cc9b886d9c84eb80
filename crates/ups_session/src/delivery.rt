//! A delivery: an association that this side requests, and the reports that it sends over it.

ghost use Rattle.std.specs.Prelude.{◌≡◌, ◌≢◌, ◌≤◌, [], true, false, Option, None, Some, IfOk, IfErr, IfSome, MatchOption, OnOk, OnErr, ◌<◌, length};
ghost use Rattle.std.specs.Option.{option_map};
ghost use Rattle.std.specs.List.{AllByRecursion};
ghost use Rattle.ups_ulstate.specs.Table.{next_of};
ghost use Rattle.ups_ulstate.specs.declared.state.UlEvent.TheVariants as events;
ghost use Rattle.ups_pdu.specs.Fits.{Fits};
ghost use Rattle.ups_assoc.specs.Feeding.{fed};
ghost use Rattle.ups_dimse.specs.declared.fault.DimseFault.TheVariants.{Memory as NoRoomForCommand};
ghost use Rattle.ups_session.specs.declared.fault.SessionFault.TheVariants.{Memory};
ghost use Rattle.ups_session.specs.Effects.{established_view, association_view, IsRoomy};
ghost use Rattle.ups_session.specs.Sides.{aborting, on_action, on_event, unexpected};
ghost use Rattle.ups_session.specs.Reports.{route_of};
ghost use Rattle.ups_session.specs.Proposing.{agreement};
ghost use Rattle.ups_session.specs.Delivery.{DeliveryView};
ghost use Rattle.ups_session.specs.Deliveries.{delivery_view, delivery_reaction_of, IsSendableDelivery};
ghost use Rattle.ups_session.specs.Requestor.{unconnected, proposed, saying, with_association, along, releasing, reporting, reporting_next, proceeding, with_ahead, on_pendings, on_acknowledged, event_answered, on_response, refusing, on_command, Understands, Assembles, Receives, OnFragment, established_by, on_agreement, on_answer};

use crate::association::{
    Association, Established, Parameters, UNEXPECTED, established_with, unless_memory,
};
use crate::dispatch::context_at;
use crate::effect::Effect;
use crate::fault::{End, SessionFault};
use crate::proposing::{PROPOSED_ID, agreement, counted};
use crate::reports::report_pdus;
use crate::response::bare_response;
use std::alloc::Allocator;
use ups_assoc::{AcceptedContext, AcceptedContexts, RawMessage, SopClass};
use ups_cycle::Status;
use ups_dimse::{
    Command, DimseFault, OperationResult, RequestCommand, ResponseCommand, read_command,
};
use ups_life::{EventReport, EventReports, Reply};
use ups_pdu::{Ae, AssociateAc, Pdu, Pdv, TransferSyntax};
use ups_ulstate::{UlAction, UlEvent, UlState, next};

/// This side is the association requestor.
const REQUESTOR: bool = true;

/// A report whose response is awaited.
#[derive(Clone, Copy)]
pub(crate) struct ReportInFlight {
    /// The message ID of the report.
    pub message: u16,
    /// The number of the event.
    pub event: u64,
}

/// A call to the service from a delivery.
#[derive(Clone, Copy)]
pub(crate) enum DeliveryCall {
    /// Asks which events are pending.
    Pendings,
    /// Acknowledges the events up to this number.
    Acknowledgement(u64),
}

/// The route of reports to a peer.
#[derive(Clone, Copy)]
pub(crate) struct Route {
    /// The presentation context.
    pub context: AcceptedContext,
    /// The longest P-DATA-TF that the peer receives, in bytes.
    pub max: u32,
}

/// The state of a delivery.
pub(crate) struct Delivery<A: Allocator + Copy> {
    /// The association with the peer.
    pub association: Association<A>,
    /// The reports that the service returned last.
    pub reports: EventReports<A>,
    /// The number of those reports that were sent.
    pub taken: usize,
    /// The report whose response is awaited.
    pub in_flight: Option<ReportInFlight>,
    /// The number of reports sent in all.
    pub sent: u16,
}

impl<A: Allocator + Copy> Drop for Delivery<A> {
    fn drop(self) {
        let Delivery {
            association: _,
            reports: _,
            taken: _,
            in_flight: _,
            sent: _,
        } = self;
    }
}

/// Returns an error for a lack of memory alone: for any other fault in a command set, the association is aborted.
///
/// Errors: out of memory.
fn unless_no_room(fault: DimseFault) -> Result<(), SessionFault>
    ensures other { OnOk result (fault ≢ NoRoomForCommand) }
    ensures memory { IfErr result (λ e. e ≡ Memory) }
{
    match fault {
        DimseFault::Memory => Err(SessionFault::Memory),
        _ => Ok(()),
    }
}

/// Returns the number of the event in flight, if this is the response to its report.
fn event_answered(in_flight: Option<ReportInFlight>, response: &ResponseCommand) -> Option<u64>
    ensures { result ≡ event_answered in_flight response.now }
{
    let flight = in_flight?;
    match response.result {
        OperationResult::EventReport { .. } if response.responded_to == flight.message => {
            Some(flight.event)
        }
        _ => None,
    }
}

/// Returns the reports of a reply, if there are any.
fn reports_of<A: Allocator + Copy>(reply: Reply<A>) -> Option<EventReports<A>>
    ensures told { (d : DeliveryView A) → MatchOption result (on_pendings d reply ≡ releasing d) (λ reports. on_pendings d reply ≡ proceeding (with_ahead d reports)) }
    ensures some { IfSome result (λ reports. 0 < length reports) }
{
    let Reply::Reports(reports) = reply else {
        return None;
    };
    if reports.as_slice().is_empty() {
        return None;
    }
    Some(reports)
}

/// Returns what an answer establishes: an association with this peer, over the proposed presentation context.
///
/// Errors: out of memory.
fn established_by<A: Allocator + Copy>(
    alloc: A,
    ae: Ae,
    max: u32,
    syntax: TransferSyntax,
) -> Result<Established<A>, SessionFault>
    ensures established { IfOk result (λ e. established_view e ≡ established_by ae max syntax) }
    ensures max { IfOk result (λ e. e.parameters.max ≡ max) }
    ensures memory { IfErr result (λ e. e ≡ Memory) }
{
    let context = AcceptedContext {
        id: PROPOSED_ID,
        sop_class: SopClass::UpsEvent,
        transfer_syntax: syntax,
    };
    let contexts = AcceptedContexts::of(alloc, context)?;
    established_with(alloc, Parameters { ae, contexts, max })
}

impl<A: Allocator + Copy> Delivery<A> {
    /// Starts without a transport connection.
    pub fn unconnected(alloc: A) -> Delivery<A>
        ensures unconnected { delivery_view result ≡ unconnected }
        ensures roomy { IsRoomy result.association.established }
    {
        Delivery {
            association: Association {
                state: UlState::Sta1,
                established: None,
                ending: End::Closed,
            },
            reports: EventReports::new(alloc),
            taken: 0,
            in_flight: None,
            sent: 0,
        }
    }

    /// Notes that the transport connection is open, on which the A-ASSOCIATE-RQ is sent (PS3.8 table 9-6, AE-2).
    pub fn on_connected(&mut self)
        requires { delivery_view self.old ≡ unconnected }
        ensures proposed { delivery_view self.new ≡ proposed }
        ensures established { self.new.association.established ≡ self.old.association.established }
    {
        self.association.state = UlState::Sta5;
    }

    /// Returns the route of reports, once the association is established.
    fn route(&self) -> Option<Route>
        ensures route { result ≡ route_of (option_map established_view self.now.association.established) }
        ensures roomy { IsRoomy self.now.association.established → IfSome result (λ route. 8 ≤ route.max) }
    {
        let Some(established) = &self.association.established else {
            return None;
        };
        let contexts = established.parameters.contexts.as_slice();
        match context_at(PROPOSED_ID, contexts) {
            Some(context) => Some(Route {
                context,
                max: established.parameters.max,
            }),
            None => None,
        }
    }

    /// Processes an event that carries no data.
    ///
    /// Errors: out of memory.
    pub fn on_event(
        &mut self,
        alloc: A,
        reason: u8,
        event: UlEvent,
    ) -> Result<Vec<Pdu<A>, A>, SessionFault>
        ensures reaction { IfOk result (λ said. saying (delivery_view self.new) said.items ≡ along (delivery_view self.old) (on_event true reason (association_view self.old.association) event (next_of true true event self.old.association.state))) }
        ensures writable { IfOk result (λ said. AllByRecursion (λ p. Fits p) said.items) }
        ensures established { self.new.association.established ≡ self.old.association.established }
        ensures memory { IfErr result (λ e. e ≡ Memory) }
    {
        self.association.on_event(alloc, REQUESTOR, reason, event)
    }

    /// Performs an action of the state machine that needs no data of the event.
    ///
    /// Errors: out of memory.
    fn on_action(&mut self, alloc: A, action: UlAction) -> Result<Vec<Pdu<A>, A>, SessionFault>
        ensures reaction { IfOk result (λ said. saying (delivery_view self.new) said.items ≡ along (delivery_view self.old) (on_action true unexpected (association_view self.old.association) action)) }
        ensures writable { IfOk result (λ said. AllByRecursion (λ p. Fits p) said.items) }
        ensures established { self.new.association.established ≡ self.old.association.established }
        ensures memory { IfErr result (λ e. e ≡ Memory) }
    {
        self.association
            .on_action(alloc, REQUESTOR, UNEXPECTED, action)
    }

    /// Aborts the association (PS3.8 section 7.3).
    ///
    /// Errors: out of memory.
    fn abort(&mut self, alloc: A) -> Result<Vec<Pdu<A>, A>, SessionFault>
        ensures reaction { IfOk result (λ said. saying (delivery_view self.new) said.items ≡ along (delivery_view self.old) (aborting true (association_view self.old.association))) }
        ensures writable { IfOk result (λ said. AllByRecursion (λ p. Fits p) said.items) }
        ensures established { self.new.association.established ≡ self.old.association.established }
        ensures memory { IfErr result (λ e. e ≡ Memory) }
    {
        self.association.abort(alloc, REQUESTOR)
    }

    /// Releases the association (PS3.8 section 7.2).
    ///
    /// Errors: out of memory.
    fn release(&mut self, alloc: A) -> Result<Vec<Pdu<A>, A>, SessionFault>
        ensures reaction { IfOk result (λ said. saying (delivery_view self.new) said.items ≡ releasing (delivery_view self.old)) }
        ensures writable { IfOk result (λ said. AllByRecursion (λ p. Fits p) said.items) }
        ensures established { self.new.association.established ≡ self.old.association.established }
        ensures memory { IfErr result (λ e. e ≡ Memory) }
    {
        self.on_event(alloc, UNEXPECTED, UlEvent::ReleaseRequest)
    }

    /// Sends the next report of those that the service returned. Without a route it releases the association.
    ///
    /// Errors: out of memory.
    fn report(&mut self, alloc: A) -> Result<Vec<Pdu<A>, A>, SessionFault>
        requires roomy { IsRoomy self.old.association.established }
        requires more { self.old.sent < 65535 }
        requires ahead { self.old.taken < length self.old.reports }
        ensures reaction { IfOk result (λ said. saying (delivery_view self.new) said.items ≡ reporting_next (delivery_view self.old) (delivery_view self.old).ahead) }
        ensures writable { IfOk result (λ said. AllByRecursion (λ p. Fits p) said.items) }
        ensures established { self.new.association.established ≡ self.old.association.established }
        ensures memory { IfErr result (λ e. e ≡ Memory) }
        ensures lost { OnErr result ((reporting_next (delivery_view self.old) (delivery_view self.old).ahead).waiting ≡ None) }
    {
        let Some(report) = self.reports.as_slice().get(self.taken) else {
            unreachable!()
        };
        let Some(route) = self.route() else {
            return self.release(alloc);
        };
        let message = self.sent + 1;
        let event = report.event.number;
        let said = report_pdus(alloc, &route, message, report)?;
        self.taken += 1;
        self.in_flight = Some(ReportInFlight { message, event });
        self.sent = message;
        Ok(said)
    }

    /// Sends the first of the reports that the service returned; after 65,535 reports it releases the association.
    ///
    /// Errors: out of memory.
    fn report_first(&mut self, alloc: A) -> Result<Vec<Pdu<A>, A>, SessionFault>
        requires roomy { IsRoomy self.old.association.established }
        requires ahead { self.old.taken < length self.old.reports }
        ensures reaction { IfOk result (λ said. saying (delivery_view self.new) said.items ≡ proceeding (delivery_view self.old)) }
        ensures writable { IfOk result (λ said. AllByRecursion (λ p. Fits p) said.items) }
        ensures established { self.new.association.established ≡ self.old.association.established }
        ensures memory { IfErr result (λ e. e ≡ Memory) }
    {
        if self.sent < u16::MAX {
            return self.report(alloc);
        }
        self.release(alloc)
    }

    /// Goes on with the next report, or asks again for those that are pending; after 65,535 reports it releases the
    /// association.
    ///
    /// Errors: out of memory.
    fn go_on(&mut self, alloc: A) -> Result<Effect<A, DeliveryCall>, SessionFault>
        requires roomy { IsRoomy self.old.association.established }
        ensures reaction { IfOk result (λ found. delivery_reaction_of (delivery_view self.new) found ≡ proceeding (delivery_view self.old)) }
        ensures writable { IfOk result IsSendableDelivery }
        ensures established { self.new.association.established ≡ self.old.association.established }
        ensures memory { IfErr result (λ e. e ≡ Memory) }
        ensures lost { OnErr result ((proceeding (delivery_view self.old)).waiting ≡ None) }
    {
        if self.sent == u16::MAX {
            return Ok(Effect::Send(self.release(alloc)?));
        }
        if self.taken >= self.reports.as_slice().len() {
            return Ok(Effect::Call(DeliveryCall::Pendings));
        }
        Ok(Effect::Send(self.report(alloc)?))
    }

    /// Processes the reply of the service about the pending events.
    ///
    /// Errors: out of memory.
    pub fn on_pendings(&mut self, alloc: A, reply: Reply<A>) -> Result<Vec<Pdu<A>, A>, SessionFault>
        requires roomy { IsRoomy self.old.association.established }
        ensures reaction { IfOk result (λ said. saying (delivery_view self.new) said.items ≡ on_pendings (delivery_view self.old) reply) }
        ensures writable { IfOk result (λ said. AllByRecursion (λ p. Fits p) said.items) }
        ensures established { self.new.association.established ≡ self.old.association.established }
        ensures memory { IfErr result (λ e. e ≡ Memory) }
        ensures silent { (on_pendings (delivery_view self.old) reply).waiting ≡ None }
    {
        match reports_of(reply) {
            Some(reports) => {
                self.reports = reports;
                self.taken = 0;
                self.report_first(alloc)
            }
            None => self.release(alloc),
        }
    }

    /// Goes on once the service has replied to an acknowledgement, or releases the association if it had no room for
    /// it.
    ///
    /// Errors: out of memory.
    pub fn on_acknowledged(
        &mut self,
        alloc: A,
        reply: &Reply<A>,
    ) -> Result<Effect<A, DeliveryCall>, SessionFault>
        requires roomy { IsRoomy self.old.association.established }
        ensures reaction { IfOk result (λ found. delivery_reaction_of (delivery_view self.new) found ≡ on_acknowledged (delivery_view self.old) reply.now) }
        ensures writable { IfOk result IsSendableDelivery }
        ensures established { self.new.association.established ≡ self.old.association.established }
        ensures memory { IfErr result (λ e. e ≡ Memory) }
        ensures lost { OnErr result ((on_acknowledged (delivery_view self.old) reply.now).waiting ≡ None) }
    {
        match reply {
            Reply::Status(Status::ResourceLimitation) => Ok(Effect::Send(self.release(alloc)?)),
            _ => self.go_on(alloc),
        }
    }

    /// Processes the answer to the association request: asks which events are pending, or releases the association.
    ///
    /// Errors: out of memory.
    fn establish(
        &mut self,
        alloc: A,
        ae: Ae,
        answer: &AssociateAc<A>,
    ) -> Result<Effect<A, DeliveryCall>, SessionFault>
        ensures reaction { IfOk result (λ found. delivery_reaction_of (delivery_view self.new) found ≡ on_agreement ae (delivery_view self.old) answer.now (agreement answer.now)) }
        ensures writable { IfOk result IsSendableDelivery }
        ensures roomy { IsRoomy self.old.association.established → OnOk result (IsRoomy self.new.association.established) }
        ensures memory { IfErr result (λ e. e ≡ Memory) }
    {
        let Some(syntax) = agreement(answer) else {
            return Ok(Effect::Send(self.release(alloc)?));
        };
        let max = counted(answer.user_information.maximum_length);
        self.association.established = Some(established_by(alloc, ae, max, syntax)?);
        Ok(Effect::Call(DeliveryCall::Pendings))
    }

    /// Processes an A-ASSOCIATE-AC.
    ///
    /// Errors: out of memory.
    pub fn on_answer(
        &mut self,
        alloc: A,
        ae: Ae,
        answer: &AssociateAc<A>,
    ) -> Result<Effect<A, DeliveryCall>, SessionFault>
        ensures reaction { IfOk result (λ found. delivery_reaction_of (delivery_view self.new) found ≡ on_answer ae (delivery_view self.old) answer.now (next_of true true events.AssociateAc self.old.association.state)) }
        ensures writable { IfOk result IsSendableDelivery }
        ensures roomy { IsRoomy self.old.association.established → OnOk result (IsRoomy self.new.association.established) }
        ensures memory { IfErr result (λ e. e ≡ Memory) }
    {
        let event = UlEvent::AssociateAc;
        let Some((action, state)) = next(self.association.state, event, REQUESTOR, true) else {
            return Ok(Effect::Send(Vec::new(alloc)));
        };
        self.association.transition(event, action, state);
        match action {
            UlAction::Ae3 => self.establish(alloc, ae, answer),
            _ => Ok(Effect::Send(self.on_action(alloc, action)?)),
        }
    }

    /// Refuses a request: nothing may be requested of this side.
    ///
    /// Errors: out of memory.
    fn refuse(
        &mut self,
        alloc: A,
        command: &RequestCommand<A>,
    ) -> Result<Vec<Pdu<A>, A>, SessionFault>
        requires roomy { IsRoomy self.old.association.established }
        ensures reaction { IfOk result (λ said. saying (delivery_view self.new) said.items ≡ refusing (delivery_view self.old) command.now (route_of (option_map established_view self.old.association.established))) }
        ensures writable { IfOk result (λ said. AllByRecursion (λ p. Fits p) said.items) }
        ensures established { self.new.association.established ≡ self.old.association.established }
        ensures memory { IfErr result (λ e. e ≡ Memory) }
    {
        match self.route() {
            Some(route) => bare_response(
                alloc,
                route.max,
                &route.context,
                command,
                Status::UnrecognizedOperation,
            ),
            None => self.abort(alloc),
        }
    }

    /// Processes a response: passes one to the report in flight to the service, and ignores any other.
    fn on_response(&mut self, alloc: A, response: &ResponseCommand) -> Effect<A, DeliveryCall>
        ensures reaction { delivery_reaction_of (delivery_view self.new) result ≡ on_response (delivery_view self.old) (event_answered self.old.in_flight response.now) }
        ensures writable { IsSendableDelivery result }
        ensures established { self.new.association.established ≡ self.old.association.established }
    {
        match event_answered(self.in_flight, response) {
            Some(event) => {
                self.in_flight = None;
                Effect::Call(DeliveryCall::Acknowledgement(event))
            }
            None => Effect::Send(Vec::new(alloc)),
        }
    }

    /// Processes a command. Once the release was requested, nothing is answered.
    ///
    /// Errors: out of memory.
    fn on_command(
        &mut self,
        alloc: A,
        released: bool,
        command: &Command<A>,
    ) -> Result<Effect<A, DeliveryCall>, SessionFault>
        requires roomy { IsRoomy self.old.association.established }
        ensures reaction { IfOk result (λ found. delivery_reaction_of (delivery_view self.new) found ≡ on_command (delivery_view self.old) released command.now) }
        ensures writable { IfOk result IsSendableDelivery }
        ensures established { self.new.association.established ≡ self.old.association.established }
        ensures memory { IfErr result (λ e. e ≡ Memory) }
    {
        if released {
            return Ok(Effect::Send(Vec::new(alloc)));
        }
        match command {
            Command::Response(response) => Ok(self.on_response(alloc, response)),
            Command::Cancel(_) => Ok(Effect::Send(Vec::new(alloc))),
            Command::Request(request) => Ok(Effect::Send(self.refuse(alloc, request)?)),
        }
    }

    /// Processes a whole message; if its command set can't be read, the association is aborted.
    ///
    /// Errors: out of memory.
    fn on_message(
        &mut self,
        alloc: A,
        released: bool,
        message: &RawMessage<A>,
    ) -> Result<Effect<A, DeliveryCall>, SessionFault>
        requires roomy { IsRoomy self.old.association.established }
        ensures reaction { IfOk result (λ found. Understands (delivery_view self.old) released message.now (delivery_reaction_of (delivery_view self.new) found)) }
        ensures writable { IfOk result IsSendableDelivery }
        ensures established { self.new.association.established ≡ self.old.association.established }
        ensures memory { IfErr result (λ e. e ≡ Memory) }
    {
        match read_command(alloc, message.command.as_slice()) {
            Ok(command) => self.on_command(alloc, released, &command),
            Err(fault) => {
                unless_no_room(fault)?;
                Ok(Effect::Send(self.abort(alloc)?))
            }
        }
    }

    /// Processes a PDV of an established association.
    ///
    /// Errors: out of memory.
    fn assemble(
        &mut self,
        alloc: A,
        released: bool,
        established: Established<A>,
        pdv: Pdv<A>,
    ) -> Result<Effect<A, DeliveryCall>, SessionFault>
        requires roomy { 8 ≤ established.parameters.max }
        ensures reaction { IfOk result (λ found. Assembles (delivery_view self.old) (established_view established) released (fed established.assembler.ids established.assembler.begun pdv) (delivery_reaction_of (delivery_view self.new) found)) }
        ensures writable { IfOk result IsSendableDelivery }
        ensures roomy { IsRoomy self.new.association.established }
        ensures memory { IfErr result (λ e. e ≡ Memory) }
    {
        let mut established = established;
        let came = established.assembler.feed(pdv);
        self.association.established = Some(established);
        match came {
            Ok(None) => Ok(Effect::Send(Vec::new(alloc))),
            Ok(Some(message)) => self.on_message(alloc, released, &message),
            Err(fault) => {
                unless_memory(fault)?;
                Ok(Effect::Send(self.abort(alloc)?))
            }
        }
    }

    /// Processes a PDV in a state in which messages are received. If nothing is agreed on, it is on a presentation
    /// context that wasn't accepted, and the association is aborted.
    ///
    /// Errors: out of memory.
    fn receive(
        &mut self,
        alloc: A,
        released: bool,
        pdv: Pdv<A>,
    ) -> Result<Effect<A, DeliveryCall>, SessionFault>
        requires roomy { IsRoomy self.old.association.established }
        ensures reaction { IfOk result (λ found. Receives (delivery_view self.old) (option_map established_view self.old.association.established) released pdv (delivery_reaction_of (delivery_view self.new) found)) }
        ensures writable { IfOk result IsSendableDelivery }
        ensures roomy { OnOk result (IsRoomy self.new.association.established) }
        ensures memory { IfErr result (λ e. e ≡ Memory) }
    {
        match self.association.established.take() {
            Some(established) => self.assemble(alloc, released, established, pdv),
            None => Ok(Effect::Send(self.abort(alloc)?)),
        }
    }

    /// Processes a PDV of a P-DATA-TF.
    ///
    /// Errors: out of memory.
    pub fn on_fragment(
        &mut self,
        alloc: A,
        pdv: Pdv<A>,
    ) -> Result<Effect<A, DeliveryCall>, SessionFault>
        requires roomy { IsRoomy self.old.association.established }
        ensures reaction { IfOk result (λ found. OnFragment (delivery_view self.old) pdv (next_of true true events.Data self.old.association.state) (delivery_reaction_of (delivery_view self.new) found)) }
        ensures writable { IfOk result IsSendableDelivery }
        ensures roomy { OnOk result (IsRoomy self.new.association.established) }
        ensures memory { IfErr result (λ e. e ≡ Memory) }
    {
        let event = UlEvent::Data;
        let Some((action, state)) = next(self.association.state, event, REQUESTOR, true) else {
            return Ok(Effect::Send(Vec::new(alloc)));
        };
        self.association.transition(event, action, state);
        match action {
            UlAction::Dt2 => self.receive(alloc, false, pdv),
            UlAction::Ar6 => self.receive(alloc, true, pdv),
            _ => Ok(Effect::Send(self.on_action(alloc, action)?)),
        }
    }
}
