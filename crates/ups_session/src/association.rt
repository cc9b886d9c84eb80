//! The state of an association, on either side.

ghost use Rattle.std.specs.Prelude.{◌≡◌, ◌≢◌, ◌≤◌, Bool, [], ◌∷◌, ℕ, List, Option, None, Some, MatchOption, IfOk, IfErr, OnErr, OnOk, true, false};
ghost use Rattle.std.specs.List.{AllByRecursion};
ghost use Rattle.std.specs.Option.{option_map, unwrap_or};
ghost use Rattle.ups_ulstate.specs.Table.{next_of};
ghost use Rattle.ups_ulstate.specs.declared.state.UlEvent.TheVariants as events;
ghost use Rattle.ups_ulstate.specs.declared.state.UlAction.TheVariants.{Ar2, Ar8, Ar10, Dt2};
ghost use Rattle.ups_pdu.specs.declared.pdu.Pdu.{Pdu};
ghost use Rattle.ups_pdu.specs.declared.pdu.Pdu.TheVariants as pdus;
ghost use Rattle.ups_pdu.specs.Spelling.{SpellsPdu};
ghost use Rattle.ups_pdu.specs.Fits.{Fits};
ghost use Rattle.ups_assoc.specs.declared.fault.AssocFault.TheVariants.{Memory as NoMemory};
ghost use Rattle.ups_assoc.specs.declared.negotiating.Outcome.TheVariants.{Accept, Reject};
ghost use Rattle.ups_assoc.specs.Negotiation.{outcome};
ghost use Rattle.ups_assoc.specs.declared.fault.AssocFault.{AssocFault};
ghost use Rattle.ups_assoc.specs.Feeding.{fed, fault as faulty};
ghost use Rattle.ups_assoc.specs.declared.assembling.Begun.TheVariants.{Nothing};
ghost use Rattle.ups_session.specs.declared.fault.SessionFault.TheVariants.{Memory};
ghost use Rattle.ups_session.specs.Association.{AssociationView};
ghost use Rattle.ups_session.specs.Acceptor.{is_acceptable, rejecting, answers, requested, on_message_effect, Continues, Received, Indicated, opened};
ghost use Rattle.ups_session.specs.Sides.{sending, end_after, on_local_event, releases, on_action, on_event, reason_of, aborting, ids};
ghost use Rattle.ups_session.specs.Fold.{IsOpen};
ghost use Rattle.ups_session.specs.Effects.{parameters_view, established_view, association_view, reaction_of, message_effect, IsSendable, AreSendable, IsRoomy, IsAccepting};

use crate::dispatch::on_message;
use crate::effect::{AwaitedRequest, Effect};
use crate::fault::{End, SessionFault};
use std::alloc::Allocator;
use ups_assoc::{
    Acceptance, AcceptedContexts, Assembler, AssocFault, Config, Outcome, Rejection, negotiate,
};
use ups_pdu::{Ae, AssociateRq, Pdu, PduFault, Pdv};
use ups_ulstate::{UlAction, UlEvent, UlState, next};

/// The reason of an abort by the service provider for a PDU that doesn't fit the state (PS3.8 table 9-26).
pub(crate) const UNEXPECTED: u8 = 2;

/// Not the association requestor: the side that accepts it.
pub(crate) const ACCEPTOR: bool = false;

/// The parameters negotiated with a peer (PS3.8 section 7.1).
#[derive(Drop)]
pub(crate) struct Parameters<A: Allocator + Copy> {
    /// The AE title of the peer.
    pub ae: Ae,
    /// The accepted presentation contexts.
    pub contexts: AcceptedContexts<A>,
    /// The longest P-DATA-TF that the peer receives, in bytes.
    pub max: u32,
}

/// An association that was accepted, with the message that is being received.
#[derive(Drop)]
pub(crate) struct Established<A: Allocator + Copy> {
    /// The negotiated parameters.
    pub parameters: Parameters<A>,
    /// The assembler of the peer's messages.
    pub assembler: Assembler<A>,
}

/// Returns what is established with these parameters, before any fragment.
///
/// Errors: out of memory.
pub(crate) fn established_with<A: Allocator + Copy>(
    alloc: A,
    parameters: Parameters<A>,
) -> Result<Established<A>, SessionFault>
    ensures established { IfOk result (λ e. established_view e ≡ record { parameters = parameters_view parameters; assembler = record { ids = ids parameters.contexts; begun = Nothing } }) }
    ensures max { IfOk result (λ e. e.parameters.max ≡ parameters.max) }
    ensures memory { IfErr result (λ e. e ≡ Memory) }
{
    let Ok(assembler) = Assembler::new(alloc, parameters.contexts.as_slice()) else {
        return Err(SessionFault::Memory);
    };
    Ok(Established {
        parameters,
        assembler,
    })
}

/// Returns an error for a lack of memory alone: for any other fault in a fragment, the association is aborted.
///
/// Errors: out of memory.
#[cold]
pub(crate) fn unless_memory(fault: AssocFault) -> Result<(), SessionFault>
    ensures other { OnOk result (fault ≢ NoMemory) }
    ensures lost { OnErr result (fault ≡ NoMemory) }
    ensures memory { IfErr result (λ e. e ≡ Memory) }
{
    match fault {
        AssocFault::Memory => Err(SessionFault::Memory),
        _ => Ok(()),
    }
}

/// Feeds a PDV to the assembler and returns what the session does then, or None if the association is aborted for it.
///
/// Errors: out of memory; the fragment then has no fault.
fn on_pdv<A: Allocator + Copy>(
    alloc: A,
    config: &Config,
    established: &mut Established<A>,
    pdv: Pdv<A>,
) -> Result<Option<Effect<A, AwaitedRequest<A>>>, SessionFault>
    requires roomy { 8 ≤ established.old.parameters.max }
    ensures effect { IfOk result (λ found. (association : AssociationView A) → Continues false config.now.offset association (established_view established.old) (fed established.old.assembler.ids established.old.assembler.begun pdv) (on_message_effect false (record { state = association.state; established = Some (established_view established.new); ending = association.ending }) (message_effect found))) }
    ensures writable { IfOk result AreSendable }
    ensures parameters { established.new.parameters ≡ established.old.parameters }
    ensures memory { IfErr result (λ e. e ≡ Memory) }
    ensures faultless { OnErr result ((why : AssocFault) → fed established.old.assembler.ids established.old.assembler.begun pdv ≡ faulty why → why ≡ NoMemory) }
{
    match established.assembler.feed(pdv) {
        Ok(None) => Ok(Some(Effect::Send(Vec::new(alloc)))),
        Ok(Some(message)) => on_message(alloc, config, &established.parameters, &message),
        Err(fault) => {
            unless_memory(fault)?;
            Ok(None)
        }
    }
}

/// The state of an association.
pub(crate) struct Association<A: Allocator + Copy> {
    /// The state of the state machine (PS3.8 section 9.2).
    pub state: UlState,
    /// The established association, once it was accepted.
    pub established: Option<Established<A>>,
    /// How the association ends, as far as is known: it is closed unless something else has ended it.
    pub ending: End,
}

impl<A: Allocator + Copy> Drop for Association<A> {
    fn drop(self) {
        let Association {
            state: _,
            established: _,
            ending: _,
        } = self;
    }
}

/// Returns how an action ends the association, if it does (PS3.8 tables 9-6 to 9-9).
fn end_after(event: UlEvent, action: UlAction) -> Option<End>
    ensures { result ≡ end_after event action }
{
    match (event, action) {
        (_, UlAction::Ae4 | UlAction::Ae8) => Some(End::Rejected),
        (_, UlAction::Ar3 | UlAction::Ar4 | UlAction::Ar9 | UlAction::Ar10) => Some(End::Released),
        (_, UlAction::Aa1 | UlAction::Aa7 | UlAction::Aa8) => Some(End::AbortSent),
        (UlEvent::Abort, UlAction::Aa2) => Some(End::AbortReceived),
        (_, UlAction::Aa3) => Some(End::AbortReceived),
        (_, UlAction::Aa4 | UlAction::Aa5) => Some(End::Closed),
        _ => None,
    }
}

/// Returns the reason of an abort by the service provider for bytes that are not a PDU (PS3.8 table 9-26).
pub(crate) fn reason_of(fault: PduFault) -> u8
    ensures { result ≡ reason_of fault }
{
    match fault {
        PduFault::UnknownType => 1,
        _ => 6,
    }
}

/// Returns whether the state machine takes an association request as acceptable.
fn is_acceptable<A: Allocator + Copy>(outcome: &Outcome<A>) -> bool
    ensures { result ≡ is_acceptable outcome.now }
{
    match outcome {
        Outcome::Accept(_) => true,
        Outcome::Reject(rejection) => rejection.source() != 2,
    }
}

/// Makes a list of one PDU.
///
/// Errors: out of memory.
fn single<A: Allocator + Copy>(alloc: A, pdu: Pdu<A>) -> Result<Vec<Pdu<A>, A>, SessionFault>
    ensures said { IfOk result (λ said. said.items ≡ pdu ∷ []) }
    ensures memory { IfErr result (λ e. e ≡ Memory) }
{
    let mut said = Vec::new(alloc);
    said.push(pdu)?;
    Ok(said)
}

/// Returns the PDUs that an action sends to the peer.
///
/// Errors: out of memory.
fn sent<A: Allocator + Copy>(
    alloc: A,
    reason: u8,
    action: UlAction,
) -> Result<Vec<Pdu<A>, A>, SessionFault>
    ensures said { (requestor : Bool) → (association : AssociationView A) → action ≢ Ar2 → action ≢ Ar8 → action ≢ Ar10 → IfOk result (λ said. sending association said.items ≡ on_action requestor reason association action) }
    ensures writable { IfOk result (λ said. AllByRecursion (λ p. Fits p) said.items) }
    ensures memory { IfErr result (λ e. e ≡ Memory) }
{
    match action {
        UlAction::Ar1 => single(alloc, Pdu::ReleaseRq),
        UlAction::Aa1 => single(
            alloc,
            Pdu::Abort {
                source: 0,
                reason: 0,
            },
        ),
        UlAction::Aa7 | UlAction::Aa8 => single(alloc, Pdu::Abort { source: 2, reason }),
        _ => Ok(Vec::new(alloc)),
    }
}

impl<A: Allocator + Copy> Association<A> {
    /// Starts with an open transport connection, on which an A-ASSOCIATE-RQ is awaited.
    pub fn opened() -> Association<A>
        ensures opened { association_view result ≡ opened }
        ensures roomy { IsRoomy result.established }
    {
        Association {
            state: UlState::Sta2,
            established: None,
            ending: End::Closed,
        }
    }

    /// Returns how the association ended, or None while it goes on.
    pub fn end(&self) -> Option<End>
        ensures { MatchOption result (IsOpen self.now.state) (λ end. (IsOpen self.now.state → ⊥) × (self.now.ending ≡ end)) }
    {
        match self.state {
            UlState::Sta1 | UlState::Sta13 => Some(self.ending),
            _ => None,
        }
    }

    /// Records an action of the state machine and the state that it leads to.
    pub fn transition(&mut self, event: UlEvent, action: UlAction, state: UlState)
        ensures { self.new ≡ record { state = state; established = self.old.established; ending = unwrap_or (end_after event action) self.old.ending } }
    {
        self.state = state;
        if let Some(end) = end_after(event, action) {
            self.ending = end;
        }
    }

    /// Processes an event that this side causes itself.
    fn on_local_event(&mut self, requestor: bool, event: UlEvent)
        ensures done { association_view self.new ≡ on_local_event requestor event (association_view self.old) }
        ensures established { self.new.established ≡ self.old.established }
    {
        if let Some((action, state)) = next(self.state, event, requestor, true) {
            self.transition(event, action, state);
        }
    }

    /// Responds to a release request, if the state machine has a transition for it (PS3.8 section 7.2).
    ///
    /// Errors: out of memory.
    fn release(&mut self, alloc: A, requestor: bool) -> Result<Vec<Pdu<A>, A>, SessionFault>
        ensures reaction { IfOk result (λ said. sending (association_view self.new) said.items ≡ releases (association_view self.old) (next_of requestor true events.ReleaseResponse self.old.state)) }
        ensures writable { IfOk result (λ said. AllByRecursion (λ p. Fits p) said.items) }
        ensures established { self.new.established ≡ self.old.established }
        ensures memory { IfErr result (λ e. e ≡ Memory) }
    {
        let event = UlEvent::ReleaseResponse;
        let Some((action, state)) = next(self.state, event, requestor, true) else {
            return Ok(Vec::new(alloc));
        };
        self.transition(event, action, state);
        single(alloc, Pdu::ReleaseRp)
    }

    /// Performs an action that needs no data of the event.
    ///
    /// Errors: out of memory.
    #[cold]
    pub fn on_action(
        &mut self,
        alloc: A,
        requestor: bool,
        reason: u8,
        action: UlAction,
    ) -> Result<Vec<Pdu<A>, A>, SessionFault>
        ensures reaction { IfOk result (λ said. sending (association_view self.new) said.items ≡ on_action requestor reason (association_view self.old) action) }
        ensures writable { IfOk result (λ said. AllByRecursion (λ p. Fits p) said.items) }
        ensures established { self.new.established ≡ self.old.established }
        ensures memory { IfErr result (λ e. e ≡ Memory) }
    {
        match action {
            UlAction::Ar2 | UlAction::Ar8 | UlAction::Ar10 => self.release(alloc, requestor),
            _ => sent(alloc, reason, action),
        }
    }

    /// Processes an event that carries no data.
    ///
    /// Errors: out of memory.
    #[cold]
    pub fn on_event(
        &mut self,
        alloc: A,
        requestor: bool,
        reason: u8,
        event: UlEvent,
    ) -> Result<Vec<Pdu<A>, A>, SessionFault>
        ensures reaction { IfOk result (λ said. sending (association_view self.new) said.items ≡ on_event requestor reason (association_view self.old) event (next_of requestor true event self.old.state)) }
        ensures writable { IfOk result (λ said. AllByRecursion (λ p. Fits p) said.items) }
        ensures established { self.new.established ≡ self.old.established }
        ensures memory { IfErr result (λ e. e ≡ Memory) }
    {
        let Some((action, state)) = next(self.state, event, requestor, true) else {
            return Ok(Vec::new(alloc));
        };
        self.transition(event, action, state);
        self.on_action(alloc, requestor, reason, action)
    }

    /// Accepts an association request.
    ///
    /// Errors: out of memory.
    fn accept(
        &mut self,
        alloc: A,
        acceptance: Acceptance<A>,
    ) -> Result<Vec<Pdu<A>, A>, SessionFault>
        requires roomy { 8 ≤ acceptance.max }
        requires writable { Fits (pdus.AssociateAc acceptance.ac) }
        ensures reaction { IfOk result (λ said. sending (association_view self.new) said.items ≡ answers false (association_view self.old) (Accept acceptance)) }
        ensures writable { IfOk result (λ said. AllByRecursion (λ p. Fits p) said.items) }
        ensures roomy { IsRoomy self.old.established → IsRoomy self.new.established }
        ensures memory { IfErr result (λ e. e ≡ Memory) }
    {
        let Acceptance {
            ac,
            ae,
            contexts,
            max,
        } = acceptance;
        let established = established_with(alloc, Parameters { ae, contexts, max })?;
        self.on_local_event(ACCEPTOR, UlEvent::LocalAccept);
        self.established = Some(established);
        single(alloc, Pdu::AssociateAc(ac))
    }

    /// Rejects an association request, as the service user or as the service provider.
    ///
    /// Errors: out of memory.
    fn reject(&mut self, alloc: A, rejection: Rejection) -> Result<Vec<Pdu<A>, A>, SessionFault>
        ensures reaction { IfOk result (λ said. sending (association_view self.new) said.items ≡ answers false (association_view self.old) (Reject rejection)) }
        ensures writable { IfOk result (λ said. AllByRecursion (λ p. Fits p) said.items) }
        ensures established { self.new.established ≡ self.old.established }
        ensures memory { IfErr result (λ e. e ≡ Memory) }
    {
        if rejection.source() == 2 {
            self.ending = End::Rejected;
        } else {
            self.on_local_event(ACCEPTOR, UlEvent::LocalReject);
        }
        let pdu = Pdu::AssociateRj {
            result: rejection.result(),
            source: rejection.source(),
            reason: rejection.reason(),
        };
        single(alloc, pdu)
    }

    /// Accepts or rejects an association request.
    ///
    /// Errors: out of memory.
    fn answer_request(
        &mut self,
        alloc: A,
        outcome: Outcome<A>,
    ) -> Result<Vec<Pdu<A>, A>, SessionFault>
        requires accepting { IsAccepting outcome }
        ensures reaction { IfOk result (λ said. sending (association_view self.new) said.items ≡ answers false (association_view self.old) outcome) }
        ensures writable { IfOk result (λ said. AllByRecursion (λ p. Fits p) said.items) }
        ensures roomy { IsRoomy self.old.established → IsRoomy self.new.established }
        ensures memory { IfErr result (λ e. e ≡ Memory) }
    {
        match outcome {
            Outcome::Accept(acceptance) => self.accept(alloc, acceptance),
            Outcome::Reject(rejection) => self.reject(alloc, rejection),
        }
    }

    /// Processes an A-ASSOCIATE-RQ with the outcome of its negotiation.
    ///
    /// Errors: out of memory.
    fn on_outcome(&mut self, alloc: A, outcome: Outcome<A>) -> Result<Vec<Pdu<A>, A>, SessionFault>
        requires accepting { IsAccepting outcome }
        ensures reaction { IfOk result (λ said. sending (association_view self.new) said.items ≡ requested false (association_view self.old) outcome) }
        ensures writable { IfOk result (λ said. AllByRecursion (λ p. Fits p) said.items) }
        ensures roomy { IsRoomy self.old.established → IsRoomy self.new.established }
        ensures memory { IfErr result (λ e. e ≡ Memory) }
    {
        let acceptable = is_acceptable(&outcome);
        let Some((action, state)) = next(self.state, UlEvent::AssociateRq, ACCEPTOR, acceptable)
        else {
            return Ok(Vec::new(alloc));
        };
        self.transition(UlEvent::AssociateRq, action, state);
        match action {
            UlAction::Ae6 => self.answer_request(alloc, outcome),
            _ => self.on_action(alloc, ACCEPTOR, UNEXPECTED, action),
        }
    }

    /// Processes an A-ASSOCIATE-RQ.
    ///
    /// Errors: out of memory.
    #[cold]
    pub fn on_associate_request(
        &mut self,
        alloc: A,
        config: &Config,
        request: &AssociateRq<A>,
    ) -> Result<Vec<Pdu<A>, A>, SessionFault>
        requires spelled { (bytes : List ℕ) × SpellsPdu bytes (pdus.AssociateRq request.now) }
        ensures reaction { IfOk result (λ said. sending (association_view self.new) said.items ≡ requested false (association_view self.old) (outcome config.now.ae request.now)) }
        ensures writable { IfOk result (λ said. AllByRecursion (λ p. Fits p) said.items) }
        ensures roomy { IsRoomy self.old.established → IsRoomy self.new.established }
        ensures memory { IfErr result (λ e. e ≡ Memory) }
    {
        match negotiate(alloc, config, request) {
            Ok(outcome) => self.on_outcome(alloc, outcome),
            Err(_) => Err(SessionFault::Memory),
        }
    }

    /// Aborts the association (PS3.8 section 7.3).
    ///
    /// Errors: out of memory.
    #[cold]
    pub fn abort(&mut self, alloc: A, requestor: bool) -> Result<Vec<Pdu<A>, A>, SessionFault>
        ensures reaction { IfOk result (λ said. sending (association_view self.new) said.items ≡ aborting requestor (association_view self.old)) }
        ensures writable { IfOk result (λ said. AllByRecursion (λ p. Fits p) said.items) }
        ensures established { self.new.established ≡ self.old.established }
        ensures memory { IfErr result (λ e. e ≡ Memory) }
    {
        self.on_local_event(requestor, UlEvent::AbortRequest);
        single(
            alloc,
            Pdu::Abort {
                source: 0,
                reason: 0,
            },
        )
    }

    /// Processes a PDV in a state in which messages are received.
    ///
    /// Errors: out of memory.
    fn on_data(
        &mut self,
        alloc: A,
        config: &Config,
        pdv: Pdv<A>,
    ) -> Result<Effect<A, AwaitedRequest<A>>, SessionFault>
        requires roomy { IsRoomy self.old.established }
        ensures reaction { IfOk result (λ effect. Received false config.now.offset (association_view self.old) (option_map established_view self.old.established) pdv (reaction_of (association_view self.new) effect)) }
        ensures writable { IfOk result IsSendable }
        ensures roomy { OnOk result (IsRoomy self.new.established) }
        ensures memory { IfErr result (λ e. e ≡ Memory) }
    {
        let Some(established) = &mut self.established else {
            return Ok(Effect::Send(Vec::new(alloc)));
        };
        match on_pdv(alloc, config, established, pdv)? {
            Some(effect) => Ok(effect),
            None => Ok(Effect::Send(self.abort(alloc, ACCEPTOR)?)),
        }
    }

    /// Processes a PDV of a P-DATA-TF.
    ///
    /// Errors: out of memory.
    pub fn on_fragment(
        &mut self,
        alloc: A,
        config: &Config,
        pdv: Pdv<A>,
    ) -> Result<Effect<A, AwaitedRequest<A>>, SessionFault>
        requires roomy { IsRoomy self.old.established }
        ensures reaction { IfOk result (λ effect. Indicated false config.now.offset (association_view self.old) pdv (next_of false true events.Data self.old.state) (reaction_of (association_view self.new) effect)) }
        ensures writable { IfOk result IsSendable }
        ensures roomy { OnOk result (IsRoomy self.new.established) }
        ensures memory { IfErr result (λ e. e ≡ Memory) }
    {
        let Some((action, state)) = next(self.state, UlEvent::Data, ACCEPTOR, true) else {
            return Ok(Effect::Send(Vec::new(alloc)));
        };
        self.transition(UlEvent::Data, action, state);
        match action {
            UlAction::Dt2 => self.on_data(alloc, config, pdv),
            _ => Ok(Effect::Send(self.on_action(alloc, ACCEPTOR, UNEXPECTED, action)?)),
        }
    }
}
