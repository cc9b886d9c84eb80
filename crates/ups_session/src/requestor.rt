//! The requestor of an association, which reports events over it (PS3.4 CC.2.4).

ghost use Rattle.std.specs.Prelude.{◌≡◌, [], ◌∷◌, ℕ, List};
ghost use Rattle.std.specs.Io.KnownBytes.{Consumes};
ghost use Rattle.ups_ulstate.specs.declared.state.UlEvent.TheVariants.{AssociateRequest, TransportConfirmed};
ghost use Rattle.ups_assoc.specs.declared.negotiating.Config.{Config};
ghost use Rattle.ups_session.specs.declared.delivery.DeliveryCall.TheVariants.{Pendings, Acknowledgement};
ghost use Rattle.ups_session.specs.Fold.{event as happened, Happens};
ghost use Rattle.ups_session.specs.Requestor.{awaiting, requestor, unconnected, proposed};
ghost use Rattle.ups_session.specs.Deliveries.{delivery_view};
ghost use Rattle.ups_session.specs.Effects.{IsRoomy};
ghost use Rattle.ups_session.specs.Settled.{IsSettled};
ghost use Rattle.ups_session.specs.World.{world, Performed};
ghost use Rattle.ups_session.specs.Session.{IsSession};

use crate::association::{UNEXPECTED, reason_of};
use crate::delivery::{Delivery, DeliveryCall};
use crate::driver::drive;
use crate::effect::Effect;
use crate::environment::{BorrowedEnvironment, Environment};
use crate::fault::{End, SessionFault};
use crate::gate::Gate;
use crate::indication::{UlIndication, take_pdv};
use crate::party::Party;
use crate::proposing::association_request;
use crate::watched_io::{WatchedReader, WatchedWriter};
use std::alloc::Allocator;
use std::io::{Read, Write};
use ups_assoc::Config;
use ups_life::{Ask, Request};
use ups_pdu::{Ae, Pdu, Pdv};
use ups_service::Service;
use ups_ulstate::UlEvent;

/// The number of events that are asked for at a time.
const EVENTS_ASKED_FOR: u64 = 16;

/// The requestor of an association: it proposes a presentation context, and delivers each report that is pending.
#[derive(Drop)]
pub(crate) struct Requestor<'a, A: Allocator + Copy> {
    /// The title of this AE.
    pub config: &'a Config,
    /// The title of the peer.
    pub ae: Ae,
    /// The delivery to the peer.
    pub delivery: Delivery<A>,
}

/// Asks the service which events are pending, and reports the first of them; if there are none, it releases the
/// association.
///
/// Errors: a failed write; out of memory.
fn ask_pendings<A: Allocator + Copy, E: Environment<A>>(
    alloc: A,
    ae: Ae,
    delivery: &mut Delivery<A>,
    environment: &mut E,
) -> Result<(), SessionFault>
    requires roomy { IsRoomy delivery.old.association.established }
    ensures settled { (config : Config) → IsSettled (requestor config ae) (awaiting (delivery_view delivery.old) Pendings) (delivery_view delivery.new) (E.world environment.old) (E.world environment.new) result }
    ensures established { delivery.new.association.established ≡ delivery.old.association.established }
    ensures names { E.names environment.new ≡ E.names environment.old }
{
    let ask = Ask::Pending {
        max: EVENTS_ASKED_FOR,
    };
    let reply = environment.call(ae, ask);
    let said = delivery.on_pendings(alloc, reply)?;
    environment.send_pdus(alloc, said.as_slice())
}

/// Passes the acknowledgement of the events up to a number to the service, and goes on with the next report.
///
/// Errors: a failed write; out of memory. What the service accepted stays accepted.
fn acknowledge<A: Allocator + Copy, E: Environment<A>>(
    alloc: A,
    ae: Ae,
    delivery: &mut Delivery<A>,
    environment: &mut E,
    number: u64,
) -> Result<(), SessionFault>
    requires roomy { IsRoomy delivery.old.association.established }
    ensures settled { (config : Config) → IsSettled (requestor config ae) (awaiting (delivery_view delivery.old) (Acknowledgement number)) (delivery_view delivery.new) (E.world environment.old) (E.world environment.new) result }
    ensures established { delivery.new.association.established ≡ delivery.old.association.established }
    ensures names { E.names environment.new ≡ E.names environment.old }
{
    let acknowledgement = Ask::Do(Request::Ack { upto: number });
    let reply = environment.call(ae, acknowledgement);
    match delivery.on_acknowledged(alloc, &reply)? {
        Effect::Send(said) => environment.send_pdus(alloc, said.as_slice()),
        Effect::Respond(_) => unreachable!(),
        Effect::Call(_) => ask_pendings(alloc, ae, delivery, environment),
    }
}

/// Requests the association: sends the A-ASSOCIATE-RQ (PS3.8 table 9-6, AE-2).
///
/// Errors: a failed write; out of memory.
fn propose<A: Allocator + Copy, E: Environment<A>>(
    alloc: A,
    config: &Config,
    ae: Ae,
    environment: &mut E,
) -> Result<(), SessionFault>
    ensures performed { Performed (Happens (requestor config.now ae)) (happened AssociateRequest ∷ happened TransportConfirmed ∷ []) unconnected proposed (E.world environment.old) (E.world environment.new) result }
    ensures names { E.names environment.new ≡ E.names environment.old }
{
    let Ok(request) = association_request(alloc, config.ae, ae) else {
        return Err(SessionFault::Memory);
    };
    environment.send_pdu(alloc, &Pdu::AssociateRq(request))
}

impl<'a, A: Allocator + Copy> Party<A> for Requestor<'a, A> {
    ghost use Rattle.std.specs.Prelude.{ℕ, List};
    ghost use Rattle.ups_assoc.specs.declared.negotiating.Config.{Config};
    ghost use Rattle.ups_session.specs.declared.delivery.DeliveryCall.{DeliveryCall};
    ghost use Rattle.ups_session.specs.Delivery.{DeliveryView};
    ghost use Rattle.ups_session.specs.Deliveries.{delivery_view};
    ghost use Rattle.ups_session.specs.Effects.{IsRoomy};
    ghost use Rattle.ups_session.specs.Requestor.{requestor, unconnected};

    type Call = DeliveryCall;

    ghost Setup = { Config × List ℕ };

    ghost View = { DeliveryView A };

    ghost CallView = { DeliveryCall };

    ghost side = { λ s. requestor s.0 s.1 };

    ghost start = { unconnected };

    ghost ending = { λ d. d.association.ending };

    ghost setup = { λ party. (party.config.now, party.ae) };

    ghost view = { λ party. delivery_view party.delivery };

    ghost call_view = { λ call. call };

    ghost is_ready = { λ party. IsRoomy party.delivery.association.established };

    ghost is_roomy = { λ call. Unit {0} };

    fn begin<E: Environment<A>>(
        &mut self,
        alloc: A,
        environment: &mut E,
    ) -> Result<(), SessionFault> {
        self.delivery.on_connected();
        propose(alloc, self.config, self.ae, environment)
    }

    #[tactic(auto, using(crate::proofs::Delivered::sendable))]
    fn react(
        &mut self,
        alloc: A,
        indication: &UlIndication<A>,
    ) -> Result<Effect<A, DeliveryCall>, SessionFault> {
        let delivery = &mut self.delivery;
        match indication {
            UlIndication::AssociateAc(answer) => delivery.on_answer(alloc, self.ae, answer),
            UlIndication::Event(event) => {
                Ok(Effect::Send(delivery.on_event(alloc, UNEXPECTED, *event)?))
            }
            UlIndication::InvalidPdu(fault) => Ok(Effect::Send(delivery.on_event(
                alloc,
                reason_of(*fault),
                UlEvent::Invalid,
            )?)),
            UlIndication::AssociateRq(_) => Ok(Effect::Send(delivery.on_event(
                alloc,
                UNEXPECTED,
                UlEvent::AssociateRq,
            )?)),
        }
    }

    #[tactic(auto, using(crate::proofs::Delivered::sendable))]
    fn react_to_pdv(
        &mut self,
        alloc: A,
        pdv: &mut Pdv<A>,
    ) -> Result<Effect<A, DeliveryCall>, SessionFault> {
        self.delivery.on_fragment(alloc, take_pdv(alloc, pdv))
    }

    fn settle<E: Environment<A>>(
        &mut self,
        environment: &mut E,
        buffer: &mut Vec<u8, A>,
        call: DeliveryCall,
    ) -> Result<(), SessionFault> {
        let alloc = *buffer.allocator();
        let (ae, delivery) = (self.ae, &mut self.delivery);
        match call {
            DeliveryCall::Pendings => ask_pendings(alloc, ae, delivery, environment),
            DeliveryCall::Acknowledgement(number) => {
                acknowledge(alloc, ae, delivery, environment, number)
            }
        }
    }

    fn end(&self) -> Option<End> {
        self.delivery.association.end()
    }
}

/// Reports the events that are pending for an application entity, over one association that is requested on an open
/// transport connection (PS3.4 CC.2.4, PS3.8 section 9.2), until it has ended or `turns` PDUs were read. Each event is
/// acknowledged once its report was responded to. `config` has the title of this AE, and `ae` is that of the peer.
///
/// # Errors
///
/// Read if a read failed or the input ended inside a PDU; Write if a write failed; Turns if `turns` PDUs were read and the
/// association has not ended; Memory if memory ran out. What the service accepted stays accepted.
pub fn deliver<A: Allocator + Copy, R: Read, W: Write, S: Service<A>, G: Gate>(
    alloc: A,
    reader: &mut WatchedReader<R>,
    writer: &mut WatchedWriter<W>,
    service: &mut S,
    gate: &mut G,
    config: &Config,
    ae: Ae,
    turns: u64,
) -> Result<End, SessionFault>
    ensures session { (input : List ℕ) × Consumes reader.old.left reader.new.left input
        × IsSession (requestor config.now ae) (λ d. d.association.ending) unconnected turns reader.new input
        (world writer.old (G.told gate.old) (S.settings service.old) (S.others service.old) (S.caller service.old) (S.seen service.old))
        (world writer.new (G.told gate.new) (S.settings service.new) (S.others service.new) (S.caller service.new) (S.seen service.new)) result }
{
    let mut party = Requestor {
        config,
        ae,
        delivery: Delivery::unconnected(alloc),
    };
    let mut environment = BorrowedEnvironment {
        writer,
        service,
        gate,
    };
    drive(alloc, &mut party, reader, &mut environment, turns)
}
