//! The acceptor of an association (PS3.8 section 9.2).

ghost use Rattle.std.specs.Prelude.{◌≡◌, List, ℕ};
ghost use Rattle.std.specs.Io.KnownBytes.{Consumes};
ghost use Rattle.ups_assoc.specs.declared.negotiating.Config.{Config};
ghost use Rattle.ups_session.specs.Acceptor.{acceptor, opened};
ghost use Rattle.ups_session.specs.Association.{AssociationView};
ghost use Rattle.ups_session.specs.Effects.{awaited_view, HasRoom};
ghost use Rattle.ups_session.specs.Party.{awaiting_reply};
ghost use Rattle.ups_session.specs.Session.{IsSession};
ghost use Rattle.ups_session.specs.Settled.{IsSettled};
ghost use Rattle.ups_session.specs.World.{world};

use crate::association::{ACCEPTOR, Association, UNEXPECTED, reason_of};
use crate::driver::drive;
use crate::effect::{AwaitedRequest, Effect};
use crate::environment::{BorrowedEnvironment, Environment};
use crate::fault::{End, SessionFault};
use crate::gate::Gate;
use crate::indication::{UlIndication, take_pdv};
use crate::party::Party;
use crate::watched_io::{WatchedReader, WatchedWriter};
use std::alloc::Allocator;
use std::io::{Read, Write};
use ups_assoc::Config;
use ups_pdu::Pdv;
use ups_service::Service;
use ups_ulstate::UlEvent;

/// The acceptor of an association: it negotiates, and has the service answer each request.
#[derive(Drop)]
pub(crate) struct Acceptor<'a, A: Allocator + Copy> {
    /// The title of this AE, and the offset of its local time from UTC.
    pub config: &'a Config,
    /// The association with the peer.
    pub association: Association<A>,
}

/// Calls the service with what a request asks, and sends its reply. The buffer is for the bytes of one PDU after the other.
///
/// Errors: a failed write; out of memory. What the service accepted stays accepted.
fn respond<A: Allocator + Copy, E: Environment<A>>(
    environment: &mut E,
    buffer: &mut Vec<u8, A>,
    mut waiting: AwaitedRequest<A>,
) -> Result<(), SessionFault>
    requires { HasRoom waiting }
    ensures settled { (config : Config) → (association : AssociationView A) → IsSettled (acceptor config) (awaiting_reply association (awaited_view waiting)) association (E.world environment.old) (E.world environment.new) result }
    ensures names { E.names environment.new ≡ E.names environment.old }
{
    let parts = &mut *waiting.parts;
    let reply = environment.answer(parts.ae, &mut parts.ask);
    environment.send_reply(buffer, parts.max, &parts.context, &parts.command, &reply)
}

impl<'a, A: Allocator + Copy> Party<A> for Acceptor<'a, A> {
    ghost use Rattle.ups_assoc.specs.declared.negotiating.Config.{Config};
    ghost use Rattle.ups_session.specs.Acceptor.{acceptor, opened};
    ghost use Rattle.ups_session.specs.Association.{AssociationView};
    ghost use Rattle.ups_session.specs.Dispatch.{AwaitedRequestView};
    ghost use Rattle.ups_session.specs.Effects.{association_view, awaited_view, IsRoomy, HasRoom};

    type Call = AwaitedRequest<A>;

    ghost Setup = { Config };

    ghost View = { AssociationView A };

    ghost CallView = { AwaitedRequestView A };

    ghost side = { acceptor };

    ghost start = { opened };

    ghost ending = { λ association. association.ending };

    ghost setup = { λ party. party.config.now };

    ghost view = { λ party. association_view party.association };

    ghost call_view = { awaited_view };

    ghost is_ready = { λ party. IsRoomy party.association.established };

    ghost is_roomy = { HasRoom };

    fn begin<E: Environment<A>>(
        &mut self,
        _alloc: A,
        _environment: &mut E,
    ) -> Result<(), SessionFault> {
        Ok(())
    }

    fn react(
        &mut self,
        alloc: A,
        indication: &UlIndication<A>,
    ) -> Result<Effect<A, AwaitedRequest<A>>, SessionFault> {
        let association = &mut self.association;
        match indication {
            UlIndication::AssociateRq(request) => Ok(Effect::Send(association.on_associate_request(
                alloc,
                self.config,
                request,
            )?)),
            UlIndication::Event(event) => Ok(Effect::Send(association.on_event(
                alloc, ACCEPTOR, UNEXPECTED, *event,
            )?)),
            UlIndication::InvalidPdu(fault) => Ok(Effect::Send(association.on_event(
                alloc,
                ACCEPTOR,
                reason_of(*fault),
                UlEvent::Invalid,
            )?)),
            UlIndication::AssociateAc(_) => Ok(Effect::Send(association.on_event(
                alloc,
                ACCEPTOR,
                UNEXPECTED,
                UlEvent::AssociateAc,
            )?)),
        }
    }

    fn react_to_pdv(
        &mut self,
        alloc: A,
        pdv: &mut Pdv<A>,
    ) -> Result<Effect<A, AwaitedRequest<A>>, SessionFault> {
        let pdv = take_pdv(alloc, pdv);
        self.association.on_fragment(alloc, self.config, pdv)
    }

    fn settle<E: Environment<A>>(
        &mut self,
        environment: &mut E,
        buffer: &mut Vec<u8, A>,
        call: AwaitedRequest<A>,
    ) -> Result<(), SessionFault> {
        respond(environment, buffer, call)
    }

    fn end(&self) -> Option<End> {
        self.association.end()
    }
}

/// Serves one association on a transport connection that a peer has opened (PS3.8 section 9.2), until it has ended or
/// `turns` PDUs were read. `config` has the title of this AE and the offset of its local time from UTC.
///
/// # Errors
///
/// Read if a read failed or the input ended inside a PDU; Write if a write failed; Turns if `turns` PDUs were read and the
/// association has not ended; Memory if memory ran out. What the service accepted stays accepted.
pub fn serve<A: Allocator + Copy, R: Read, W: Write, S: Service<A>, G: Gate>(
    alloc: A,
    reader: &mut WatchedReader<R>,
    writer: &mut WatchedWriter<W>,
    service: &mut S,
    gate: &mut G,
    config: &Config,
    turns: u64,
) -> Result<End, SessionFault>
    ensures session { (input : List ℕ) × Consumes reader.old.left reader.new.left input
        × IsSession (acceptor config.now) (λ association. association.ending) opened turns reader.new input
        (world writer.old (G.told gate.old) (S.settings service.old) (S.others service.old) (S.caller service.old) (S.seen service.old))
        (world writer.new (G.told gate.new) (S.settings service.new) (S.others service.new) (S.caller service.new) (S.seen service.new)) result }
{
    let mut party = Acceptor {
        config,
        association: Association::opened(),
    };
    let mut environment = BorrowedEnvironment {
        writer,
        service,
        gate,
    };
    drive(alloc, &mut party, reader, &mut environment, turns)
}
