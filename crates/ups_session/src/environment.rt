//! The environment of a session: what it acts on.

use crate::asking::answer;
use crate::fault::SessionFault;
use crate::gate::Gate;
use crate::pdu_io::{send_pdu, send_pdus};
use crate::response::send_reply;
use crate::sending::send_command;
use crate::watched_io::WatchedWriter;
use std::alloc::Allocator;
use std::io::Write;
use ups_assoc::AcceptedContext;
use ups_dimse::RequestCommand;
use ups_life::{Ask, Reply};
use ups_pdu::{Ae, Pdu};
use ups_service::Service;

/// What a session acts on: it sends PDUs, and has a service answer what it asks. A buffer is for the bytes of one PDU
/// after the other.
pub(crate) trait Environment<A: Allocator + Copy> {
    ghost use Rattle.std.specs.Prelude.{◌≡◌, ◌≤◌, [], ◌∷◌, None, true, is_some};
    ghost use Rattle.std.specs.List.{AllByRecursion};
    ghost use Rattle.std.specs.Option.{IfSome};
    ghost use Rattle.ups_pdu.specs.Fits.{Fits};
    ghost use Rattle.ups_assoc.specs.Cutting.{pieces};
    ghost use Rattle.ups_service.specs.Law.{SmallReply};
    ghost use Rattle.ups_session.specs.Responses.{response};
    ghost use Rattle.ups_session.specs.World.{World, SendsAlone, AsksOnce};

    /// The world of the session: the output, the gate and the service.
    ghost world: { Self → World A };

    /// The type of the names of what it borrows.
    ghost Names: { Type 0 };

    /// The names of what it borrows. While they stay, the world is that of the same writer, gate and service.
    ghost names: { Self → Names };

    /// Sends one PDU.
    ///
    /// Errors: a failed write, or out of memory; a prefix of the bytes was then written.
    fn send_pdu(&mut self, alloc: A, pdu: &Pdu<A>) -> Result<(), SessionFault>
        requires fits { Fits pdu.now }
        ensures sent { SendsAlone (pdu.now ∷ []) (world self.old) (world self.new) result }
        ensures names { names self.new ≡ names self.old };

    /// Sends PDUs, each written by itself.
    ///
    /// Errors: a failed write, or out of memory; a prefix of the bytes was then written.
    fn send_pdus(&mut self, alloc: A, said: &[Pdu<A>]) -> Result<(), SessionFault>
        requires fits { AllByRecursion (λ p. Fits p) said.now }
        ensures sent { SendsAlone said.now (world self.old) (world self.new) result }
        ensures names { names self.new ≡ names self.old };

    /// Sends a message without a data set, in PDUs of at most `max` bytes: the fragments of its command.
    ///
    /// Errors: a failed write, or out of memory; a prefix of the bytes was then written.
    fn send_command(
        &mut self,
        buffer: &mut Vec<u8, A>,
        max: u32,
        context: u8,
        command: &[u8],
    ) -> Result<(), SessionFault>
        requires max { 8 ≤ max }
        ensures sent { SendsAlone (pieces {A = A} context command.now None max) (world self.old) (world self.new) result }
        ensures names { names self.new ≡ names self.old };

    /// Sends the reply of the service to a request, in PDUs of at most `max` bytes.
    ///
    /// Errors: a failed write, or out of memory; a prefix of the bytes was then written.
    fn send_reply(
        &mut self,
        buffer: &mut Vec<u8, A>,
        max: u32,
        context: &AcceptedContext,
        request: &RequestCommand<A>,
        reply: &Reply<A>,
    ) -> Result<(), SessionFault>
        requires max { 8 ≤ max }
        requires small { SmallReply reply.now }
        ensures sent { SendsAlone (response max context.now request.now reply.now) (world self.old) (world self.new) result }
        ensures names { names self.new ≡ names self.old };

    /// Takes the ask out of its option, and has the service answer it at the moment that the gate gives.
    fn answer(&mut self, ae: Ae, ask: &mut Option<Ask<A>>) -> Reply<A>
        requires given { is_some ask.old ≡ true }
        ensures answered { IfSome ask.old (λ asked. AsksOnce (record { ae = ae; ask = asked }) result (world self.old) (world self.new)) }
        ensures small { SmallReply result }
        ensures names { names self.new ≡ names self.old };

    /// Has the service answer an ask at the moment that the gate gives.
    final fn call(&mut self, ae: Ae, ask: Ask<A>) -> Reply<A>
        ensures answered { AsksOnce (record { ae = ae; ask = ask }) result (world self.old) (world self.new) }
        ensures small { SmallReply result }
        ensures names { names self.new ≡ names self.old }
    {
        self.answer(ae, &mut Some(ask))
    }
}

/// An environment whose parts are lent by the caller of the session.
#[derive(Drop)]
pub(crate) struct BorrowedEnvironment<'w, 's, 'g, W: Write, S, G> {
    /// The writer to which PDUs are written.
    pub writer: &'w mut WatchedWriter<W>,
    /// The service that is asked.
    pub service: &'s mut S,
    /// The gate between the session and its clock.
    pub gate: &'g mut G,
}

impl<'w, 's, 'g, A: Allocator + Copy, W: Write, S: Service<A>, G: Gate> Environment<A>
    for BorrowedEnvironment<'w, 's, 'g, W, S, G> {
    ghost use base.Fml.{GName};
    ghost use Rattle.ups_session.specs.World.{world};

    ghost world = { λ e. world e.writer.now (G.told e.gate.now) (S.settings e.service.now) (S.others e.service.now) (S.caller e.service.now) (S.seen e.service.now) };

    ghost Names = { GName × GName × GName };

    ghost names = { λ e. (e.writer.ghost_name, e.service.ghost_name, e.gate.ghost_name) };

    fn send_pdu(&mut self, alloc: A, pdu: &Pdu<A>) -> Result<(), SessionFault> {
        send_pdu(alloc, self.writer, self.gate, pdu)
    }

    fn send_pdus(&mut self, alloc: A, said: &[Pdu<A>]) -> Result<(), SessionFault> {
        send_pdus(alloc, self.writer, self.gate, said)
    }

    fn send_command(
        &mut self,
        buffer: &mut Vec<u8, A>,
        max: u32,
        context: u8,
        command: &[u8],
    ) -> Result<(), SessionFault> {
        send_command(self.writer, self.gate, buffer, max, context, command)
    }

    fn send_reply(
        &mut self,
        buffer: &mut Vec<u8, A>,
        max: u32,
        context: &AcceptedContext,
        request: &RequestCommand<A>,
        reply: &Reply<A>,
    ) -> Result<(), SessionFault> {
        send_reply(self.writer, self.gate, buffer, max, context, request, reply)
    }

    fn answer(&mut self, ae: Ae, ask: &mut Option<Ask<A>>) -> Reply<A> {
        let gate = &mut *self.gate;
        let moment = gate.now();
        answer(self.service, gate, ae, moment, ask)
    }
}
