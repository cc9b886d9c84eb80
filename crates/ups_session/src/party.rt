//! A party of an association: its requestor or its acceptor.

ghost use Rattle.std.specs.Prelude.{◌≡◌, IfOk, IfErr, OnOk, MatchOption};

use crate::effect::Effect;
use crate::environment::Environment;
use crate::fault::{End, SessionFault};
use crate::indication::UlIndication;
use std::alloc::Allocator;
use ups_pdu::Pdv;

/// A party of an association (PS3.8 section 7.1): its requestor or its acceptor.
pub(crate) trait Party<A: Allocator + Copy> {
    ghost use Rattle.ups_session.specs.declared.fault.End.{End};
    ghost use Rattle.ups_session.specs.declared.fault.SessionFault.TheVariants.{Memory};
    ghost use Rattle.ups_session.specs.Fold.{Side, Happens, IsOpen, presentation_data};
    ghost use Rattle.ups_session.specs.Party.{indication_of, Comes, awaiting_reply, reaction_with, CanSend, IsOver};
    ghost use Rattle.ups_session.specs.Settled.{IsSettled};
    ghost use Rattle.ups_session.specs.World.{Performed};

    /// The type of its calls to the service.
    type Call: Drop;

    /// The setup before the association: the titles, and the offset of the local time from UTC.
    ghost Setup: { Type 0 };

    /// The view of a party in the definitions.
    ghost View: { Type 0 };

    /// The view of a call in the definitions.
    ghost CallView: { Type 0 };

    /// The side of the association that a party takes, by its setup.
    ghost side: { Setup → Side A View CallView };

    /// The view of a party before anything happens.
    ghost start: { View };

    /// How the association ends, by what has happened.
    ghost ending: { View → End };

    /// The setup of a party.
    ghost setup: { Self → Setup };

    /// The view of a party.
    ghost view: { Self → View };

    /// The view of a call.
    ghost call_view: { Self.Call → CallView };

    /// Whether a party can send what it may have to.
    ghost is_ready: { Self → Type 0 };

    /// Whether a party can send the reply to a call.
    ghost is_roomy: { Self.Call → Type 0 };

    /// Begins the association: the requestor sends its A-ASSOCIATE-RQ, and the acceptor awaits one.
    ///
    /// Errors: a failed write; out of memory.
    fn begin<E: Environment<A>>(
        &mut self,
        alloc: A,
        environment: &mut E,
    ) -> Result<(), SessionFault>
        requires start { view self.old ≡ start }
        requires ready { is_ready self.old }
        ensures begins { Performed (Happens (side (setup self.old))) (side (setup self.old)).first start (view self.new) (E.world environment.old) (E.world environment.new) result }
        ensures open { OnOk result (IsOpen ((side (setup self.old)).state (view self.new))) }
        ensures ready { OnOk result (is_ready self.new) }
        ensures setup { setup self.new ≡ setup self.old }
        ensures names { E.names environment.new ≡ E.names environment.old };

    /// Reacts to an indication other than a PDV, by the state transition table (PS3.8 section 9.2).
    ///
    /// Errors: out of memory.
    fn react(
        &mut self,
        alloc: A,
        indication: &UlIndication<A>,
    ) -> Result<Effect<A, Self::Call>, SessionFault>
        requires ready { is_ready self.old }
        requires comes { Comes (indication_of indication.now) }
        ensures reacts { IfOk result (λ effect. (side (setup self.old)).Reacts (view self.old) (indication_of indication.now) (reaction_with call_view (view self.new) effect)) }
        ensures sendable { IfOk result (CanSend is_roomy) }
        ensures ready { OnOk result (is_ready self.new) }
        ensures setup { setup self.new ≡ setup self.old }
        ensures memory { IfErr result (λ e. e ≡ Memory) };

    /// Reacts to a PDV of a P-DATA-TF, as `react` does to other indications, and takes it. The PDV is not passed by value,
    /// since the toolchain can't yet prove an impl whose method takes a value that is generic in its allocator.
    ///
    /// Errors: out of memory.
    fn react_to_pdv(
        &mut self,
        alloc: A,
        pdv: &mut Pdv<A>,
    ) -> Result<Effect<A, Self::Call>, SessionFault>
        requires ready { is_ready self.old }
        ensures reacts { IfOk result (λ effect. (side (setup self.old)).Reacts (view self.old) (presentation_data pdv.old) (reaction_with call_view (view self.new) effect)) }
        ensures sendable { IfOk result (CanSend is_roomy) }
        ensures ready { OnOk result (is_ready self.new) }
        ensures setup { setup self.new ≡ setup self.old }
        ensures memory { IfErr result (λ e. e ≡ Memory) };

    /// Calls the service, and sends what its reply leads to. The buffer is for the bytes of one PDU after the other.
    ///
    /// Errors: a failed write; out of memory. What the service accepted stays accepted.
    fn settle<E: Environment<A>>(
        &mut self,
        environment: &mut E,
        buffer: &mut Vec<u8, A>,
        call: Self::Call,
    ) -> Result<(), SessionFault>
        requires ready { is_ready self.old }
        requires roomy { is_roomy call }
        ensures settled { IsSettled (side (setup self.old)) (awaiting_reply (view self.old) (call_view call)) (view self.new) (E.world environment.old) (E.world environment.new) result }
        ensures ready { OnOk result (is_ready self.new) }
        ensures setup { setup self.new ≡ setup self.old }
        ensures names { E.names environment.new ≡ E.names environment.old };

    /// Returns how the association ended, or None while it goes on. Once the transport connection is closed, the
    /// association has ended.
    fn end(&self) -> Option<End>
        ensures ended { MatchOption result (IsOpen ((side (setup self.now)).state (view self.now))) (λ end. (IsOpen ((side (setup self.now)).state (view self.now)) → ⊥) × (ending (view self.now) ≡ end)) }
        ensures over { IsOver (side (setup self.now)) };
}
