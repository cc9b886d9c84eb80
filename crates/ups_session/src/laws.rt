//! The laws of a session: when its service answers by the history, and that it replies before a PDU is written. Each is
//! the contract of a function that does nothing.

ghost use Rattle.std.specs.Prelude.{◌≡◌, ◌⊎◌, ◌≤◌, ◌+◌, ℕ, Bool, List, ◌∷◌, ◌++◌, length, Result};
ghost use Rattle.ups_assoc.specs.declared.negotiating.Config.{Config};
ghost use Rattle.ups_life.specs.declared.request.Reply.{Reply};
ghost use Rattle.ups_life.specs.Settings.{Settings};
ghost use Rattle.ups_pdu.specs.declared.pdu.Pdu.{Pdu};
ghost use Rattle.ups_service.specs.Law.{Others, Seen, bounded, unbounded};
ghost use Rattle.ups_session.specs.declared.fault.SessionFault.{SessionFault};
ghost use Rattle.ups_session.specs.Acceptor.{acceptor};
ghost use Rattle.ups_session.specs.Association.{AssociationView};
ghost use Rattle.ups_session.specs.Delivery.{DeliveryView};
ghost use Rattle.ups_session.specs.Fold.{Asked, Indication, Visit, wrote, Happens};
ghost use Rattle.ups_session.specs.Requestor.{requestor};
ghost use Rattle.ups_session.specs.Visits.{asks_of, replies_of, pdus_of, RepliesFirst, Sends};
ghost use Rattle.ups_session.specs.Wire.{IsPrefix, IsCut, pdu_bytes};
ghost use Rattle.ups_session.specs.World.{World, ServesAll, GrantsAll, Changes};

use std::alloc::Allocator;

/// Each ask of a session takes one call to its service, and while calls are left, each reply follows from the history.
pub fn a_session_takes_a_call_for_each_ask<A: Allocator + Copy>()
    ensures { (s : Settings) → (others : Others) → (caller : ℕ) → (seen after : Seen A) → (asks : List (Asked A)) → (moments : List ℕ) → (replies : List (Reply A)) → (made most : ℕ)
        → seen.calls ≡ bounded made most → made + length asks ≤ most → ServesAll s others caller seen asks moments replies after
        → (after.calls ≡ bounded (made + length asks) most) × GrantsAll s others caller seen asks moments replies after }
{}

/// Each ask of a session whose service alone has the history is answered by the history.
pub fn a_session_alone_is_never_refused<A: Allocator + Copy>()
    ensures { (s : Settings) → (others : Others) → (caller : ℕ) → (seen after : Seen A) → (asks : List (Asked A)) → (moments : List ℕ) → (replies : List (Reply A))
        → seen.calls ≡ unbounded → ServesAll s others caller seen asks moments replies after
        → (after.calls ≡ unbounded) × GrantsAll s others caller seen asks moments replies after }
{}

/// Before a PDU of a session is written, all that comes before it in the order of the definitions was done, and nothing
/// else: each earlier PDU is written whole, and the service has replied to each earlier ask. Its state then is the one from
/// which it replies to the later asks.
pub fn what_comes_before_a_pdu_is_done<A: Allocator + Copy>()
    ensures { (due visits front rest : List (Visit A)) → (pdu : Pdu A) → (sent : List ℕ) → (old new : World A) → (result : Result (Unit {0}) SessionFault)
        → Changes visits sent old new → Sends due visits sent new.output.failed result → visits ≡ front ++ wrote pdu ∷ rest
        → (between : World A) × (more : List ℕ) × (sent ≡ pdu_bytes (pdus_of front) ++ more) × Changes front (pdu_bytes (pdus_of front)) old between × Changes (wrote pdu ∷ rest) more between new }
{}

/// What a failed session leaves undone is PDUs alone: all that is due was asked and replied, the PDUs begun are the first
/// of those that are due, and their bytes were written, or a beginning of them.
pub fn only_pdus_are_left_undone<A: Allocator + Copy>()
    ensures { (due visits : List (Visit A)) → (sent : List ℕ) → (failed : Bool) → (result : Result (Unit {0}) SessionFault) → Sends due visits sent failed result
        → (asks_of visits ≡ asks_of due) × (replies_of visits ≡ replies_of due) × IsPrefix (pdus_of visits) (pdus_of due) × ((sent ≡ pdu_bytes (pdus_of visits)) ⊎ IsCut sent (pdu_bytes (pdus_of visits))) }
{}

/// The service replies to all that the acceptor of an association asks at an indication before a PDU is written.
pub fn an_acceptor_writes_after_the_replies<A: Allocator + Copy>()
    ensures { (config : Config) → (association after : AssociationView A) → (indication : Indication A) → (due : List (Visit A)) → Happens (acceptor config) association indication due after → RepliesFirst due }
{}

/// The service replies to all that the requestor of an association asks at an indication before a PDU is written.
pub fn a_requestor_writes_after_the_replies<A: Allocator + Copy>()
    ensures { (config : Config) → (ae : List ℕ) → (d after : DeliveryView A) → (indication : Indication A) → (due : List (Visit A)) → Happens (requestor config ae) d indication due after → RepliesFirst due }
{}
