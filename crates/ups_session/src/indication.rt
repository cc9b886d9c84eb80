//! The indications of an association.

ghost use Rattle.std.specs.Prelude.{◌≡◌};

use std::alloc::Allocator;
use std::mem;
use ups_pdu::{AssociateAc, AssociateRq, Bytes, PduFault, Pdv};
use ups_ulstate::UlEvent;

/// An event of the state transition table (PS3.8 section 9.2) other than a PDV, with the data that it carries. A PDV goes
/// to the party by itself: nearly all events are PDVs, and the room of an A-ASSOCIATE-RQ is large.
#[derive(Drop)]
pub(crate) enum UlIndication<A: Allocator + Copy> {
    /// An event that carries no data.
    Event(UlEvent),
    /// Bytes that are not a PDU.
    InvalidPdu(PduFault),
    /// An A-ASSOCIATE-RQ.
    AssociateRq(AssociateRq<A>),
    /// An A-ASSOCIATE-AC.
    AssociateAc(AssociateAc<A>),
}

/// Takes a PDV, and leaves an empty one in its place.
pub(crate) fn take_pdv<A: Allocator + Copy>(alloc: A, pdv: &mut Pdv<A>) -> Pdv<A>
    ensures { result ≡ pdv.old }
{
    let empty = Pdv {
        context: 0,
        command: false,
        last: false,
        bytes: Bytes::from_vec(Vec::new(alloc)),
    };
    mem::replace(pdv, empty)
}
