//! The protocol data units (PS3.8 section 9.3.1).

ghost use Rattle.std.specs.Prelude.{◌≡◌};
ghost use Rattle.ups_pdu.specs.Written.{pdu_kind};

use crate::associate::{AssociateAc, AssociateRq};
use crate::kind::PduKind;
use crate::pdv::Pdvs;
use std::alloc::Allocator;

/// A protocol data unit of the upper layer.
#[derive(Drop)]
pub enum Pdu<A: Allocator + Copy> {
    /// A-ASSOCIATE-RQ (PS3.8 section 9.3.2): a request for an association.
    AssociateRq(AssociateRq<A>),
    /// A-ASSOCIATE-AC (PS3.8 section 9.3.3): the acceptance of a request.
    AssociateAc(AssociateAc<A>),
    /// A-ASSOCIATE-RJ (PS3.8 section 9.3.4): the rejection of a request.
    AssociateRj { result: u8, source: u8, reason: u8 },
    /// P-DATA-TF (PS3.8 section 9.3.5): fragments of messages.
    Data(Pdvs<A>),
    /// A-RELEASE-RQ (PS3.8 section 9.3.6): a request to end the association.
    ReleaseRq,
    /// A-RELEASE-RP (PS3.8 section 9.3.7): the answer to a request to end the association.
    ReleaseRp,
    /// A-ABORT (PS3.8 section 9.3.8): the immediate end of the association.
    Abort { source: u8, reason: u8 },
}

impl<A: Allocator + Copy> Pdu<A> {
    /// Returns the type of this PDU.
    pub fn kind(&self) -> PduKind
        ensures { result ≡ pdu_kind self.now }
    {
        match self {
            Pdu::AssociateRq(_) => PduKind::AssociateRq,
            Pdu::AssociateAc(_) => PduKind::AssociateAc,
            Pdu::AssociateRj { .. } => PduKind::AssociateRj,
            Pdu::Data(_) => PduKind::Data,
            Pdu::ReleaseRq => PduKind::ReleaseRq,
            Pdu::ReleaseRp => PduKind::ReleaseRp,
            Pdu::Abort { .. } => PduKind::Abort,
        }
    }
}
