//! Fragments of messages (PS3.8 section 9.3.5.1, annex E).

ghost use Rattle.std.specs.Prelude.{◌≡◌};

use crate::bytes::Bytes;
use std::alloc::Allocator;
use std::marker::Model;

/// A presentation data value (PDV): a fragment of a command set or of a data set, on a presentation context.
#[derive(Drop)]
pub struct Pdv<A: Allocator + Copy> {
    /// The presentation context id.
    pub context: u8,
    /// Whether the fragment belongs to a command set.
    pub command: bool,
    /// Whether the fragment is the last of its command set or data set.
    pub last: bool,
    /// The bytes of the message in this fragment.
    pub bytes: Bytes<A>,
}

/// The PDVs of one PDU, in order. Contracts see them as a list.
#[derive(Drop)]
pub struct Pdvs<A: Allocator + Copy> {
    pdvs: Vec<Pdv<A>, A>,
}

impl<A: Allocator + Copy> Model for Pdvs<A> {
    ghost use Rattle.std.specs.Prelude.{List};
    ghost use Rattle.ups_pdu.specs.declared.pdv.Pdv.{Pdv};

    ghost Value = { List (Pdv A) };

    ghost view = { λ p. p.pdvs.items };
}

impl<A: Allocator + Copy> Pdvs<A> {
    /// Wraps a vector, without allocating memory.
    pub fn from_vec(pdvs: Vec<Pdv<A>, A>) -> Pdvs<A>
        ensures { result ≡ pdvs.items }
    {
        Pdvs { pdvs }
    }

    /// Returns the vector, without allocating memory.
    pub fn into_vec(self) -> Vec<Pdv<A>, A>
        ensures { result.items ≡ self }
    {
        let Pdvs { pdvs } = self;
        pdvs
    }

    /// Returns the PDVs as a slice.
    pub fn as_slice(&self) -> &[Pdv<A>]
        ensures { result.now ≡ self.now }
    {
        self.pdvs.as_slice()
    }
}
