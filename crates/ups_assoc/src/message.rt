//! Messages as bytes.

use std::alloc::Allocator;
use ups_pdu::Bytes;

/// A DIMSE message as the bytes of its command set and of its data set (PS3.7 section 6.3.1).
pub struct RawMessage<A: Allocator + Copy> {
    /// The presentation context id.
    pub context: u8,
    /// The bytes of the command set.
    pub command: Bytes<A>,
    /// The bytes of the data set, if the command set announces one.
    pub body: Option<Bytes<A>>,
}

impl<A: Allocator + Copy> Drop for RawMessage<A> {
    fn drop(self) {
        let RawMessage {
            context: _,
            command: _,
            body: _,
        } = self;
    }
}
