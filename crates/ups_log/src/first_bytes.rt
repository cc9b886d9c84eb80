//! The first bytes of a connection, which name its peer.

/// The number of bytes of an association request up to the end of the calling AE title (PS3.8 table 9-11).
const TITLED: usize = 42;

/// The first bytes that were read on a connection: those of an association request up to the end of its titles.
#[derive(Clone, Copy)]
pub(crate) struct FirstBytes {
    bytes: [u8; TITLED],
    len: usize,
}

impl FirstBytes {
    /// Creates the first bytes of a connection of which nothing was read.
    pub(crate) fn new() -> FirstBytes {
        FirstBytes {
            bytes: [0; TITLED],
            len: 0,
        }
    }

    /// Appends the bytes of a read, as many as are missing, and returns whether they complete the first bytes.
    pub(crate) fn add(&mut self, read: &[u8]) -> bool {
        for byte in read {
            let Some(place) = self.bytes.get_mut(self.len) else {
                return false;
            };
            *place = *byte;
            self.len = self.len.saturating_add(1);
            if self.len == TITLED {
                return true;
            }
        }
        false
    }

    /// Returns the first bytes, with zeros in the place of those that were not read.
    pub(crate) fn as_slice(&self) -> &[u8] {
        &self.bytes
    }
}
