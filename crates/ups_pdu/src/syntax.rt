//! Transfer syntaxes.

/// A transfer syntax (PS3.5 section 10): the encoding of a data set.
#[derive(Clone, Copy, Debug, PartialEq, Eq)]
pub enum TransferSyntax {
    /// Implicit VR Little Endian (PS3.5 annex A.1).
    Implicit,
    /// Explicit VR Little Endian (PS3.5 annex A.2).
    Explicit,
}
