//! The command sets that several tests use.

/// The command set of an N-CREATE request, which announces a data set, as a text for `bytes_of`.
pub(crate) const CREATE: &str =
    "00000000 04000000 50000000 00000200 1a000000 PUSH 00000001 02000000 4001 00001001 02000000 0100 00000008 02000000 0100 00000010 08000000 \"1.2.3.4\" 00";

/// The command set of the response to `CREATE`, which announces no data set.
pub(crate) const CREATED: &str =
    "00000000 04000000 5a000000 00000200 1a000000 PUSH 00000001 02000000 4081 00002001 02000000 0100 00000008 02000000 0101 00000009 02000000 0000 00000010 08000000 \"1.2.3.4\" 00";
