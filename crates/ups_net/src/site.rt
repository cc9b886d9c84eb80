//! What a thread of a server works with.

use crate::options::ServerOptions;
use std::alloc::{AllocError, Global};
use ups_ledger::{Commits, Keeping};
use ups_service::SharedService;
use ups_turn::Desk;

/// What a thread of a server works with: references that it shares with the others.
pub struct Site<'a, M: SharedService<Global>, K: Keeping, R> {
    /// The runtime.
    pub rt: &'a R,
    /// The desk of the passes.
    pub desk: &'a Desk<M, Global>,
    /// The options of the server.
    pub options: &'a ServerOptions,
    /// The commits for which answers and reports wait.
    pub commits: &'a Commits<K>,
}

impl<'a, M: SharedService<Global>, K: Keeping, R> Clone for Site<'a, M, K, R> {
    fn clone(&self) -> Result<Site<'a, M, K, R>, AllocError> {
        Ok(*self)
    }
}

impl<'a, M: SharedService<Global>, K: Keeping, R> Copy for Site<'a, M, K, R> {}
