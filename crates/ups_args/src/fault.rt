//! Why arguments are refused.

ghost use Rattle.std.specs.Prelude.{◌≡◌};
ghost use Rattle.ups_args.specs.declared.fault.ArgumentFault.TheVariants.{Memory};

use std::alloc::{AllocError, AllocFailed};
use thiserror::Error;

/// Why the words of a command line are refused.
#[derive(Clone, Copy, Debug, PartialEq, Eq, Error)]
pub enum ArgumentFault<'a> {
    /// The word after `--ae` is not a title.
    #[error("--ae takes the title of an application entity: 1 to 16 printable characters without a backslash")]
    Ae,
    /// This word does not name a peer.
    #[error("{0:?} is no PEER: AE=host:port or AE=host:port,lock")]
    Peer(&'a str),
    /// Two words name the same title.
    #[error("a PEER is named twice")]
    Doubled,
    /// Too many peers are named.
    #[error("more than 1,000 PEERs are named")]
    TooMany,
    /// The word after `--keep` is not a number of seconds.
    #[error("--keep takes a number of seconds, from 0 to 4294967295")]
    Keep,
    /// The word after `--offset` is not an offset from UTC.
    #[error("--offset takes a number of minutes, from -720 to 840")]
    Offset,
    /// The word after `--port` is not the number of a port.
    #[error("--port takes the number of a port, from 0 to 65535; 0 stands for any that is free")]
    Port,
    /// The word after `--associations` is not a number of associations.
    #[error("--associations takes a number from 1 to 1022")]
    Associations,
    /// The word after `--idle` is not a number of seconds.
    #[error("--idle takes a number of seconds, from 0 to 4294967295; 0 stands for no limit")]
    Idle,
    /// The word after `--timeout` is not a number of seconds.
    #[error("--timeout takes a number of seconds, from 0 to 4294967295; 0 stands for no limit")]
    Timeout,
    /// The word after `--delivery-timeout` is not a number of seconds.
    #[error("--delivery-timeout takes a number of seconds, from 0 to 4294967295; 0 stands for an hour")]
    DeliveryTimeout,
    /// The word after `--waiting` is not a number of event reports.
    #[error("--waiting takes a number of event reports, from 0 to 4294967295; 0 stands for no limit")]
    Waiting,
    /// The word after `--compact-at` is not a number of requests.
    #[error("--compact-at takes a number of requests, from 1 to 1000000000")]
    CompactAt,
    /// The word after `--until` is not a number of requests.
    #[error("--until takes a number of requests, from 0 to 18446744073709551615")]
    Until,
    /// The word after `--metrics` names a file of the store, or one beside which the numbers would be written into it.
    #[error("--metrics takes a file apart from the store: its name, and that with .new behind it, may not be that of --store, nor that with -wal, -shm or -terms behind it")]
    Metrics,
    /// The word after `--from` is no IP address.
    #[error("--from takes an IP address of this machine, as 192.0.2.1 or 2001:db8::1")]
    Source,
    /// Memory ran out.
    #[error("out of memory")]
    Memory,
}

impl From<AllocError> for ArgumentFault<'_> {
    ghost from_gives = { λ _ e. e ≡ Memory };

    fn from(_e: AllocError) -> Self {
        ArgumentFault::Memory
    }
}

impl<T: Drop> From<AllocFailed<T>> for ArgumentFault<'_> {
    ghost from_gives = { λ _ e. e ≡ Memory };

    fn from(_e: AllocFailed<T>) -> Self {
        ArgumentFault::Memory
    }
}
