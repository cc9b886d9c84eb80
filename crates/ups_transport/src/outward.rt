//! What has left the sink of one association.

ghost use Rattle.std.specs.Prelude.{◌≡◌, ◌≤◌, length, IfOk};
ghost use Rattle.ups_transport.specs.Leaving.{HasLeft};

use crate::sink::Sink;
use crate::wire_fault::WireFault;
use std::alloc::Global;
use std::marker::{Brand, PhantomData};
use std::time::Duration;
use ups_ledger::{CommitDue, Committed, Keeping, Noted};

/// What is known of one association.
pub trait Departing: Noted {
    ghost use Rattle.std.specs.Prelude.{List, Option};
    ghost use Rattle.ups_transport.specs.Leaving.{Departed};

    /// What had left its sink before it.
    ghost left: { Option (List Departed) };
}

impl Departing for Brand {
    ghost use Rattle.std.specs.Prelude.{None};

    ghost left = { None };
}

/// The sink of one association. All that has left it since the association began rests on what was committed then.
#[derive(Drop)]
pub(crate) struct Outward<D: Departing, K: Keeping, S: Sink> {
    sink: S,
    of: PhantomData<D>,
    keeping: PhantomData<K>,
    ghost left: { ∥ HasLeft K.had D.left (S.left sink) ∥₁ },
}

impl<D: Departing, K: Keeping, S: Sink> Outward<D, K, S> {
    /// Begins with a sink.
    pub(crate) fn new(sink: S) -> Outward<D, K, S>
        requires left { S.left sink ≡ D.left }
    {
        Outward {
            sink,
            of: PhantomData,
            keeping: PhantomData,
        }
    }

    /// Makes a write wait for `limit`, or a little longer.
    pub(crate) fn set_limit(&mut self, limit: Option<Duration>) -> Result<(), WireFault> {
        self.sink.set_limit(limit)
    }

    /// Writes once, while at least as many entries are committed as are due.
    pub(crate) fn write_backed(
        &mut self,
        due: &CommitDue<D>,
        committed: &Committed<K>,
        bytes: &[u8],
    ) -> Result<usize, WireFault>
        requires backed { due.now.seen.total ≤ committed.now.count }
        ensures most { IfOk result (λ count. count ≤ length bytes.now) }
    {
        self.sink.write_backed(due, committed, bytes)
    }

    /// Writes an A-ABORT by the service provider, as far as the connection takes it at once.
    pub(crate) fn write_abort(&mut self, alloc: Global) -> Result<(), WireFault> {
        self.sink.write_abort(alloc)
    }

    /// Returns the sink.
    pub(crate) fn into_sink(self) -> S
        ensures { ∥ HasLeft K.had D.left (S.left result) ∥₁ }
    {
        let Outward { sink, .. } = self;
        sink
    }
}
