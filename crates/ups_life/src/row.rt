//! The data held for a step.

use std::alloc::Allocator;
use ups_cycle::StepState;
use ups_dataset::DataSet;
use ups_pdu::{Ae, Uid};

/// The data held for a step.
#[derive(Drop)]
pub struct Row<A: Allocator + Copy> {
    /// The attributes of the step.
    pub attributes: DataSet<A>,
    /// The state of the step.
    pub state: StepState,
    /// The Transaction UID of its claim, or None if it is not claimed.
    pub transaction: Option<Uid>,
    /// The moment when its state became final, in seconds since 1970-01-01 UTC, or None if it is not final.
    pub final_at: Option<u64>,
}

/// The holder of a step, who has claimed it.
#[derive(Clone, Copy)]
pub struct Holder {
    /// The number of the caller, which identifies the pass to the service that made the call.
    pub caller: u32,
    /// The title of the application entity.
    pub ae: Ae,
}
