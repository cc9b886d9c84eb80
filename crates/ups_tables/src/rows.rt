//! A held step.

use std::alloc::Allocator;
use ups_life::{Holder, Row, StepUid};

/// A step that is held.
#[derive(Drop)]
pub struct HeldStep<A: Allocator + Copy> {
    /// The instance UID.
    pub step: StepUid,
    /// The attributes of the step, its state, and the rest of its row.
    pub row: Row<A>,
    /// The caller that has claimed the step (PS3.4 CC.2.1), or None if nobody has.
    pub holder: Option<Holder>,
}
