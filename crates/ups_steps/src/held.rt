//! The row and the holder of a step.

use std::alloc::Allocator;
use ups_life::Holder;
use ups_rows::SharedRow;

/// The row and the holder of a step.
#[derive(Drop)]
pub struct HeldRow<A: Allocator + Copy> {
    /// The attributes of the step, its state, and the rest of its row, which others may share.
    pub row: SharedRow<A>,
    /// The caller that has claimed the step (PS3.4 CC.2.1), or None if nobody has.
    pub holder: Option<Holder>,
}
