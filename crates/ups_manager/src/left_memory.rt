//! The memory that a creation leaves for requests on the existing steps.

ghost use Rattle.std.specs.Prelude.{◌≡◌, true, OnErr};
ghost use Rattle.ups_tables.specs.Live.{is_create};

use std::alloc::{AllocError, Allocator};
use ups_life::Request;

/// The memory that a creation leaves, in bytes: room for sixteen messages of the largest size (1,048,576 bytes) that
/// are read at the same time.
const SIZE: usize = 16_777_216;

/// The part of it that is kept between two creations, in bytes.
const KEPT: usize = 4_096;

/// The size of a block that holds the largest message, in bytes.
const LARGE: usize = 1_048_576;

/// The number of such blocks that a creation leaves if no single block can hold the whole reserve.
const LARGE_BLOCKS: usize = 14;

/// The size of a block that fits where a small step was, in bytes.
const SMALL: usize = 1_024;

/// The number of such blocks that a creation leaves beside the large ones: the rest of the reserve.
const SMALL_BLOCKS: usize = 2_048;

/// The number of entries for which one look ahead serves.
const ENTRIES: usize = 64;

/// The size of a data set, in bytes, up to which an entry counts as one of them.
const SMALL_SET: u64 = 16_384;

/// What so many entries take at most, in bytes, beside what the tables grow by: 22 for each byte of their data sets.
const AHEAD: usize = 33_554_432;

/// What the tables take for an entry or a UID that is remembered, at most, in bytes, if all of them grow at once.
const GROWTH: usize = 4_096;

/// Allocates `count` blocks of a size.
///
/// Errors: if memory runs out.
fn take_blocks<A: Allocator + Copy>(
    alloc: A,
    count: usize,
    size: usize,
) -> Result<Vec<Vec<u8, A>, A>, AllocError> {
    let mut blocks = Vec::with_capacity(alloc, count)?;
    for _ in 0..count {
        blocks.push(Vec::with_capacity(alloc, size)?)?;
    }
    Ok(blocks)
}

/// Allocates the reserve in blocks, and frees it at once. After a sweep the free memory lies between entries that stay,
/// so no single block can hold all of it.
///
/// Errors: if memory runs out.
fn probe_blocks<A: Allocator + Copy>(alloc: A) -> Result<(), AllocError> {
    let _large = take_blocks(alloc, LARGE_BLOCKS, LARGE)?;
    let _small = take_blocks(alloc, SMALL_BLOCKS, SMALL)?;
    Ok(())
}

/// Returns the size of the data set of a request, in bytes, or the greatest number for a subscription, whose keys are
/// not measured.
fn set_size<A: Allocator + Copy>(request: &Request<A>) -> u64 {
    match request {
        Request::Subscribe { .. } => u64::MAX,
        Request::Create { attributes, .. } | Request::Set { attributes, .. } => attributes.size(),
        Request::AskCancel { reasons, .. } => reasons.size(),
        _ => 0,
    }
}

/// The reserve: a block that grows to `SIZE` bytes at a creation, and shrinks again at once. If it can grow by all that
/// the next entries may take beside that, it serves for these too, since to grow and to shrink takes two calls of the
/// system, and threads that read messages wait for them.
///
/// If a new block were allocated and freed each time, the C library would from then on take blocks up to that size from
/// its own heap. It copies such a block when it grows, unlike one that the system has mapped: the largest tables would
/// be copied in the midst of a creation.
#[derive(Drop)]
pub(crate) struct LeftMemory<A: Allocator + Copy> {
    alloc: A,
    block: Vec<u8, A>,
    /// The number of entries up to which the last look ahead serves.
    until: usize,
}

impl<A: Allocator + Copy> LeftMemory<A> {
    /// Returns a reserve that has allocated nothing yet.
    pub(crate) fn new(alloc: A) -> LeftMemory<A> {
        LeftMemory {
            alloc,
            block: Vec::new(alloc),
            until: 0,
        }
    }

    // Returns whether so many bytes can be allocated as one block.
    fn is_one_block(&mut self, size: usize) -> bool {
        let is_one = self.block.reserve_exact(size).is_ok();
        self.block.shrink_to(KEPT);
        is_one
    }

    // Returns whether the reserve can be allocated: as one block, or else as 14 of 1 MiB and 2,048 of 1 KiB.
    fn is_there(&mut self) -> bool {
        self.is_one_block(SIZE) || probe_blocks(self.alloc).is_ok()
    }

    // Returns whether the reserve can be allocated beside what the next entries may take, with so many entries and UIDs
    // that are remembered.
    fn is_far(&mut self, remembered: usize) -> bool {
        let growth = remembered.saturating_mul(GROWTH);
        self.is_one_block(growth.saturating_add(SIZE + AHEAD))
    }

    // Returns whether the reserve is left after `entries` entries: by the last look ahead, another one, or as it is.
    fn is_left(&mut self, entries: usize, remembered: usize) -> bool {
        if entries < self.until {
            return true;
        }
        if self.is_far(remembered) {
            self.until = entries.saturating_add(ENTRIES);
            return true;
        }
        self.is_there()
    }

    /// Checks that a request that creates a step leaves the reserve, after `entries` entries; `remembered` are those in
    /// memory and the used UIDs, with which the tables grow. Every other request may use the reserve, which is for requests
    /// on the existing steps.
    ///
    /// Errors: if a request that creates a step does not leave it. Any other request succeeds.
    pub(crate) fn leave(
        &mut self,
        request: &Request<A>,
        entries: usize,
        remembered: usize,
    ) -> Result<(), AllocError>
        ensures request { OnErr result (is_create request.now ≡ true) }
    {
        if set_size(request) > SMALL_SET {
            self.until = 0;
        }
        match request {
            Request::Create { .. } if !self.is_left(entries, remembered) => Err(AllocError),
            _ => Ok(()),
        }
    }
}
