//! The row of a step, which several owners share.

ghost use Rattle.std.specs.Prelude.{◌≡◌, IfOk};

use std::alloc::{AllocError, Allocator};
use std::marker::Model;
use std::sync::Arc;
use ups_life::Row;

/// The row of a step, which several owners share, in any threads. It never changes: if its step does, the step gets
/// another row. A contract sees the row.
#[derive(Drop)]
pub struct SharedRow<A: Allocator + Copy> {
    row: Arc<Row<A>, A>,
}

impl<A: Allocator + Copy> Model for SharedRow<A> {
    ghost use Rattle.ups_life.specs.declared.row.Row.{Row as RowOf};
    ghost use Rattle.std.specs.Arc.{arc_value};

    ghost Value = { RowOf A };

    ghost use Rattle.std.specs.Coded.{codes};
    ghost use Rattle.ups_dataset.specs.Code.{set_code};

    ghost coded = { Prim.hlevel (set_code, codes) };

    ghost view = { λ s. arc_value s.row };
}

impl<A: Allocator + Copy> SharedRow<A> {
    /// Returns a row with one owner.
    ///
    /// # Errors
    ///
    /// If memory runs out.
    pub fn new(alloc: A, row: Row<A>) -> Result<SharedRow<A>, AllocError>
        ensures { IfOk result (λ s. s ≡ row) }
    {
        let row = Arc::new(alloc, row)?;
        Ok(SharedRow { row })
    }

    /// Returns the row.
    pub fn get(&self) -> &Row<A>
        ensures { result.now ≡ self.now }
    {
        &self.row
    }

    /// Returns the same row, for one more owner. Nothing is copied.
    ///
    /// # Errors
    ///
    /// If there are 2^63 owners.
    pub fn share(&self) -> Result<SharedRow<A>, AllocError>
        ensures { IfOk result (λ s. s ≡ self.now) }
    {
        let row = Arc::try_clone(&self.row)?;
        Ok(SharedRow { row })
    }
}
