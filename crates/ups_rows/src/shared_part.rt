//! The rows of several steps, which several owners share as one.

ghost use Rattle.std.specs.Prelude.{◌≡◌, IfOk};
ghost use Rattle.ups_rows.specs.Answering.{attributes_of_rows};

use crate::shared_row::SharedRow;
use std::alloc::{AllocError, Allocator};
use std::marker::Model;
use std::sync::Arc;

/// The rows of several steps, which several owners share as one, in any threads: one more owner of the part costs no
/// more than one more owner of a single row. They never change. A contract sees their attributes, in order.
#[derive(Drop)]
pub struct SharedPart<A: Allocator + Copy> {
    rows: Arc<Vec<SharedRow<A>, A>, A>,
}

impl<A: Allocator + Copy> Model for SharedPart<A> {
    ghost use Rattle.std.specs.Prelude.{List};
    ghost use Rattle.ups_dataset.specs.Data.{El};

    ghost Value = { List (List El) };

    ghost use Rattle.ups_life.specs.SetsCode.{sets_code};

    ghost coded = { sets_code };

    ghost use Rattle.std.specs.Arc.{arc_value};
    ghost use Rattle.ups_rows.specs.Answering.{attributes_of_rows};

    ghost view = { λ p. attributes_of_rows (arc_value p.rows).items };
}

impl<A: Allocator + Copy> SharedPart<A> {
    /// Returns a part of these rows, with one owner.
    ///
    /// # Errors
    ///
    /// If memory runs out.
    pub fn new(alloc: A, rows: Vec<SharedRow<A>, A>) -> Result<SharedPart<A>, AllocError>
        ensures { IfOk result (λ part. part ≡ attributes_of_rows rows.items) }
    {
        let rows = Arc::new(alloc, rows)?;
        Ok(SharedPart { rows })
    }

    /// Returns the same part, for one more owner. Nothing is copied.
    ///
    /// # Errors
    ///
    /// If there are 2^63 owners.
    pub fn share(&self) -> Result<SharedPart<A>, AllocError>
        ensures { IfOk result (λ part. part ≡ self.now) }
    {
        let rows = Arc::try_clone(&self.rows)?;
        Ok(SharedPart { rows })
    }

    /// Returns the rows.
    pub(crate) fn rows(&self) -> &[SharedRow<A>]
        ensures { attributes_of_rows result.now ≡ self.now }
    {
        self.rows.as_slice()
    }
}
