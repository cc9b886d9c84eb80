//! The first of some rows.

ghost use Rattle.std.specs.Prelude.{◌≡◌, slice_get};
ghost use Rattle.std.specs.Option.{option_copied};
ghost use Rattle.ups_rows.specs.Answering.{attributes_of_rows, rows_of_parts};

use crate::shared_part::SharedPart;
use crate::shared_row::SharedRow;
use std::alloc::Allocator;
use ups_dataset::DataSet;

/// Returns the attributes of the first row, or None if there is none.
pub(crate) fn first_of<A: Allocator + Copy>(rows: &[SharedRow<A>]) -> Option<&DataSet<A>>
    ensures { option_copied result ≡ slice_get (attributes_of_rows rows.now) 0 }
{
    match rows.first() {
        Some(row) => Some(&row.get().attributes),
        None => None,
    }
}

/// Returns the attributes of the first row of parts, or None if each of them is empty.
pub(crate) fn first_of_parts<A: Allocator + Copy>(parts: &[SharedPart<A>]) -> Option<&DataSet<A>>
    ensures { option_copied result ≡ slice_get (rows_of_parts parts.now) 0 }
{
    for part in parts {
        if let Some(attributes) = first_of(part.rows()) {
            return Some(attributes);
        }
    }
    None
}
