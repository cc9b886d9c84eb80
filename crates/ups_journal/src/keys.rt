//! Reading the keys of a filter from a record.

ghost use Rattle.std.specs.Prelude.{◌≡◌, None, MatchResult};
ghost use Rattle.ups_match.specs.Matching.{fault_of};
ghost use Rattle.ups_life.specs.Instances.{IsFilter};

use crate::fault::RecordFault;
use std::alloc::Allocator;
use ups_dataset::DataSet;
use ups_life::Filter;
use ups_match::Keys;

/// Returns the filter with these keys.
///
/// Errors: BadKeys if they are unreadable, or are all universal.
pub(crate) fn filter_in<A: Allocator + Copy>(
    alloc: A,
    attributes: DataSet<A>,
    offset: i16,
) -> Result<Filter<A>, RecordFault>
    ensures { MatchResult result (λ f. (f ≡ record { attributes = attributes; offset = offset }) × (fault_of offset attributes ≡ None) × IsFilter f) (λ f. fault_of offset attributes ≡ None → IsFilter (record { attributes = attributes; offset = offset }) → ⊥) }
{
    let Ok(keys) = Keys::of(attributes, offset) else {
        return Err(RecordFault::BadKeys);
    };
    match Filter::of(alloc, keys) {
        Some(filter) => Ok(filter),
        None => Err(RecordFault::BadKeys),
    }
}
