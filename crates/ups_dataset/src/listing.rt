//! Finding tags in a sorted list of their numbers.

ghost use Rattle.std.specs.Prelude.{◌≡◌, List, IfOk};
ghost use Rattle.std.specs.List.Sorted.{IsNonDecreasing};
ghost use Rattle.ups_dataset.specs.Listed.{Lists};
ghost use Rattle.ups_dataset.specs.Tag.{IsTag, number};
ghost use Rattle.ups_dataset.specs.declared.tag.Tag.{Tag};
ghost use Rattle.ups_dataset.specs.Data.{is_listed};

use crate::tag::Tag;
use std::alloc::{AllocError, Allocator};

/// Returns the number of a tag. Its contract tells a proof that the parts of the tag have two bytes each.
fn number_of(tag: Tag) -> u32
    ensures number { result ≡ number tag }
    ensures fits { IsTag tag }
{
    tag.number()
}

/// Returns the numbers of these tags, in ascending order.
pub(crate) fn sorted_numbers<A: Allocator + Copy>(
    alloc: A,
    tags: &[Tag],
) -> Result<Vec<u32, A>, AllocError>
    ensures { IfOk result (λ v. Lists tags.now v.items) }
{
    let mut numbers = Vec::new(alloc);
    for tag in tags {
        numbers.push(number_of(*tag))?;
    }
    numbers.sort()?;
    Ok(numbers)
}

/// Returns whether the number of a tag is among `numbers`.
pub(crate) fn is_listed(numbers: &[u32], tag: Tag) -> bool
    requires { IsNonDecreasing numbers.now }
    ensures { (tags : List Tag) → Lists tags numbers.now → result ≡ is_listed tag tags }
{
    numbers.binary_search(&tag.number()).is_ok()
}
