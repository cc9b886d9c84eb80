//! Laying one data set over another.

ghost use Rattle.std.specs.Prelude.{◌≡◌, [], map, MatchOption, IfOk};
ghost use Rattle.ups_dataset.specs.Data.{laid_over};
ghost use Rattle.ups_dataset.specs.Next.{IsNextElement};
ghost use Rattle.ups_dataset.specs.Valid.{IsDataSet};
ghost use Rattle.ups_dataset.specs.View.{element_view};

use crate::copying::copy_element;
use crate::set::Element;
use crate::trimming::trim;
use std::alloc::{AllocError, Allocator};

/// Returns the element with the lowest tag, from `above` if both have it, and the rest of the two lists.
fn next<'a, A: Allocator + Copy>(
    above: &'a [Element<A>],
    below: &'a [Element<A>],
) -> Option<(&'a Element<A>, &'a [Element<A>], &'a [Element<A>])>
    requires above_rises { IsDataSet (map element_view above.now) }
    requires below_rises { IsDataSet (map element_view below.now) }
    ensures { MatchOption result (laid_over (map element_view above.now) (map element_view below.now) ≡ [])
        (λ x. IsNextElement (map element_view above.now) (map element_view below.now) (element_view x.0.now) (map element_view x.1.now) (map element_view x.2.now)) }
{
    let [upper, above_left @ ..] = above else {
        let [lower, below_left @ ..] = below else {
            return None;
        };
        return Some((lower, above, below_left));
    };
    let [lower, below_left @ ..] = below else {
        return Some((upper, above_left, below));
    };
    if lower.tag.number() < upper.tag.number() {
        return Some((lower, above, below_left));
    }
    if lower.tag == upper.tag {
        return Some((upper, above_left, below_left));
    }
    Some((upper, above_left, below))
}

/// Copies the elements of `above`, and those of `below` whose tags `above` does not have.
pub(crate) fn merged<A: Allocator + Copy>(
    alloc: A,
    above: &[Element<A>],
    below: &[Element<A>],
) -> Result<Vec<Element<A>, A>, AllocError>
    requires above_rises { IsDataSet (map element_view above.now) }
    requires below_rises { IsDataSet (map element_view below.now) }
    ensures { IfOk result (λ v. map element_view v.items ≡ laid_over (map element_view above.now) (map element_view below.now)) }
{
    let mut elements = Vec::with_capacity(alloc, above.len().max(below.len()))?;
    let mut upper = above;
    let mut lower = below;
    while let Some((element, upper_left, lower_left)) = next(upper, lower) {
        elements.push(copy_element(alloc, element)?)?;
        upper = upper_left;
        lower = lower_left;
    }
    trim(&mut elements)?;
    Ok(elements)
}
