//! The place of an element in a data set.

ghost use Rattle.std.specs.Prelude.{◌≡◌, map, OnOk, OnErr};
ghost use Rattle.ups_dataset.specs.Data.{place_in, stands_at, put};
ghost use Rattle.ups_dataset.specs.Valid.{IsDataSet};
ghost use Rattle.ups_dataset.specs.View.{element_view};

use crate::set::Element;
use crate::tag::Tag;
use std::alloc::{AllocError, Allocator};

/// Returns the number of elements with tags below `tag`, by binary search, since tags ascend (PS3.5 section 7.1).
pub(crate) fn place_of<A: Allocator + Copy>(elements: &[Element<A>], tag: Tag) -> usize
    requires { IsDataSet (map element_view elements.now) }
    ensures { result ≡ place_in tag (map element_view elements.now) }
{
    elements.partition_point(|element| element.tag.number() < tag.number())
}

/// Returns whether an element with this tag is at index `place`.
pub(crate) fn stands_at<A: Allocator + Copy>(
    elements: &[Element<A>],
    place: usize,
    tag: Tag,
) -> bool
    ensures { result ≡ stands_at tag place (map element_view elements.now) }
{
    place < elements.len() && elements[place].tag == tag
}

/// Inserts an element in the order of tags, replacing the element with the same tag if there is one.
pub(crate) fn put<A: Allocator + Copy>(
    elements: &mut Vec<Element<A>, A>,
    element: Element<A>,
) -> Result<(), AllocError>
    requires { IsDataSet (map element_view elements.old.items) }
    ensures ok { OnOk result (map element_view elements.new.items ≡ put (element_view element) (map element_view elements.old.items)) }
    ensures err { OnErr result (elements.new.items ≡ elements.old.items) }
{
    let place = place_of(elements, element.tag);
    if stands_at(elements, place, element.tag) {
        elements[place] = element;
        return Ok(());
    }
    elements.insert(place, element)?;
    Ok(())
}
