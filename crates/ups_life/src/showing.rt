//! The replies that show attributes of a step.

ghost use Rattle.std.specs.Prelude.{◌≡◌, IfOk};
ghost use Rattle.ups_life.specs.History.{has_all, shown};

use crate::request::Reply;
use std::alloc::{AllocError, Allocator};
use ups_cycle::Status;
use ups_dataset::{DataSet, Tag};

/// Returns whether the data set has an element for each of the tags.
fn has_all<A: Allocator + Copy>(set: &DataSet<A>, tags: &[Tag]) -> bool
    ensures { result ≡ has_all set.now tags.now }
{
    for tag in tags {
        if set.get(*tag).is_none() {
            return false;
        }
    }
    true
}

/// Returns the reply to an N-GET of the attributes of a step (PS3.4 CC.2.7): all of them if `listed` is empty, else the
/// listed ones, with status 0001 if one of them is absent.
///
/// Errors: out of memory.
pub fn shown<A: Allocator + Copy>(
    attributes: &DataSet<A>,
    listed: &[Tag],
) -> Result<Reply<A>, AllocError>
    ensures { IfOk result (λ reply. reply ≡ shown attributes.now listed.now) }
{
    if listed.is_empty() {
        return Ok(Reply::Set(Status::Success, attributes.copy()?));
    }
    let status = if has_all(attributes, listed) {
        Status::Success
    } else {
        Status::AttributesNotSupported
    };
    Ok(Reply::Set(status, attributes.project(listed)?))
}
