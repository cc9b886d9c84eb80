//! Trimming lists to the room that their elements take.

ghost use Rattle.std.specs.Prelude.{◌≡◌, ◌≤◌, OnOk, vec_len, vec_capacity};

use std::alloc::{AllocError, Allocator};

/// Frees the room that a complete list has beyond its elements. A data set may have very many short lists, and growth
/// leaves room for up to twice as many elements.
///
/// # Errors
///
/// If the allocator can't make the block smaller.
pub(crate) fn trim<T, A: Allocator + Copy>(list: &mut Vec<T, A>) -> Result<(), AllocError>
    ensures same { list.new.items ≡ list.old.items }
    ensures tight { OnOk result (vec_capacity list.new ≤ vec_len list.new) }
{
    list.shrink_to_fit();
    if list.capacity() > list.len() {
        return Err(AllocError);
    }
    Ok(())
}
