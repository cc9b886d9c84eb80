use fixtures::Refusing;
use std::alloc::{AllocError, Allocator, Global};

/// Returns whether the first growth of a list is refused, and the second is not.
fn is_first_refused(heap: &Refusing<Global>) -> bool {
    let mut values = Vec::new(heap);
    let was_armed = heap.is_armed();
    heap.refuse(1);
    let is_armed = heap.is_armed();
    let is_refused = values.push(7u64).is_err();
    let is_over = !heap.is_armed();
    let is_put = values.push(8).is_ok();
    !was_armed && is_armed && is_refused && is_over && is_put && values.as_slice() == [8].as_slice()
}

#[test]
fn refuses_the_first_growth_and_no_other(rt: HostRuntime) {
    let heap = Refusing::new(rt.alloc());
    assert!(rt; is_first_refused(&heap));
}

/// Returns whether the second growth is refused, which is that of another list, and neither the first nor the third.
fn is_second_refused(heap: &Refusing<Global>) -> bool {
    let mut first = Vec::new(heap);
    let mut second = Vec::new(heap);
    heap.refuse(2);
    let is_put = first.push(1u64).is_ok();
    let is_armed = heap.is_armed();
    let is_refused = second.push(2u64).is_err();
    let is_over = !heap.is_armed();
    is_put && is_armed && is_refused && is_over && second.push(3).is_ok()
}

#[test]
fn lets_one_growth_pass_and_refuses_the_second(rt: HostRuntime) {
    let heap = Refusing::new(rt.alloc());
    assert!(rt; is_second_refused(&heap));
}

#[test]
fn forgets_what_an_earlier_call_asked_for(rt: HostRuntime) {
    let heap = Refusing::new(rt.alloc());
    let mut values = Vec::new(&heap);
    heap.refuse(1);
    heap.refuse(0);
    let is_armed = heap.is_armed();
    assert!(rt; !is_armed && values.push(7u64).is_ok());
}

/// Returns whether a block that grows counts as a growth.
fn is_growing_counted<A: Allocator + Copy>(
    heap: &Refusing<Global>,
    values: &mut Vec<u64, A>,
) -> bool {
    heap.refuse(1);
    let is_refused = values.reserve_exact(9).is_err();
    is_refused && values.reserve_exact(9).is_ok()
}

/// Returns whether a block that shrinks counts as a growth.
fn is_shrinking_counted<A: Allocator + Copy>(
    heap: &Refusing<Global>,
    values: &mut Vec<u64, A>,
) -> bool {
    heap.refuse(1);
    values.shrink_to_fit();
    let is_over = !heap.is_armed() && values.capacity() >= 10;
    values.shrink_to_fit();
    is_over && values.capacity() == 1
}

/// Returns whether a block that grows, and one that shrinks, counts as a growth.
fn are_changes_counted<A: Allocator + Copy>(
    heap: &Refusing<Global>,
    values: &mut Vec<u64, A>,
) -> bool {
    let is_put = values.reserve_exact(1).is_ok() && values.push(7).is_ok();
    let is_counted = is_growing_counted(heap, values) && is_shrinking_counted(heap, values);
    is_put && is_counted && values.as_slice() == [7].as_slice()
}

#[test]
fn counts_a_block_that_changes_its_size(rt: HostRuntime) {
    let heap = Refusing::new(rt.alloc());
    let mut values = Vec::new(&heap);
    assert!(rt; are_changes_counted(&heap, &mut values));
}

// Grows two lists, so that either may be the one that is refused.
fn copies<A: Allocator + Copy>(alloc: A) -> Result<Vec<u64, A>, AllocError> {
    let mut numbers = Vec::new(alloc);
    for number in 0..5u64 {
        numbers.push(number)?;
    }
    let mut copied = Vec::new(alloc);
    for &number in numbers.iter() {
        copied.push(number)?;
    }
    Ok(copied)
}

/// Returns whether five numbers are copied, or None if a growth is refused.
fn are_copied<A: Allocator + Copy>(alloc: A) -> Option<bool> {
    let copied = copies(alloc).ok()?;
    Some(copied.as_slice() == [0, 1, 2, 3, 4].as_slice())
}

/// Refuses each growth of `copies` in turn, and returns their number.
fn growths_of_copies(heap: &Refusing<Global>) -> u64 {
    for number in 1..100u64 {
        heap.refuse(number);
        if are_copied(heap).is_some() {
            return number - 1;
        }
    }
    0
}

#[test]
fn refuses_each_growth_in_turn(rt: HostRuntime) {
    let heap = Refusing::new(rt.alloc());
    let growths = growths_of_copies(&heap);
    assert!(rt; growths >= 2 && heap.is_armed());
    heap.refuse(growths);
    let is_refused = are_copied(&heap).is_none();
    assert!(rt; is_refused && !heap.is_armed());
    let are_copied = are_copied(&heap);
    assert!(rt; are_copied == Some(true));
}
