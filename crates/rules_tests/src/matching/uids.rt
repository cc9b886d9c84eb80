use super::keys::{says_the_same, set_of};
use fixtures::Refusing;
use std::alloc::{Allocator, Global};
use std::test::Fail;
use ups_dataset::DataSet;
use ups_dataset::dictionary::SOP_INSTANCE_UID;
use ups_match::{Keys, Matcher, Probe};

/// The last UIDs of the long lists.
const LAST: &str = "1.9|1.99|1.9 ||1.*|1.?";

/// The stored values. `rows/matching.rows` says which of the lists match, if there is memory.
const STORED: &str =
    r"1.9|1.8|1.99|1.8\1.9|1.8\1.7|1.9  | 1.9||1.8\|1.2.840.10008.0|1.2.840.10008.39|1.8\1.2.840.10008.17\1.7|1.2.840.10008.40|1.2.840.10008";

/// Returns a list of forty UIDs, 1.2.840.10008.0 to 39, and one more.
fn long_list<A: Allocator + Copy>(alloc: A, last: &str) -> Result<Vec<u8, A>, Fail> {
    let mut list = Vec::new(alloc);
    for number in 0..40u8 {
        let uid = format!(in alloc; "1.2.840.10008.{number}\\")?;
        list.extend_from_slice(uid.as_bytes())?;
    }
    list.extend_from_slice(last.as_bytes())?;
    Ok(list)
}

/// Returns whether a long list says the same about the stored values, prepared and not.
fn list_says_the_same<A: Allocator + Copy>(alloc: A, last: &str) -> Result<bool, Fail> {
    let list = long_list(alloc, last)?;
    for stored in STORED.split('|') {
        if !says_the_same(alloc, SOP_INSTANCE_UID, &list, stored.as_bytes())? {
            return Ok(false);
        }
    }
    Ok(true)
}

#[test]
fn a_long_list_says_the_same_prepared_and_not(rt: HostRuntime) -> Result<(), Fail> {
    for last in LAST.split('|') {
        assert!(rt; list_says_the_same(rt.alloc(), last)?, "{last}");
    }
    Ok(())
}

/// Returns the keys of a long list, made while the nth growth is refused.
fn keys_without_memory<'a>(
    heap: &'a Refusing<Global>,
    n: u64,
) -> Result<Keys<&'a Refusing<Global>>, Fail> {
    heap.refuse(0);
    let list = set_of(heap, SOP_INSTANCE_UID, &long_list(heap, "1.9")?)?;
    heap.refuse(n);
    Ok(Keys::of(list, 0)?)
}

/// Returns whether a long list, whose keys are made while the nth growth is refused, matches a UID of its own, and not
/// another.
fn is_list_without_memory<'a>(
    heap: &'a Refusing<Global>,
    n: u64,
    one: &DataSet<&'a Refusing<Global>>,
    other: &DataSet<&'a Refusing<Global>>,
) -> Result<bool, Fail> {
    let keys = keys_without_memory(heap, n)?;
    let mut probe = Probe::new();
    Ok(probe.matches(&keys, one) && !probe.matches(&keys, other))
}

/// Returns whether that is so whichever of 79 growths is refused.
fn are_lists_without_memory(heap: &Refusing<Global>) -> Result<bool, Fail> {
    let one = set_of(heap, SOP_INSTANCE_UID, b"1.9")?;
    let other = set_of(heap, SOP_INSTANCE_UID, b"1.8")?;
    for n in 1..80u64 {
        if !is_list_without_memory(heap, n, &one, &other)? {
            return Ok(false);
        }
    }
    Ok(true)
}

#[test]
fn long_lists_are_lists_where_memory_runs_out(rt: HostRuntime) -> Result<(), Fail> {
    let heap = Refusing::new(rt.alloc());
    assert!(rt; are_lists_without_memory(&heap)?);
    Ok(())
}
