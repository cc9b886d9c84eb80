use super::keys_of;
use fixtures::rows::check;
use std::alloc::Global;
use std::test::Fail;
use ups_life::Filter;

/// Returns how many keys a filter with these attributes has, or None if they are not a filter.
fn keys_in_filter(alloc: Global, keys: &str) -> Result<Option<usize>, Fail> {
    match Filter::of(alloc, keys_of(alloc, keys)?) {
        Some(filter) => Ok(Some(filter.keys().attributes().elements().len())),
        None => Ok(None),
    }
}

#[test]
fn keys_that_are_all_universal_are_no_filter(rt: HostRuntime) -> Result<(), Fail> {
    let alloc = rt.alloc();
    check("no text", keys_in_filter(alloc, "00741202=")?.is_none())?;
    check("wild card", keys_in_filter(alloc, "00741202=* ")?.is_none())?;
    check("text", keys_in_filter(alloc, "00741202=READS")? == Some(1))
}
