use fixtures::bytes_of;
use fixtures::rows::{check, cut_twice};
use std::alloc::{AllocError, Global};
use std::test::Fail;
use ups_match::likes;

/// A pattern that is universal as a key, a text, and whether they match. `rows/matching.rows` has the others.
const ROWS: &str = r#"""|""|yes
""|"A"|no
"*"|""|yes
"*"|"A"|yes
"*"|"ABC"|yes
"*"|"*?"|yes"#;

/// Returns whether the text of a row matches its pattern.
fn row_is_alike(rt: &impl AllocGlobal, row: &str) -> Result<&'static str, Fail> {
    let (pattern, text, _) = cut_twice(row, "|", "|")?;
    let pattern = bytes_of(rt, pattern)?;
    let text = bytes_of(rt, text)?;
    Ok(if likes(&pattern, &text) { "yes" } else { "no" })
}

#[test]
fn wild_cards_stand_for_any_letters(rt: HostRuntime) -> Result<(), Fail> {
    for row in ROWS.lines() {
        check(row, row.ends_with(row_is_alike(&rt, row)?))?;
    }
    Ok(())
}

/// Returns a front, `count` letters A, and an end.
fn letters(alloc: Global, front: &[u8], count: usize, end: &[u8]) -> Result<Vec<u8>, AllocError> {
    let mut text = Vec::from_slice(alloc, front)?;
    text.resize(text.len().saturating_add(count), b'A')?;
    text.extend_from_slice(end)?;
    Ok(text)
}

/// Returns whether a run with a `?` is found at a place of a text of 300 bytes, and nowhere after it.
fn is_found_at(alloc: Global, place: usize) -> Result<bool, AllocError> {
    let text = letters(alloc, b"", place, b"XBYB")?;
    let text = letters(alloc, text.as_slice(), 300_usize.saturating_sub(place), b"")?;
    Ok(likes(b"*X?YB*", text.as_slice()) && !likes(b"*X?Y*X*", text.as_slice()))
}

#[test]
fn a_run_with_a_question_mark_at_each_place(rt: HostRuntime) -> Result<(), Fail> {
    for place in 0..300 {
        assert!(rt; is_found_at(rt.alloc(), place)?, "at place {place}");
    }
    Ok(())
}
