use crate::{TermsFault, difference, parse_terms, terms_text};
use std::alloc::Global;
use std::test::Fail;

/// Terms as text: the lowest and the highest numbers, no peer and two.
const TEXTS: [&str; 3] = [
    "keep=0\noffset=-720\n",
    "keep=4294967295\noffset=840\npeer=W1\n",
    "keep=86400\noffset=60\nlock=W1\npeer=FAR WATCHER\n",
];

/// Texts that no terms have.
const OTHERS: [&str; 11] = [
    "",
    "keep=60\n",
    "keep=60\noffset=0",
    "keep=060\noffset=0\n",
    "keep=60\noffset=+0\n",
    "keep=60\r\noffset=0\n",
    "offset=0\nkeep=60\n",
    "keep=60\noffset=0\npeer=\n",
    "keep=60\noffset=0\npeer= W1\n",
    "keep=60\noffset=0\nlocks=W1\n",
    "keep=60\noffset=0\npeer=W1",
];

/// The terms of a run, those of a later one, and what the later one lacks of them.
const LATER: [(&str, &str, &str); 10] = [
    ("keep=60\noffset=0\n", "keep=60\noffset=0\n", ""),
    ("keep=60\noffset=0\n", "keep=60\noffset=0\nlock=W1\n", ""),
    (
        "keep=60\noffset=0\npeer=W1\n",
        "keep=60\noffset=0\npeer=W2\nlock=W1\n",
        "",
    ),
    (
        "keep=86400\noffset=0\n",
        "keep=60\noffset=60\n",
        "finished steps were kept for 86400 seconds",
    ),
    (
        "keep=60\noffset=0\n",
        "keep=61\noffset=0\n",
        "finished steps were kept for 60 seconds",
    ),
    (
        "keep=60\noffset=-60\nlock=W1\n",
        "keep=60\noffset=0\n",
        "the offset from UTC was -60 minutes",
    ),
    (
        "keep=60\noffset=0\npeer=W1\nlock=W2\n",
        "keep=60\noffset=0\nlock=W2\n",
        "W1 was a peer",
    ),
    (
        "keep=60\noffset=0\nlock=W1\n",
        "keep=60\noffset=0\nlock=W2\n",
        "W1 was a peer",
    ),
    (
        "keep=60\noffset=0\npeer=W2\nlock=W1\n",
        "keep=60\noffset=0\npeer=W1\npeer=W2\n",
        "W1 had the right to lock steps",
    ),
    (
        "keep=60\noffset=0\nlock=W1\npeer=W2\n",
        "keep=60\noffset=0\npeer=W1\n",
        "W1 had the right to lock steps",
    ),
];

/// Fails unless the two texts are the same.
fn check_same(told: &str, expected: &str) -> Result<(), Fail> {
    if told == expected {
        return Ok(());
    }
    Err(Fail::from("another text"))
}

#[test]
fn terms_are_written_as_they_are_read(rt: HostRuntime) -> Result<(), Fail> {
    for text in TEXTS {
        let terms = parse_terms(rt.alloc(), text.as_bytes())?;
        let again = terms_text(rt.alloc(), terms.keep, terms.offset, &terms.peers)?;
        check_same(again.as_str(), text)?;
    }
    Ok(())
}

/// Returns whether a text is refused as one of no terms.
fn is_unreadable(alloc: Global, text: &str) -> bool {
    match parse_terms(alloc, text.as_bytes()) {
        Ok(_) => false,
        Err(fault) => fault == TermsFault::Unreadable,
    }
}

#[test]
fn other_texts_are_unreadable(rt: HostRuntime) -> Result<(), Fail> {
    for text in OTHERS {
        if !is_unreadable(rt.alloc(), text) {
            return Err(Fail::from("terms"));
        }
    }
    Ok(())
}

/// Returns what the second terms lack of the first ones, as text.
fn lack(alloc: Global, old: &str, new: &str) -> Result<String<Global>, Fail> {
    let old = parse_terms(alloc, old.as_bytes())?;
    let new = parse_terms(alloc, new.as_bytes())?;
    match difference(&old, new.keep, new.offset, &new.peers) {
        Some(lack) => Ok(format!(in alloc; "{lack}")?),
        None => Ok(String::new(alloc)),
    }
}

#[test]
fn the_first_lack_is_told(rt: HostRuntime) -> Result<(), Fail> {
    for (old, new, expected) in LATER {
        check_same(lack(rt.alloc(), old, new)?.as_str(), expected)?;
    }
    Ok(())
}
