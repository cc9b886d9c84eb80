//! Wild cards (PS3.4 section C.2.2.2.4).

ghost use Rattle.std.specs.Prelude.{◌≡◌, ◌↔◌, ◌∷◌, ◌≤◌, ℕ, List, length, nat_lt, IsTrue};
ghost use Rattle.std.specs.List.{AllPass, count_by, prefix_len};
ghost use Rattle.ups_match.specs.Likeness.{IsLike, is_like};
ghost use Rattle.ups_match.specs.Runs.{is_no_star, run_of, behind_run};

use crate::runs::{behind_first, behind_front};

/// Returns whether a text is like a pattern, in which `*` stands for any bytes, `?` for any one byte, and any other
/// byte for itself (PS3.4 section C.2.2.2.4). Without `?` it takes about as many steps as both have bytes; a run with
/// `?` between two `*` takes a step for each of its bytes per 64 bytes of the text.
pub fn likes(pattern: &[u8], text: &[u8]) -> bool
    ensures like { IsTrue result ↔ IsLike pattern.now text.now }
    ensures value { result ≡ is_like pattern.now text.now }
{
    is_like(pattern, text)
}

/// Returns whether more than `len` bytes of a pattern stand for one byte each, so that no text of `len` bytes is like
/// it. It stops as soon as it knows.
pub(crate) fn is_longer(pattern: &[u8], len: usize) -> bool
    ensures { result ≡ nat_lt len (count_by is_no_star pattern.now) }
{
    let mut left = len;
    for byte in pattern {
        if *byte == b'*' {
            continue;
        }
        if left == 0 {
            return true;
        }
        left -= 1;
    }
    false
}

/// Returns whether a text is like a pattern.
fn is_like(pattern: &[u8], text: &[u8]) -> bool
    ensures { IsTrue result ↔ IsLike pattern.now text.now }
{
    let (run, behind) = split_run(pattern);
    let Some(left) = behind_front(run, text) else {
        return false;
    };
    match behind.split_first() {
        Some((_, after)) => likes_anywhere(after, left),
        None => left.is_empty(),
    }
}

/// Returns whether a text is like `*` followed by a pattern.
///
/// Each run is taken at the first place where it fits: if the text after a later place is like the rest of the pattern,
/// so is the text after the first one, because a `*` comes between.
fn likes_anywhere(pattern: &[u8], text: &[u8]) -> bool
    ensures { IsTrue result ↔ IsLike (42 ∷ pattern.now) text.now }
{
    let mut rest = pattern;
    let mut left = text;
    loop {
        let (run, behind) = split_run(without_stars(rest));
        let Some((_, after)) = behind.split_first() else {
            return ends_with(run, left);
        };
        let Some(found) = behind_first(run, left) else {
            return false;
        };
        left = found;
        rest = after;
    }
}

/// Returns a pattern that follows a `*`, without the redundant `*` at its front, of which fewer than 64 are left.
fn without_stars(pattern: &[u8]) -> &[u8]
    ensures same { (text : List ℕ) → IsLike (42 ∷ pattern.now) text ↔ IsLike (42 ∷ result.now) text }
    ensures shorter { length result.now ≤ length pattern.now }
{
    let mut rest = pattern;
    while let Some(behind) = rest.strip_prefix(&[b'*'; 64]) {
        rest = behind;
    }
    rest
}

/// Splits a pattern at the first `*`, which goes to the second part.
fn split_run(pattern: &[u8]) -> (&[u8], &[u8])
    ensures run { result.0.now ≡ run_of pattern.now }
    ensures behind { result.1.now ≡ behind_run pattern.now }
{
    pattern.split_at(run_len(pattern))
}

/// Returns the number of bytes before the first `*` of a pattern.
fn run_len(pattern: &[u8]) -> usize
    ensures value { result ≡ prefix_len is_no_star pattern.now }
    ensures bound { result ≤ length pattern.now }
{
    pattern.iter().take_while(|byte| **byte != b'*').count()
}

/// Returns whether a run fits at the end of a text.
fn ends_with(run: &[u8], text: &[u8]) -> bool
    requires { AllPass is_no_star run.now }
    ensures { IsTrue result ↔ IsLike (42 ∷ run.now) text.now }
{
    if text.len() < run.len() {
        return false;
    }
    let (_, end) = text.split_at(text.len() - run.len());
    behind_front(run, end).is_some()
}
