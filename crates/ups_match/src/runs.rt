//! The search for a run, the part of a pattern between two `*`, in a text (PS3.4 section C.2.2.2.4).

ghost use Rattle.std.specs.Prelude.{◌≡◌, ◌<◌, ◌≤◌, ℕ, false, IsTrue, None, drop, length, option_copied};
ghost use Rattle.std.specs.List.{list_any};
ghost use Rattle.ups_match.specs.Likeness.{is_question_mark};
ghost use Rattle.ups_match.specs.Runs.{behind_front, behind_first};

use crate::lanes::{LANES, all_places, have_no_place, places_with};
use memchr::memmem;

/// Returns the rest of a text after the run at its front, or None if the run does not fit there.
pub(crate) fn behind_front<'a>(run: &[u8], text: &'a [u8]) -> Option<&'a [u8]>
    ensures { option_copied result ≡ behind_front run.now text.now }
{
    if text.len() < run.len() {
        return None;
    }
    let mut run_left = run;
    let mut left = text;
    while let Some((p, more)) = run_left.split_first() {
        let (b, after) = left.split_first()?;
        if *p != b'?' && *p != *b {
            return None;
        }
        run_left = more;
        left = after;
    }
    Some(left)
}

/// Returns the rest of a text after the first place where a run fits.
pub(crate) fn behind_first<'a>(run: &[u8], text: &'a [u8]) -> Option<&'a [u8]>
    ensures { option_copied result ≡ behind_first run.now text.now }
{
    if run.contains(&b'?') {
        return behind_first_fit(run, text);
    }
    behind_first_copy(run, text)
}

/// Does the same as `behind_first` for a run without `?`, which fits where its bytes occur. It takes about as many
/// steps as both have bytes.
fn behind_first_copy<'a>(run: &[u8], text: &'a [u8]) -> Option<&'a [u8]>
    requires { list_any is_question_mark run.now ≡ false }
    ensures { option_copied result ≡ behind_first run.now text.now }
{
    let place = memmem::find(text, run)?;
    let (_, behind) = text.split_at(place + run.len());
    Some(behind)
}

/// Does the same as `behind_first` for any run. It takes about a step for each byte of the run per 128 places of the
/// text.
fn behind_first_fit<'a>(run: &[u8], text: &'a [u8]) -> Option<&'a [u8]>
    ensures { option_copied result ≡ behind_first run.now text.now }
{
    let mut left = text;
    while fits_nowhere_in_front(run, left) {
        let (_, after) = left.split_at(PLACES);
        left = after;
    }
    behind_first_by_place(run, left)
}

/// The number of places of a text that are tried at once: two vectors of them, because the rest of the work for each
/// byte of the run takes a third as long as the comparisons.
const PLACES: usize = 2 * LANES;

/// The number of bytes of a run between two checks whether a place is left.
const LOOK_EVERY: usize = 8;

/// Returns a text from `place` on.
fn behind(text: &[u8], place: usize) -> &[u8]
    requires { place ≤ length text.now }
    ensures { result.now ≡ drop place text.now }
{
    let (_, there) = text.split_at(place);
    there
}

/// Returns whether a run fits at none of the first 128 places of a text; false if the text ends before all of them can
/// be tried.
fn fits_nowhere_in_front(run: &[u8], text: &[u8]) -> bool
    ensures nowhere { IsTrue result → (k : ℕ) → k < 128 → behind_front run.now (drop k text.now) ≡ None }
    ensures long { IsTrue result → 128 ≤ length text.now }
{
    if text.len() < run.len() + PLACES {
        return false;
    }
    let (_, far) = text.split_at(LANES);
    let mut near_places = all_places();
    let mut far_places = all_places();
    for i in 0..run.len() {
        if run[i] != b'?' {
            near_places = places_with(near_places, behind(text, i), run[i]);
            far_places = places_with(far_places, behind(far, i), run[i]);
            if i % LOOK_EVERY == 0 && have_no_place(near_places, far_places) {
                return true;
            }
        }
    }
    have_no_place(near_places, far_places)
}

/// Does the same as `behind_first`, place by place.
fn behind_first_by_place<'a>(run: &[u8], text: &'a [u8]) -> Option<&'a [u8]>
    ensures { option_copied result ≡ behind_first run.now text.now }
{
    let mut left = text;
    loop {
        if let Some(found) = behind_front(run, left) {
            return Some(found);
        }
        let (_, after) = left.split_first()?;
        left = after;
    }
}
