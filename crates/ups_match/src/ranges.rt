//! Ranges of dates and times (PS3.4 section C.2.2.2.5).

ghost use Rattle.std.specs.Prelude.{◌≡◌, ◌≤◌, length};
ghost use Rattle.std.specs.Bool.{OnTrue};
ghost use Rattle.ups_pdu.specs.Padding.{is_nil};
ghost use Rattle.ups_match.specs.Moments.{split_fraction};
ghost use Rattle.ups_match.specs.Ranges.{hyphen_at, has_seconds, ends_or_hyphen, is_offset_first, first_len, bound, single_moment, span_between, span_of, contains_moment, is_from, is_up_to};

use crate::digits::split_digits;
use crate::moments::{offset_of, read_dt};

/// The moments that a key includes, in microseconds since 1970-01-01 UTC; None for an open end.
#[derive(Clone, Copy, Debug)]
pub struct Span {
    /// The first moment.
    pub least: Option<i64>,
    /// The last moment.
    pub greatest: Option<i64>,
}

impl Span {
    /// Returns whether the span includes a moment.
    pub fn takes_in(self, moment: i64) -> bool
        ensures { result ≡ contains_moment self moment }
    {
        is_from(self.least, moment) && is_up_to(self.greatest, moment)
    }
}

/// Returns whether a moment is not before `least`.
fn is_from(least: Option<i64>, moment: i64) -> bool
    ensures { result ≡ is_from least moment }
{
    match least {
        Some(least) => least <= moment,
        None => true,
    }
}

/// Returns whether a moment is not after `greatest`.
fn is_up_to(greatest: Option<i64>, moment: i64) -> bool
    ensures { result ≡ is_up_to greatest moment }
{
    match greatest {
        Some(greatest) => moment <= greatest,
        None => true,
    }
}

/// Returns the moments that the text of a key includes: those of a range `a-b`, `a-` or `-b`, or the first of a single
/// DT; `None` if it is unreadable. The text has no padding; `offset` is that of a DT without one, in minutes east of
/// UTC.
pub(crate) fn span_of(text: &[u8], offset: i16) -> Option<Span>
    ensures { result ≡ span_of offset text.now }
{
    let (first, behind) = text.split_at(first_len(text));
    match behind.split_first() {
        Some((_, last)) => between(first, last, offset),
        None => alone(first, offset),
    }
}

/// Returns the first moment of a DT.
fn alone(text: &[u8], offset: i16) -> Option<Span>
    ensures { result ≡ single_moment offset text.now }
{
    let moment = read_dt(text, offset, false)?;
    Some(Span {
        least: Some(moment),
        greatest: Some(moment),
    })
}

/// Returns the moments from the first of one DT to the last of another, unless both are empty.
fn between(first: &[u8], last: &[u8], offset: i16) -> Option<Span>
    ensures { result ≡ span_between offset first.now last.now }
{
    if first.is_empty() && last.is_empty() {
        return None;
    }
    let least = bound(first, offset, false)?;
    let greatest = bound(last, offset, true)?;
    Some(Span { least, greatest })
}

/// Returns the moment of an end of a range; the inner option is None if that end is open.
fn bound(text: &[u8], offset: i16, upper: bool) -> Option<Option<i64>>
    ensures { result ≡ bound offset upper text.now }
{
    if text.is_empty() {
        return Some(None);
    }
    let moment = read_dt(text, offset, upper)?;
    Some(Some(moment))
}

/// Returns the number of bytes before the hyphen of a range, or of the whole text if it is not a range.
fn first_len(text: &[u8]) -> usize
    ensures value { result ≡ first_len text.now }
    ensures bound { result ≤ length text.now }
{
    let place = hyphen_at(text);
    let (front, rest) = text.split_at(place);
    if is_offset_first(front, rest) {
        place + 5
    } else {
        place
    }
}

/// Returns the number of bytes before the first hyphen.
fn hyphen_at(text: &[u8]) -> usize
    ensures value { result ≡ hyphen_at text.now }
    ensures bound { result ≤ length text.now }
{
    text.iter().take_while(|byte| **byte != b'-').count()
}

/// Returns whether `rest`, which follows a DT, begins with its offset.
fn is_offset_first(front: &[u8], rest: &[u8]) -> bool
    ensures value { result ≡ is_offset_first front.now rest.now }
    ensures bound { OnTrue result (5 ≤ length rest.now) }
{
    if rest.len() < 5 || !has_seconds(front) {
        return false;
    }
    let (offset, behind) = rest.split_at(5);
    offset_of(offset, true, 0).is_some() && ends_or_hyphen(behind)
}

/// Returns whether a text is fourteen digits, with or without a fraction.
fn has_seconds(text: &[u8]) -> bool
    ensures { result ≡ has_seconds text.now }
{
    let (digits, behind) = split_digits(text);
    digits.len() == 14 && is_fraction_or_nothing(behind)
}

/// Returns whether a text is empty, or a full stop followed only by digits.
fn is_fraction_or_nothing(text: &[u8]) -> bool
    ensures { result ≡ is_nil (split_fraction text.now).1 }
{
    match text.split_first() {
        None => true,
        Some((mark, rest)) => *mark == b'.' && split_digits(rest).1.is_empty(),
    }
}

/// Returns whether a text is empty, or begins with a hyphen.
fn ends_or_hyphen(text: &[u8]) -> bool
    ensures { result ≡ ends_or_hyphen text.now }
{
    match text.split_first() {
        None => true,
        Some((byte, _)) => *byte == b'-',
    }
}
