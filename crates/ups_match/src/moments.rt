//! Reading a DT as a moment.
ghost use Rattle.std.specs.Prelude.{◌≡◌, ◌+◌, ◌*◌, ◌≤◌, ◌<◌, ◌==◌, ◌&&◌, length, pos, ◌-ℤ◌, IfSome, is_some, if◌then◌else◌, unsigned_abs, ◌^◌};
ghost use Rattle.jiff_core.specs.Calendar.{IsEpochDay};
ghost use Rattle.std.specs.Bool.{OnTrue};
ghost use Rattle.std.specs.List.{AllPass};
ghost use Rattle.std.specs.Char.{is_ascii_digit};
ghost use Rattle.ups_match.specs.Moments.{moment, is_cut, is_date, is_time, date_number, second_of_day, split_fraction, is_fraction, microsecond_of, offset_of, signed_offset, are_four_digits, year_of};

use crate::digits::{are_digits, field_at, pair_at, split_digits};
use jiff_core::civil::{self, Date};

/// Returns the first moment that a DT names, or the last (`upper`), in microseconds since 1970-01-01 UTC, or `None` if
/// the text is not a DT (PS3.5 section 6.2). `offset` is that of a text without one, in minutes east of UTC.
///
/// Components that are missing from the text take their least value for the first moment, and their greatest for the
/// last. A plus begins an offset after any component, and a minus only after the seconds. Second 60 is read as 59. The
/// text must have no padding.
pub fn read_dt(text: &[u8], offset: i16, upper: bool) -> Option<i64>
    ensures { result ≡ moment text.now offset upper }
{
    let (digits, behind) = split_digits(text);
    let is_whole = digits.len() == 14;
    let second = local_second(digits, upper)?;
    let (microsecond, suffix) = fraction_at(behind, is_whole, upper)?;
    let minutes = offset_of(suffix, is_whole, offset)?;
    Some(1_000_000 * (second - 60 * minutes as i64) + microsecond as i64)
}

/// Returns the second that a clock shows at a date and time, counted from the beginning of 1970.
fn local_second(digits: &[u8], upper: bool) -> Option<i64>
    requires { AllPass is_ascii_digit digits.now }
    ensures variant { is_some result ≡ (is_cut digits.now && is_date digits.now upper && is_time digits.now upper) }
    ensures value { IfSome result (λ s. s ≡ pos (date_number digits.now upper * 86400 + second_of_day digits.now upper) -ℤ pos 62135596800) }
    ensures bound { IfSome result (λ s. unsigned_abs s ≤ 2 ^ 40) }
{
    if !is_cut(digits) {
        return None;
    }
    let day = day_of(digits, upper)?;
    let second = second_of_day(digits, upper)?;
    Some(day as i64 * 86_400 + second as i64)
}

/// Returns whether digits end after a component.
fn is_cut(digits: &[u8]) -> bool
    ensures { result ≡ is_cut digits.now }
{
    matches!(digits.len(), 4 | 6 | 8 | 10 | 12 | 14)
}

/// Returns the year at the front of digits.
#[tactic(auto, using(crate::proofs::Fields::year_pairs))]
fn year_of(digits: &[u8]) -> i16
    requires digits { AllPass is_ascii_digit digits.now }
    requires year { 4 ≤ length digits.now }
    ensures value { result ≡ pos (year_of digits.now) }
    ensures bound { year_of digits.now ≤ 9999 }
{
    100 * pair_at(digits, 0, b'0') as i16 + pair_at(digits, 2, b'0') as i16
}

/// Returns the value of an absent component: `greatest` if `upper`, or else `least`.
fn extreme(upper: bool, least: u8, greatest: u8) -> u8
    ensures { result ≡ (if upper then greatest else least) }
{
    if upper { greatest } else { least }
}

/// Returns the day that digits name, counted from 1970-01-01.
#[tactic(auto, using(crate::proofs::Days::no_year))]
fn day_of(digits: &[u8], upper: bool) -> Option<i32>
    requires digits { AllPass is_ascii_digit digits.now }
    requires year { 4 ≤ length digits.now }
    ensures variant { is_some result ≡ is_date digits.now upper }
    ensures value { IfSome result (λ d. d ≡ pos (date_number digits.now upper) -ℤ pos 719162) }
    ensures bound { IfSome result IsEpochDay }
{
    let year = year_of(digits);
    if year == 0 {
        return None;
    }
    let month = field_at(digits, 4, extreme(upper, 1, 12));
    let last = civil::days_in_month(year, month);
    let day = field_at(digits, 6, extreme(upper, 1, last));
    let Ok(date) = Date::new(year, month as i8, day as i8) else {
        return None;
    };
    Some(date.to_unix_epoch_day())
}

/// Returns the second of the day that digits name.
#[tactic(auto, unfolding(crate::specs::Moments::is_time, crate::specs::Moments::second_of_day))]
fn second_of_day(digits: &[u8], upper: bool) -> Option<u32>
    requires { AllPass is_ascii_digit digits.now }
    ensures variant { is_some result ≡ is_time digits.now upper }
    ensures value { IfSome result (λ s. s ≡ second_of_day digits.now upper) }
    ensures bound { IfSome result (λ s. s < 86400) }
{
    let hour = field_at(digits, 8, extreme(upper, 0, 23));
    let minute = field_at(digits, 10, extreme(upper, 0, 59));
    let second = field_at(digits, 12, extreme(upper, 0, 59));
    if hour > 23 || minute > 59 || second > 60 {
        return None;
    }
    // A leap second is read as the second before it.
    Some((hour as u32 * 60 + minute as u32) * 60 + second.min(59) as u32)
}

/// Returns the microsecond at the front of a text, and the rest.
#[tactic(auto, using(crate::proofs::Fields::microsecond_none))]
fn fraction_at(text: &[u8], is_whole: bool, upper: bool) -> Option<(u32, &[u8])>
    ensures variant { is_some result ≡ is_fraction is_whole (split_fraction text.now).0 }
    ensures value { IfSome result (λ x. x.0 ≡ microsecond_of (split_fraction text.now).0 upper) }
    ensures behind { IfSome result (λ x. x.1.now ≡ (split_fraction text.now).1) }
    ensures bound { IfSome result (λ x. x.0 < 1000000) }
{
    if text.is_empty() || text[0] != b'.' {
        return Some((microsecond_of(&[], upper), text));
    }
    let (digits, behind) = split_digits(&text[1..]);
    if !is_whole || digits.is_empty() || digits.len() > 6 {
        return None;
    }
    Some((microsecond_of(digits, upper), behind))
}

/// Returns the microsecond that the digits of a fraction name.
fn microsecond_of(digits: &[u8], upper: bool) -> u32
    requires { AllPass is_ascii_digit digits.now }
    ensures value { result ≡ microsecond_of (Some digits.now) upper }
    ensures bound { result < 1000000 }
{
    let absent = extreme(upper, b'0', b'9');
    let first = pair_at(digits, 0, absent) as u32;
    let second = pair_at(digits, 2, absent) as u32;
    let third = pair_at(digits, 4, absent) as u32;
    (first * 100 + second) * 100 + third
}

/// Returns the minutes east of UTC that a suffix names, or the configured ones if it is empty.
#[tactic(auto, using(crate::proofs::Offsets::offset_bare, crate::proofs::Offsets::offset_other, crate::proofs::Offsets::offset_written))]
pub(crate) fn offset_of(suffix: &[u8], is_whole: bool, configured: i16) -> Option<i16>
    ensures { result ≡ offset_of is_whole configured suffix.now }
{
    let Some((sign, digits)) = suffix.split_first() else {
        return Some(configured);
    };
    if !are_four_digits(digits) {
        return None;
    }
    let hours = pair_at(digits, 0, b'0');
    let minutes = pair_at(digits, 2, b'0');
    signed_offset(*sign, hours, minutes, is_whole)
}

/// Returns whether a text is four digits.
fn are_four_digits(text: &[u8]) -> bool
    ensures value { result ≡ are_four_digits text.now }
    ensures digits { OnTrue result (AllPass is_ascii_digit text.now) }
{
    text.len() == 4 && are_digits(text)
}

/// Returns the minutes east of UTC that a sign, hours and minutes name.
#[tactic(auto, unfolding(crate::specs::Moments::signed_offset))]
fn signed_offset(sign: u8, hours: u8, minutes: u8, is_whole: bool) -> Option<i16>
    requires hours { hours ≤ 99 }
    requires minutes { minutes ≤ 99 }
    ensures { result ≡ signed_offset is_whole sign hours minutes }
{
    let total = 60 * hours as i16 + minutes as i16;
    if sign == b'+' && minutes <= 59 && total <= 840 {
        Some(total)
    } else if sign == b'-' && is_whole && minutes <= 59 && total <= 720 {
        Some(-total)
    } else {
        None
    }
}
