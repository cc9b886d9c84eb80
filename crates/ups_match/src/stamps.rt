//! Writing a moment as a DT.
ghost use Rattle.std.specs.Prelude.{◌≡◌, ℕ, ℤ, ◌+◌, ◌*◌, ◌-◌, ◌≤◌, ◌<◌, false, pos, ◌+ℤ◌, ◌*ℤ◌, unsigned_abs};
ghost use Rattle.ups_match.specs.Moments.{moment, stamp, last_moment, IsOffset, date_stamp, time_stamp, offset_stamp, two_digits, year_on, month_on, day_number};

use jiff_core::civil::Date;

/// The number of seconds from the beginning of the year 1 to the beginning of 1970.
const EPOCH: i64 = 62_135_596_800;

/// The number of days from -9999-01-01, where `jiff_core` begins to count, to 0001-01-01.
const YEAR_ONE: u32 = 3_652_425;

/// Writes a moment, in seconds since 1970-01-01 UTC, as a DT in the local time of an offset, in minutes east of UTC:
/// YYYYMMDDHHMMSS&ZZXX (PS3.5 section 6.2). The last moment that it takes is that at which a clock at +1400 shows the
/// last second of the year 9999.
pub fn write_dt(moment: u64, offset: i16) -> [u8; 19]
    requires year { moment ≤ last_moment }
    requires offset { IsOffset offset }
    ensures { result ≡ stamp moment offset }
{
    let local = local_second(moment, offset);
    let [y0, y1, y2, y3, m0, m1, d0, d1] = date_stamp((local / 86_400) as u32);
    let [h0, h1, n0, n1, s0, s1] = time_stamp((local % 86_400) as u32);
    let [sign, z0, z1, x0, x1] = offset_stamp(offset);
    [
        y0, y1, y2, y3, m0, m1, d0, d1, h0, h1, n0, n1, s0, s1, sign, z0, z1, x0, x1,
    ]
}

/// Returns the second that a clock shows at a moment, counted from the beginning of the year 1.
fn local_second(moment: u64, offset: i16) -> u64
    requires year { moment ≤ last_moment }
    requires offset { IsOffset offset }
    ensures value { pos result ≡ pos (moment + 62135596800) +ℤ pos 60 *ℤ offset }
    ensures bound { result ≤ 315537897599 }
{
    (moment as i64 + EPOCH + 60 * offset as i64) as u64
}

/// Writes a day, numbered from 0001-01-01, as YYYYMMDD.
#[tactic(auto, unfolding(crate::specs::Moments::date_stamp))]
fn date_stamp(day: u32) -> [u8; 8]
    requires { day ≤ 3652058 }
    ensures { result ≡ date_stamp day }
{
    let (year, month, day) = date_on(day);
    let [c0, c1] = two_digits((year / 100) as u8);
    let [y0, y1] = two_digits((year % 100) as u8);
    let [m0, m1] = two_digits(month);
    let [d0, d1] = two_digits(day);
    [c0, c1, y0, y1, m0, m1, d0, d1]
}

/// Returns the year, month and day of a day, numbered from 0001-01-01.
fn date_on(day: u32) -> (u16, u8, u8)
    requires { day ≤ 3652058 }
    ensures year { result.0 ≡ year_on day }
    ensures month { result.1 ≡ month_on (year_on day) day }
    ensures day { result.2 ≡ day - day_number (year_on day) (month_on (year_on day) day) 1 + 1 }
    ensures year_bound { result.0 ≤ 9999 }
    ensures month_bound { result.1 ≤ 12 }
    ensures day_bound { result.2 ≤ 31 }
{
    let date = Date::from_days_since_min(day + YEAR_ONE);
    (date.year as u16, date.month, date.day)
}

/// Writes a second of a day as HHMMSS.
#[tactic(auto, unfolding(crate::specs::Moments::time_stamp))]
fn time_stamp(second: u32) -> [u8; 6]
    requires { second < 86400 }
    ensures { result ≡ time_stamp second }
{
    let [h0, h1] = two_digits((second / 3600) as u8);
    let [m0, m1] = two_digits((second / 60 % 60) as u8);
    let [s0, s1] = two_digits((second % 60) as u8);
    [h0, h1, m0, m1, s0, s1]
}

/// Writes an offset as &ZZXX.
#[tactic(auto, unfolding(crate::specs::Moments::offset_stamp))]
fn offset_stamp(offset: i16) -> [u8; 5]
    requires { unsigned_abs offset < 6000 }
    ensures { result ≡ offset_stamp offset }
{
    let sign = if offset < 0 { b'-' } else { b'+' };
    let minutes = offset.unsigned_abs();
    let [z0, z1] = two_digits((minutes / 60) as u8);
    let [x0, x1] = two_digits((minutes % 60) as u8);
    [sign, z0, z1, x0, x1]
}

/// Writes a number as two digits.
fn two_digits(number: u8) -> [u8; 2]
    requires { number ≤ 99 }
    ensures { result ≡ two_digits number }
{
    [b'0' + number / 10, b'0' + number % 10]
}

/// Does nothing at run time: its contract tells a proof that what `write_dt` writes is read back as the same moment,
/// whatever offset is configured.
pub fn stamps_are_read_back()
    ensures { (second : ℕ) → (offset configured : ℤ) → second ≤ last_moment → IsOffset offset
        → moment (stamp second offset) configured false ≡ Some (pos (second * 1000000)) }
{}
