//! The date and time of a second.
ghost use Rattle.std.specs.Prelude.{◌≡◌, ◌↔◌, ◌+◌, ◌<◌, ◌≤◌, ◌/◌, ◌%◌, ◌++◌, ℕ, ◌≤ℤ◌, pos, unsigned_abs, IsSome, IfSome};
ghost use Rattle.com_text.specs.Digits.{in_digits};
ghost use Rattle.com_msg.specs.Stamp.{IsMoment, Moment};
ghost use Rattle.jiff.specs.Words.{epoch_day};
ghost use Rattle.com_io.specs.Civil.{HasDay, IsStampOf, date_digits, last_day, time_digits};

use com_msg::Stamp;
use com_text::digits_of;
use jiff::ToSpan;
use jiff::civil::{Date, date};

/// How many seconds a day has.
const DAY: u64 = 86_400;

/// The day number of 9999-12-31, counted from 1970-01-01.
const LAST_DAY: u64 = 2_932_896;

/// Returns the UTC date and time of a second, counted from 1970-01-01, with these hundredths. None
/// exactly if there are more than 99 hundredths, or the second is after 9999-12-31.
pub fn stamp_of(second: u64, hundredth: u8) -> Option<Stamp>
    ensures some { IsSome result ↔ ((hundredth ≤ 99) × HasDay second) }
    ensures stamp { IfSome result (IsStampOf second hundredth) }
{
    if hundredth > 99 {
        return None;
    }
    let date = date_of(second / DAY)?;
    Stamp::new(
        &digits_of_date(date),
        &digits_of_time(second % DAY, hundredth),
    )
}

/// Returns the date of a day, counted from 1970-01-01: None exactly if it is after 9999-12-31.
fn date_of(day: u64) -> Option<Date>
    ensures some { IsSome result ↔ (day ≤ last_day) }
    ensures date { IfSome result (λ date. epoch_day date ≡ pos day) }
{
    if day > LAST_DAY {
        return None;
    }
    date(1970, 1, 1).checked_add((day as i64).days()).ok()
}

/// Returns a date as YYMMDD.
fn digits_of_date(date: Date) -> [u8; 6]
    requires { pos 0 ≤ℤ date.year }
    ensures { result ≡ date_digits (unsigned_abs date.year) date.month date.day }
{
    let year: [u8; 2] = digits_of(date.year() as u64 % 100);
    let month: [u8; 2] = digits_of(date.month() as u64);
    let day: [u8; 2] = digits_of(date.day() as u64);
    [year[0], year[1], month[0], month[1], day[0], day[1]]
}

/// Returns a second of a day with its hundredths as HHMMSSTT.
fn digits_of_time(second: u64, hundredth: u8) -> [u8; 8]
    requires second { second < 86_400 }
    requires hundredth { hundredth ≤ 99 }
    ensures { result ≡ time_digits second hundredth }
{
    let hours: [u8; 2] = digits_of(second / 3600);
    let minutes: [u8; 2] = digits_of(second / 60 % 60);
    let seconds: [u8; 2] = digits_of(second % 60);
    let hundredths: [u8; 2] = digits_of(u64::from(hundredth));
    [
        hours[0],
        hours[1],
        minutes[0],
        minutes[1],
        seconds[0],
        seconds[1],
        hundredths[0],
        hundredths[1],
    ]
}
