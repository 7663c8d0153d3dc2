//! Dates and times of messages.
ghost use Rattle.std.specs.Prelude.{◌≡◌, ◌↔◌, ◌+◌, ◌≤◌, length, IsTrue, IsSome, IfSome};
ghost use Rattle.std.specs.Str.{all_ascii_digits};
ghost use Rattle.com_text.specs.Text.{IsText};
ghost use Rattle.com_msg.specs.Stamp.{IsMoment, moment, pair_at, is_within, is_date, is_time};

use com_text::number_of;
use std::marker::Model;

/// The date and time at which a message was recognised as whole. Contracts see its digits: the
/// date YYMMDD and the time HHMMSSTT, of the clauses MESSAGE DATE and MESSAGE TIME of the CD entry.
#[derive(Clone, Copy, Debug, PartialEq, Eq)]
pub struct Stamp {
    date: [u8; 6],
    time: [u8; 8],
}

impl Model for Stamp {
    ghost use Rattle.com_msg.specs.Stamp.{Moment, IsMoment, moment};

    ghost Value = { Moment };

    ghost view = { λ stamp. record { date = stamp.date; time = stamp.time } };

    ghost invariant = { λ stamp. IsMoment (moment stamp.date stamp.time) };

    ghost inverse = { λ m. record { date = m.date; time = m.time } };
}

impl Stamp {
    /// Returns the stamp with these digits. None exactly if a byte is not a digit, the month is not
    /// 01 to 12, the day not 01 to 31, the hour above 23, or the minute or the second above 59.
    pub fn new(date: &[u8; 6], time: &[u8; 8]) -> Option<Stamp>
        ensures some { IsSome result ↔ IsMoment (moment date.now time.now) }
        ensures stamp { IfSome result (λ stamp. stamp ≡ moment date.now time.now) }
    {
        let valid = has_digits(date) && has_digits(time) && is_date(date) && is_time(time);
        if valid {
            Some(Stamp {
                date: *date,
                time: *time,
            })
        } else {
            None
        }
    }

    /// YYMMDD in digits.
    pub fn date(&self) -> &[u8; 6]
        ensures digits { result.now ≡ self.now.date }
        ensures valid { IsMoment self.now }
        ensures text { IsText result.now }
    {
        &self.date
    }

    /// HHMMSSTT in digits, the last two being hundredths of a second.
    pub fn time(&self) -> &[u8; 8]
        ensures digits { result.now ≡ self.now.time }
        ensures valid { IsMoment self.now }
        ensures text { IsText result.now }
    {
        &self.time
    }
}

/// Returns whether each byte is a digit.
fn has_digits(bytes: &[u8]) -> bool
    ensures { result ≡ all_ascii_digits bytes.now }
{
    for byte in bytes {
        if !byte.is_ascii_digit() {
            return false;
        }
    }
    true
}

/// Returns whether the month and the day of YYMMDD are within their bounds.
fn is_date(date: &[u8; 6]) -> bool
    requires { IsTrue (all_ascii_digits date.now) }
    ensures { result ≡ is_date date.now }
{
    is_pair_within(date, 2, 1, 12) && is_pair_within(date, 4, 1, 31)
}

/// Returns whether the hour, the minute and the second of HHMMSSTT are within their bounds.
fn is_time(time: &[u8; 8]) -> bool
    requires { IsTrue (all_ascii_digits time.now) }
    ensures { result ≡ is_time time.now }
{
    is_pair_within(time, 0, 0, 23)
        && is_pair_within(time, 2, 0, 59)
        && is_pair_within(time, 4, 0, 59)
}

/// Returns whether the two digits at a place write a number from `low` to `high`.
fn is_pair_within(digits: &[u8], at: usize, low: u64, high: u64) -> bool
    requires within { at + 2 ≤ length digits.now }
    requires digits { IsTrue (all_ascii_digits digits.now) }
    ensures { result ≡ is_within low high (pair_at digits.now at) }
{
    match number_of(&digits[at..at + 2]) {
        Some(number) => low <= number && number <= high,
        None => false,
    }
}
