//! Dates from 1970 on and their day numbers.
ghost use Rattle.std.specs.Prelude.{◌≡◌, ◌<◌, ◌≤◌, ◌≤ℤ◌, pos, IfSome, IfNone};
ghost use Rattle.ftp_facts.specs.Calendar as calendar;
ghost use Rattle.jiff_core.specs.Date.{epoch_day};

use jiff_core::civil::Date;

/// The day number of the date, if the calendar has it from 1970 on.
pub fn day_number(year: u16, month: u8, day: u8) -> Option<u32>
    requires year_in { year < 10_000 }
    requires month_in { month < 100 }
    requires day_in { day < 100 }
    // Witness of real, counted, none: caller: `moment_of_text`, `value`.
    ensures real { IfSome result (λ number. calendar.IsDate year month day) }
    ensures counted { IfSome result (λ number. number ≡ calendar.day_number year month day) }
    // Witness of bound: caller: `moment_of_text`, whose result is a `Moment`.
    ensures bound { IfSome result (λ number. number ≤ 2_932_896) }
    ensures none { IfNone result (¬ (calendar.IsDate year month day)) }
{
    if year < 1970 {
        return None;
    }
    match Date::new(year as i16, month as i8, day as i8) {
        Ok(date) => Some(number_of(date)),
        Err(_) => None,
    }
}

/// The day number of a date from 1970 on.
fn number_of(date: Date) -> u32
    requires { pos 1970 ≤ℤ date.year }
    ensures value { pos result ≡ epoch_day date }
    ensures bound { result ≤ 2_932_896 }
{
    date.days_since_min() - 4_371_587
}

/// The date with that day number.
pub fn date_of(number: u32) -> Date
    requires { number ≤ 2_932_896 }
    // Witness: caller: `moment_text`, `written`.
    ensures { epoch_day result ≡ pos number }
{
    Date::from_days_since_min(number + 4_371_587)
}

/// The year of a date from 1970 on.
pub fn year_of(date: Date) -> u16
    requires { pos 0 ≤ℤ epoch_day date }
    // Witness: caller: `moment_text`, `written`.
    ensures value { pos result ≡ date.year }
    ensures from { 1970 ≤ result }
{
    date.year as u16
}
