//! A moment and its text.
ghost use Rattle.std.specs.Prelude.{◌≡◌, ℕ, List, ◌+◌, ◌*◌, ◌<◌, ◌≤◌, option_map, IfSome, IfNone, IfErr};
ghost use Rattle.std.specs.Result.{result_ok};
ghost use Rattle.ftp_facts.specs.Moment.{BeginsWithDate, BeginsWithTime, SaysMoment, WritesMoment, moment_digits, moment_value};

use crate::FactFault;
use crate::civil::{date_of, day_number, year_of};
use crate::digits::{is_fraction, read_four, read_two, two};

/// A second from 1 January 1970 to the end of 9999 in UTC, counted from 0, with no leap seconds.
#[derive(Clone, Copy, Debug, PartialEq, Eq)]
pub struct Moment {
    pub seconds: u64,
    pub ghost in_range: { seconds ≤ 253_402_300_799 },
}

impl Moment {
    /// The moment that many seconds after the start of 1970, if it comes before the year 10000.
    pub fn new(seconds: u64) -> Option<Moment>
        ensures some { IfSome result (λ moment. moment.seconds ≡ seconds) }
        // Witness of none: caller: `laws::moments_end`, lone.
        ensures none { IfNone result (253_402_300_799 < seconds) }
    {
        if seconds <= 253_402_300_799 {
            Some(Moment { seconds })
        } else {
            None
        }
    }
}

/// Reads a moment: YYYYMMDDHHMMSS, perhaps followed by `.` and digits, which are dropped. A second of 60 is 59.
/// What is no real date and time from 1970 on is `BadMoment` (RFC 3659, section 2.3).
pub fn moment_of_text(text: &[u8]) -> Result<Moment, FactFault>
    // Witness of value: equation (`laws::moment_is_said` says what it is); caller: `laws::moment_comes_back`.
    ensures value { option_map (λ moment. moment.seconds) (result_ok result) ≡ moment_value text.now }
    // Witness of fault: equation; caller: `read_entry`, `refuses`.
    ensures fault { IfErr result (λ fault. fault ≡ FactFault.BadMoment) }
{
    match read_moment(text) {
        Some(moment) => Ok(moment),
        None => Err(FactFault::BadMoment),
    }
}

fn read_moment(text: &[u8]) -> Option<Moment>
    ensures says { IfSome result (λ moment. SaysMoment text.now moment.seconds) }
    ensures silent { IfNone result ((seconds : ℕ) → ¬ (SaysMoment text.now seconds)) }
{
    let (day, text) = read_date(text)?;
    let (second, text) = read_time(text)?;
    if !is_fraction(text) {
        return None;
    }
    Some(Moment {
        seconds: day as u64 * 86_400 + second as u64,
    })
}

/// The day number of the date at the front of the text, and the rest.
fn read_date(text: &[u8]) -> Option<(u32, &[u8])>
    ensures some { IfSome result (λ read. BeginsWithDate text.now read.0 read.1.now) }
    ensures bound { IfSome result (λ read. read.0 ≤ 2_932_896) }
    ensures none { IfNone result ((number : ℕ) (rest : List ℕ) → ¬ (BeginsWithDate text.now number rest)) }
{
    let (year, text) = read_four(text)?;
    let (month, text) = read_two(text)?;
    let (day, text) = read_two(text)?;
    let number = day_number(year, month, day)?;
    Some((number, text))
}

/// How far into the day the time of day at the front of the text is, in seconds, and the rest.
fn read_time(text: &[u8]) -> Option<(u32, &[u8])>
    ensures some { IfSome result (λ read. BeginsWithTime text.now read.0 read.1.now) }
    ensures bound { IfSome result (λ read. read.0 < 86_400) }
    ensures none { IfNone result ((seconds : ℕ) (rest : List ℕ) → ¬ (BeginsWithTime text.now seconds rest)) }
{
    let (hour, text) = read_two(text)?;
    let (minute, text) = read_two(text)?;
    let (second, text) = read_two(text)?;
    if hour >= 24 || minute >= 60 || second > 60 {
        return None;
    }
    let seconds = hour as u32 * 3600 + minute as u32 * 60 + second.min(59) as u32;
    Some((seconds, text))
}

/// The fourteen digits of a moment, YYYYMMDDHHMMSS (RFC 3659, section 2.3).
pub fn moment_text(moment: Moment) -> [u8; 14]
    // Witness of written: law: `laws::written_is_said`; caller: `laws::moment_comes_back`.
    ensures written { WritesMoment result moment.seconds }
    // Witness of digits: equation; law: `laws::moment_digits_say`.
    ensures digits { result ≡ moment_digits moment.seconds }
{
    let date = date_of((moment.seconds / 86_400) as u32);
    let year = year_of(date);
    let rest = (moment.seconds % 86_400) as u32;
    let [thousands, hundreds] = two((year / 100) as u8);
    let [tens, ones] = two((year % 100) as u8);
    let [month_tens, month_ones] = two(date.month);
    let [day_tens, day_ones] = two(date.day);
    let [hour_tens, hour_ones] = two((rest / 3600) as u8);
    let [minute_tens, minute_ones] = two((rest % 3600 / 60) as u8);
    let [second_tens, second_ones] = two((rest % 60) as u8);
    [
        thousands,
        hundreds,
        tens,
        ones,
        month_tens,
        month_ones,
        day_tens,
        day_ones,
        hour_tens,
        hour_ones,
        minute_tens,
        minute_ones,
        second_tens,
        second_ones,
    ]
}
