// How fast a transfer is, and how much of it is left.
ghost use Rattle.std.specs.Prelude.{◌≡◌, ◌+◌};
ghost use Rattle.tool_terminal.specs.progress.Pace.{hundredths, pace_of, per_second, seconds_left};

use crate::progress::measure::{measured, unit_for};
use std::fmt;
use std::fmt::{Display, Formatter};

/// What a transfer moves: from which octet of a file on, and how many that has, where that is known.
#[derive(Clone, Copy)]
pub struct Span {
    pub start: u64,
    pub total: Option<u64>,
}

/// How far a transfer is.
#[derive(Clone, Copy)]
pub struct Pace {
    /// How many octets of the file are there.
    pub count: u128,
    pub per_second: u128,
    /// Where the size of the file is known.
    pub rest: Option<Remaining>,
}

/// What is left of a file.
#[derive(Clone, Copy)]
pub struct Remaining {
    pub total: u64,
    /// How many hundredths of it are there.
    pub percent: u128,
    /// How long the rest takes at this pace, in seconds, where anything moves.
    pub seconds: Option<u128>,
}

/// How far a transfer is that moved so many octets in so many milliseconds.
pub fn pace_of(span: Span, moved: u64, millis: u64) -> Pace
    ensures { result ≡ pace_of span moved millis }
{
    let count = u128::from(span.start) + u128::from(moved);
    let per_second = per_second(moved, millis);
    let rest = match span.total {
        Some(total) => Some(Remaining {
            total,
            percent: hundredths(span.start, moved, total),
            seconds: seconds_left(count, total, per_second),
        }),
        None => None,
    };
    Pace {
        count,
        per_second,
        rest,
    }
}

/// How many octets went in a second.
fn per_second(moved: u64, millis: u64) -> u128
    ensures { result ≡ per_second moved millis }
{
    if millis == 0 {
        return 0;
    }
    u128::from(moved) * 1_000 / u128::from(millis)
}

/// How many hundredths of a file are there, rounded down; all of one without an octet.
fn hundredths(start: u64, moved: u64, total: u64) -> u128
    ensures { result ≡ hundredths (start + moved) total }
{
    if total == 0 {
        return 100;
    }
    (u128::from(start) + u128::from(moved)) * 100 / u128::from(total)
}

/// How many seconds the rest takes, rounded down; none where nothing moves.
fn seconds_left(count: u128, total: u64, per_second: u128) -> Option<u128>
    ensures { result ≡ seconds_left count total per_second }
{
    if per_second == 0 {
        return None;
    }
    Some(u128::from(total).saturating_sub(count) / per_second)
}

/// `5.2 of 20.0 MiB, 26 %, 1.1 MiB/s, 13 s left`, or `5.2 MiB, 1.1 MiB/s` of a file whose size is not known.
impl Display for Pace {
    fn fmt<W: fmt::Write>(&self, formatter: &mut Formatter<W>) -> fmt::Result {
        let Pace {
            count,
            per_second,
            rest,
        } = *self;
        let rate = measured(unit_for(per_second), per_second);
        match rest {
            Some(rest) => {
                write_part(count, rest, formatter)?;
                write!(formatter, ", {rate}/s")?;
                write_left(rest.seconds, formatter)
            }
            None => {
                let there = measured(unit_for(count), count);
                write!(formatter, "{there}, {rate}/s")
            }
        }
    }
}

/// Writes how much of a file is there: both sizes in the unit of the whole.
fn write_part<W: fmt::Write>(
    count: u128,
    rest: Remaining,
    formatter: &mut Formatter<W>,
) -> fmt::Result {
    let total = u128::from(rest.total);
    let unit = unit_for(total);
    measured(unit, count).write_number(formatter)?;
    let whole = measured(unit, total);
    let percent = rest.percent;
    write!(formatter, " of {whole}, {percent} %")
}

/// Writes how long the rest takes, where that is known.
fn write_left<W: fmt::Write>(seconds: Option<u128>, formatter: &mut Formatter<W>) -> fmt::Result {
    match seconds {
        Some(seconds) => write!(formatter, ", {seconds} s left"),
        None => Ok(()),
    }
}
