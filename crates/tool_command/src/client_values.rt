// What the values of a client's options say: times, limits, rates and rounds.
ghost use Rattle.std.specs.Prelude.{◌^◌, ℕ, Option, IfOk, OnErr, option_map};
ghost use Rattle.tool_command.specs.ClientValues.{SaysMaxTime, SaysOctetLimit, SaysRate};
ghost use Rattle.tool_command.specs.Numbers.{SaysBelow, SaysIfGiven};

use crate::amount::{amount_of, octets_of};
use crate::refusal::UsageError;
use tool_codec::number_of;

/// What is wanted where a number stands.
const DIGITS_WANTED: &str = "decimal digits alone are wanted";

/// For how many seconds a server may be silent, 0 for any time.
pub(crate) fn timeout_by(word: &str) -> Result<u32, UsageError<'_>>
    ensures some { IfOk result (λ seconds. SaysBelow (2 ^ 32) word.now seconds) }
    ensures none { OnErr result ((seconds : ℕ) → ¬ SaysBelow (2 ^ 32) word.now seconds) }
{
    match number_of(word) {
        Some(seconds) => Ok(seconds),
        None => Err(UsageError::of("--timeout <SECONDS>", word, DIGITS_WANTED)),
    }
}

/// For how many seconds all that is asked may go on; none without a limit.
pub(crate) fn max_time_by(word: Option<&str>) -> Result<Option<u32>, UsageError<'_>>
    ensures some { IfOk result (λ seconds.
        SaysMaxTime (option_map (λ word. word.now) word.entry) seconds) }
    ensures none { OnErr result ((seconds : Option ℕ)
        → ¬ SaysMaxTime (option_map (λ word. word.now) word.entry) seconds) }
{
    let Some(word) = word else {
        return Ok(None);
    };
    let Some(seconds) = number_of(word) else {
        return Err(UsageError::of("--max-time <SECONDS>", word, DIGITS_WANTED));
    };
    if seconds == 0 {
        return Ok(None);
    }
    Ok(Some(seconds))
}

/// The most octets of a file.
pub(crate) fn octet_limit_by(word: Option<&str>) -> Result<u64, UsageError<'_>>
    ensures some { IfOk result (λ most.
        SaysOctetLimit (option_map (λ word. word.now) word.entry) most) }
    ensures none { OnErr result ((most : ℕ)
        → ¬ SaysOctetLimit (option_map (λ word. word.now) word.entry) most) }
{
    let Some(word) = word else {
        return Ok(u64::MAX);
    };
    match octets_of(word) {
        Some(octets) => Ok(octets),
        None => Err(UsageError::of("--limit <OCTETS>", word, DIGITS_WANTED)),
    }
}

/// The most octets a second over a data connection, 0 for any number.
pub(crate) fn rate_by(word: Option<&str>) -> Result<u64, UsageError<'_>>
    ensures some { IfOk result (λ rate. SaysRate (option_map (λ word. word.now) word.entry) rate) }
    ensures none { OnErr result ((rate : ℕ)
        → ¬ SaysRate (option_map (λ word. word.now) word.entry) rate) }
{
    let Some(word) = word else {
        return Ok(0);
    };
    match amount_of(word) {
        Some(rate) => Ok(rate),
        None => Err(UsageError::of(
            "--limit-rate <OCTETS[K|M|G|T]>",
            word,
            "decimal digits are wanted, and K, M, G or T after them or nothing, less than 2^64 in all",
        )),
    }
}

/// How often a digest is made, if it is said.
pub(crate) fn rounds_by(word: Option<&str>) -> Result<Option<u32>, UsageError<'_>>
    ensures some { IfOk result (λ rounds.
        SaysIfGiven (option_map (λ word. word.now) word.entry) rounds) }
    ensures none { OnErr result ((rounds : Option ℕ)
        → ¬ SaysIfGiven (option_map (λ word. word.now) word.entry) rounds) }
{
    let Some(word) = word else {
        return Ok(None);
    };
    match number_of(word) {
        Some(rounds) => Ok(Some(rounds)),
        None => Err(UsageError::of("--rounds <N>", word, DIGITS_WANTED)),
    }
}
