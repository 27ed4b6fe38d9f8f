// How many clients `serve` serves at once, as its words say it.
ghost use Rattle.std.specs.Prelude.{◌≡◌, ℕ, IfOk, OnErr, option_map};
ghost use Rattle.tool_command.specs.AtOnce.{SaysAtOnce, SaysPerHost, unsaid_at_once, unsaid_per_host};

use crate::refusal::UsageError;
use tool_codec::number_of;
use tool_serve::SessionCount;

/// How many clients are served at once: one where only so many sessions are, else 32.
pub(crate) fn at_once_by(
    word: Option<&str>,
    sessions: SessionCount,
) -> Result<usize, UsageError<'_>>
    ensures some { IfOk result (λ count.
        SaysAtOnce (option_map (λ word. word.now) word.entry) sessions count) }
    ensures none { OnErr result ((count : ℕ)
        → ¬ SaysAtOnce (option_map (λ word. word.now) word.entry) sessions count) }
{
    let Some(word) = word else {
        return Ok(unsaid_at_once(sessions));
    };
    match number_of(word) {
        Some(count) if count >= 1 && count <= 64 => Ok(count as usize),
        _ => Err(UsageError::of("--at-once <N>", word, "a number from 1 to 64 is wanted")),
    }
}

/// How many of them from one address: where nothing is said, one less than in all, but one at least.
pub(crate) fn per_host_by(word: Option<&str>, at_once: usize) -> Result<usize, UsageError<'_>>
    ensures some { IfOk result (λ count.
        SaysPerHost (option_map (λ word. word.now) word.entry) at_once count) }
    ensures none { OnErr result ((count : ℕ)
        → ¬ SaysPerHost (option_map (λ word. word.now) word.entry) at_once count) }
{
    let Some(word) = word else {
        return Ok(unsaid_per_host(at_once));
    };
    match number_of(word) {
        Some(count) if count >= 1 && count <= 64 => Ok(count as usize),
        _ => Err(UsageError::of(
            "--at-once-per-host <M>",
            word,
            "a number from 1 to 64 is wanted",
        )),
    }
}

/// How many at once where no word says it.
fn unsaid_at_once(sessions: SessionCount) -> usize
    ensures { result ≡ unsaid_at_once sessions }
{
    match sessions {
        SessionCount::Count(_) => 1,
        SessionCount::Forever => 32,
    }
}

/// How many of one address where no word says it.
fn unsaid_per_host(at_once: usize) -> usize
    ensures { result ≡ unsaid_per_host at_once }
{
    if at_once < 2 { 1 } else { at_once - 1 }
}
