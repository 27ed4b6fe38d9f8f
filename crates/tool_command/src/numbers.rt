// Numbers, ports, and how many sessions, as words of a command line say them.
ghost use Rattle.std.specs.Prelude.{◌≡◌, ℕ, List, IfSome, IfNone, option_map};
ghost use Rattle.tool_command.specs.Numbers.{SaysNumberOr, SaysPortOrZero, SaysPorts, SaysServerPort, SaysSessions};
ghost use Rattle.tool_serve.specs.declared.sessions.SessionCount.{SessionCount};

use tool_codec::number_of;
use tool_serve::SessionCount;

/// The number that a word says, or this one where there is no word.
pub(crate) fn number_or(word: Option<&str>, unsaid: u32) -> Option<u32>
    ensures some { IfSome result (λ number.
        SaysNumberOr (option_map (λ word. word.now) word.entry) unsaid number) }
    ensures none { IfNone result ((other number : ℕ)
        → ¬ SaysNumberOr (option_map (λ word. word.now) word.entry) other number) }
{
    match word {
        Some(word) => number_of(word),
        None => Some(unsaid),
    }
}

/// A port, or 0 for one that the system chooses.
pub(crate) fn port_of(word: &str) -> Option<u16>
    ensures some { IfSome result (λ port. SaysPortOrZero word.now port) }
    ensures none { IfNone result ((port : ℕ) → ¬ SaysPortOrZero word.now port) }
{
    let number = number_of(word)?;
    u16::try_from(number).ok()
}

/// The port that a server listens at, from 1 on.
pub(crate) fn server_port_of(word: &str) -> Option<u16>
    ensures some { IfSome result (λ port. SaysServerPort word.now port) }
    ensures none { IfNone result ((port : ℕ) → ¬ SaysServerPort word.now port) }
{
    match port_of(word)? {
        0 => None,
        port => Some(port),
    }
}

/// The first port and the last, from 1 on; none where the last is before the first.
pub(crate) fn ports_of(word: &str) -> Option<(u16, u16)>
    ensures some { IfSome result (λ ports. SaysPorts word.now ports.0 ports.1) }
    ensures none { IfNone result ((first last : ℕ) → ¬ SaysPorts word.now first last) }
{
    let (first, last) = word.split_once('-')?;
    let first = server_port_of(first)?;
    let last = server_port_of(last)?;
    if last < first {
        return None;
    }
    Some((first, last))
}

/// How many control connections a word says.
pub(crate) fn sessions_of(word: &str) -> Option<SessionCount>
    ensures some { IfSome result (λ sessions. SaysSessions word.now sessions) }
    ensures none { IfNone result ((sessions : SessionCount) → ¬ SaysSessions word.now sessions) }
{
    if word == "forever" {
        return Some(SessionCount::Forever);
    }
    Some(SessionCount::Count(number_of(word)?))
}
