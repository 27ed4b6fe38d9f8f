// What the values of `serve` ask to be served.
ghost use Rattle.std.specs.Prelude.{◌≡◌, ℕ, Option, IfOk, IfSome, IfNone, OnErr, option_map};
ghost use Rattle.std.specs.Net.Grammar.{IsIpText};
ghost use Rattle.std.specs.declared.net.IpAddr.{IpAddr};
ghost use Rattle.tool_serve.specs.declared.serving.Serving.{Serving};
ghost use Rattle.tool_log.specs.declared.format.LogFormat.{LogFormat};
ghost use Rattle.tool_polling.specs.declared.session_timeouts.TimeLimits.{TimeLimits as Waits};
ghost use Rattle.tool_command.specs.Numbers.{SaysPorts, SaysSessions};
ghost use Rattle.tool_serve.specs.declared.sessions.SessionCount.{SessionCount};
ghost use Rattle.ftp_tree.specs.declared.limits.Limits.{Limits};
ghost use Rattle.tool_command.specs.Serving.{AreLimits, AreWaits, AsksServing, SaysAddress, SaysLimit, SaysLogFormat, unserved_of, unsaid_limits, unsaid_waits};

use crate::amount::most_of;
use crate::at_once::{at_once_by, per_host_by};
use crate::numbers::{number_or, port_of, ports_of, sessions_of};
use crate::refusal::UsageError;
use std::net::IpAddr;
use tool_codec::number_of;
use tool_serve::{Input, Limits, Log, LogFormat, Others, Serving, SessionCount, Unserved, Waits};

/// The values of `serve`, as they stand on a command line.
#[derive(Clone, Copy)]
pub(crate) struct ServeWords<'a> {
    pub(crate) host: &'a str,
    pub(crate) port: &'a str,
    pub(crate) dir: &'a str,
    pub(crate) sessions: &'a str,
    pub(crate) at_once: Option<&'a str>,
    pub(crate) per_host: Option<&'a str>,
    pub(crate) input: Input,
    pub(crate) stop_file: Option<&'a str>,
    pub(crate) finish: &'a str,
    pub(crate) accounts: Option<&'a str>,
    pub(crate) log: Log,
    pub(crate) log_format: &'a str,
    pub(crate) others: Others,
    pub(crate) passive: &'a str,
    pub(crate) passive_address: Option<&'a str>,
    pub(crate) unserved: Unserved,
    pub(crate) scope: Scope,
    pub(crate) waits: WaitWords<'a>,
    pub(crate) limits: LimitWords<'a>,
}

/// What of a folder is served where no word of its own says it.
#[derive(Clone, Copy)]
pub(crate) enum Scope {
    /// As much as a tree has that is told no limits.
    Usual,
    /// All that can be served.
    Any,
}

/// Those of them that are seconds; none of an option that is not given.
#[derive(Clone, Copy)]
pub(crate) struct WaitWords<'a> {
    pub(crate) login: Option<&'a str>,
    pub(crate) idle: Option<&'a str>,
    pub(crate) idle_while_waited: Option<&'a str>,
    pub(crate) session_while_waited: Option<&'a str>,
    pub(crate) login_while_waited: Option<&'a str>,
}

/// Those of them that are limits, in octets and in files; none of an option that is not given.
#[derive(Clone, Copy)]
pub(crate) struct LimitWords<'a> {
    pub(crate) octets: Option<&'a str>,
    pub(crate) of_a_file: Option<&'a str>,
    pub(crate) files: Option<&'a str>,
}

/// What these values ask to be served; refused where one is none of its option.
pub(crate) fn serving_by<'a>(words: ServeWords<'a>) -> Result<Serving<'a>, UsageError<'a>>
    ensures asked { IfOk result (λ serving. AsksServing words.entry serving) }
    ensures refused { OnErr result ((serving : Serving) → ¬ AsksServing words.entry serving) }
{
    let host = host_by(words.host)?;
    let sessions = sessions_by(words.sessions)?;
    let at_once = at_once_by(words.at_once, sessions)?;
    let per_host = per_host_by(words.per_host, at_once)?;
    let Some(finish) = number_of(words.finish) else {
        return Err(UsageError::Number);
    };
    let passive = passive_by(words.passive)?;
    let passive_address = passive_address_by(words.passive_address)?;
    let log_format = log_format_by(words.log_format)?;
    let Some(port) = port_of(words.port) else {
        return Err(UsageError::Number);
    };
    let Some(waits) = waits_by(words.waits, sessions) else {
        return Err(UsageError::Number);
    };
    let limits = limits_by(words.scope, words.limits)?;
    Ok(Serving {
        host,
        port,
        dir: words.dir,
        sessions,
        at_once,
        per_host,
        input: words.input,
        stop_file: words.stop_file,
        finish,
        accounts: words.accounts,
        log: words.log,
        log_format,
        waits,
        passive,
        passive_address,
        limits,
        others: words.others,
        unserved: unserved_of(words.scope, words.unserved),
    })
}

/// The address that `serve` listens at.
fn host_by(word: &str) -> Result<IpAddr, UsageError<'_>>
    ensures some { IfOk result (λ host. IsIpText word.now host) }
    ensures none { OnErr result ((host : IpAddr) → ¬ IsIpText word.now host) }
{
    match word.parse() {
        Ok(address) => Ok(address),
        Err(_) => Err(UsageError::of("--host <A>", word, "an address in numbers is wanted")),
    }
}

/// How many control connections are served.
fn sessions_by(word: &str) -> Result<SessionCount, UsageError<'_>>
    ensures some { IfOk result (λ sessions. SaysSessions word.now sessions) }
    ensures none { OnErr result ((sessions : SessionCount) → ¬ SaysSessions word.now sessions) }
{
    match sessions_of(word) {
        Some(sessions) => Ok(sessions),
        None => Err(UsageError::of(
            "--sessions <K|forever>",
            word,
            "a number or forever is wanted",
        )),
    }
}

/// How the lines of the log are written.
fn log_format_by(word: &str) -> Result<LogFormat, UsageError<'_>>
    // Witness: caller: `serving_by`; `edits/each_log_is_text`.
    ensures some { IfOk result (λ format. SaysLogFormat word.now format) }
    ensures none { OnErr result ((format : LogFormat) → ¬ SaysLogFormat word.now format) }
{
    if word == "text" {
        return Ok(LogFormat::Text);
    }
    if word == "json" {
        return Ok(LogFormat::Json);
    }
    if word == "xferlog" {
        return Ok(LogFormat::Xferlog);
    }
    Err(UsageError::of(
        "--log-format <text|json|xferlog>",
        word,
        "text, json or xferlog is wanted",
    ))
}

/// The ports of passive data connections, the first and the last.
fn passive_by(word: &str) -> Result<(u16, u16), UsageError<'_>>
    ensures some { IfOk result (λ ports. SaysPorts word.now ports.0 ports.1) }
    ensures none { OnErr result ((first last : ℕ) → ¬ SaysPorts word.now first last) }
{
    match ports_of(word) {
        Some(ports) => Ok(ports),
        None => Err(UsageError::of(
            "--passive-ports <A-B>",
            word,
            "two ports from 1 on are wanted, the first not behind the last",
        )),
    }
}

/// The address that PASV names, where it is not the server's own.
fn passive_address_by(word: Option<&str>) -> Result<Option<IpAddr>, UsageError<'_>>
    ensures some { IfOk result (λ address.
        SaysAddress (option_map (λ word. word.now) word.entry) address) }
    ensures none { OnErr result ((address : Option IpAddr)
        → ¬ SaysAddress (option_map (λ word. word.now) word.entry) address) }
{
    let Some(word) = word else {
        return Ok(None);
    };
    match word.parse() {
        Ok(address) => Ok(Some(address)),
        Err(_) => Err(UsageError::of(
            "--passive-address <A>",
            word,
            "an address in numbers is wanted",
        )),
    }
}

/// How long is waited; a limit that no word says is that of how many sessions are served.
fn waits_by(words: WaitWords<'_>, sessions: SessionCount) -> Option<Waits>
    ensures some { IfSome result (λ waits. AreWaits words.entry sessions waits) }
    ensures none { IfNone result ((other : SessionCount) (waits : Waits)
        → ¬ AreWaits words.entry other waits) }
{
    let unsaid = unsaid_waits(sessions);
    let login = number_or(words.login, unsaid.login)?;
    let idle = number_or(words.idle, unsaid.idle)?;
    let idle_while_waited = number_or(words.idle_while_waited, unsaid.idle_while_waited)?;
    let session_while_waited = number_or(words.session_while_waited, unsaid.session_while_waited)?;
    let login_while_waited = number_or(words.login_while_waited, unsaid.login_while_waited)?;
    Some(Waits {
        login,
        idle,
        idle_while_waited,
        session_while_waited,
        login_while_waited,
    })
}

/// How long is waited where no word says it: without a limit where only so many sessions are served.
fn unsaid_waits(sessions: SessionCount) -> Waits
    ensures { result ≡ unsaid_waits sessions }
{
    match sessions {
        SessionCount::Count(_) => Waits {
            login: 0,
            idle: 0,
            idle_while_waited: 0,
            session_while_waited: 0,
            login_while_waited: 0,
        },
        SessionCount::Forever => Waits {
            login: 30,
            idle: 300,
            idle_while_waited: 15,
            session_while_waited: 60,
            login_while_waited: 10,
        },
    }
}

/// How much is served; a limit that no word says is that of the scope.
fn limits_by<'a>(scope: Scope, words: LimitWords<'a>) -> Result<Limits, UsageError<'a>>
    ensures some { IfOk result (λ limits. AreLimits scope words.entry limits) }
    ensures none { OnErr result ((limits : Limits) → ¬ AreLimits scope words.entry limits) }
{
    let unsaid = unsaid_limits(scope);
    let file = most_by("--most-of-a-file <N|any>", words.of_a_file, unsaid.file)?;
    let total = most_by("--most-octets <N|any>", words.octets, unsaid.total)?;
    let nodes = most_by("--most-files <N|any>", words.files, unsaid.nodes)?;
    Ok(Limits { file, total, nodes })
}

/// How much is served where no word says it.
fn unsaid_limits(scope: Scope) -> Limits
    ensures { result ≡ unsaid_limits scope }
{
    match scope {
        Scope::Usual => Limits::default(),
        Scope::Any => Limits {
            file: u64::MAX,
            total: u64::MAX,
            nodes: u64::MAX,
        },
    }
}

/// A limit, which is this one where no word says it.
fn most_by<'a>(option: &'a str, word: Option<&'a str>, unsaid: u64) -> Result<u64, UsageError<'a>>
    ensures some { IfOk result (λ most.
        SaysLimit (option_map (λ word. word.now) word.entry) unsaid most) }
    ensures none { OnErr result ((most : ℕ)
        → ¬ SaysLimit (option_map (λ word. word.now) word.entry) unsaid most) }
{
    let Some(word) = word else {
        return Ok(unsaid);
    };
    match most_of(word) {
        Some(most) => Ok(most),
        None => Err(UsageError::of(
            option,
            word,
            "a number is wanted, with K, M, G or T after it or nothing, or any",
        )),
    }
}

/// What is done with what can't be served.
fn unserved_of(scope: Scope, unserved: Unserved) -> Unserved
    ensures { result ≡ unserved_of scope unserved }
{
    match scope {
        Scope::Usual => unserved,
        Scope::Any => Unserved::LeaveOut,
    }
}
