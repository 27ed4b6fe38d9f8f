// How long a server waits for its client, beside others: limits, and what is left of them, as values.
ghost use Rattle.std.specs.Prelude.{◌≡◌};
ghost use Rattle.tool_polling.specs.Limits.{passed_by, sooner_of, stricter, term_after};
ghost use Rattle.tool_polling.specs.Timeouts.{fixed_term, moves, quiet_term, spare_of, term_of_session, untaken_limit, waited_after};

/// How long a server waits for its client, in seconds; 0: without a limit.
#[derive(Clone, Copy)]
pub struct TimeLimits {
    /// From the beginning of a session to its login.
    pub login: u32,
    /// Without a command, a reply, or an octet of a data connection.
    pub idle: u32,
    /// The same, while another client waits to be served.
    pub idle_while_waited: u32,
    /// In all, whatever is said or sent, from when another client began to wait.
    pub session_while_waited: u32,
    /// The same before a login.
    pub login_while_waited: u32,
}

/// Why a client is not waited for any more.
#[derive(Clone, Copy)]
pub enum TimeoutReason {
    /// Nobody logged in for so long.
    Login,
    /// Nothing was said or sent for so long.
    Idle,
    /// Nothing was said or sent for so long, and another client waits.
    Waited,
    /// Another client waits for so long.
    Session,
    /// Another client waits for so long, and nobody logged in.
    LoginWaited,
    /// Its address has the most slots, another one has none, and no transfer moves.
    Crowded,
    /// Too many logins were refused.
    Refused,
    /// The server stops.
    Stopped,
}

/// A transfer moves while one of its octets went within so many milliseconds.
const MOVING_MILLIS: u64 = 10_000;

/// What a transfer that moves does to the time since another client began to wait.
#[derive(Clone, Copy)]
pub(crate) enum Transfers {
    /// It goes on.
    Count,
    /// It begins anew with each octet of a data connection.
    AreSpared,
}

/// How many milliseconds are left of a limit, and what is over with it.
#[derive(Clone, Copy)]
pub(crate) struct Term {
    pub(crate) left: u64,
    pub(crate) over: TimeoutReason,
}

/// How a session stands: milliseconds since it began, since something was done in it, and since another client began to wait, if one does.
#[derive(Clone, Copy)]
pub(crate) struct SessionTimes {
    pub(crate) begun: u64,
    pub(crate) quiet: u64,
    pub(crate) waited: Option<u64>,
    pub(crate) logged_in: bool,
}

/// Since when another client waits once an octet of a data connection went now.
pub(crate) fn waited_after(waited: Option<u64>, now: u64, transfers: Transfers) -> Option<u64>
    ensures { result ≡ waited_after waited now transfers }
{
    match (waited, transfers) {
        (Some(_), Transfers::AreSpared) => Some(now),
        (waited, _) => waited,
    }
}

/// Whether a transfer moves whose last octet went so many milliseconds ago, if one did.
pub(crate) fn moves(since: Option<u64>) -> bool
    ensures { result ≡ moves since }
{
    match since {
        Some(since) => since < MOVING_MILLIS,
        None => false,
    }
}

/// For how many milliseconds a limit of so many seconds is passed, if it is.
fn passed(limit: u32, spent: u64) -> Option<u64>
    ensures { result ≡ passed_by limit spent }
{
    if limit == 0 {
        return None;
    }
    let millis = u64::from(limit) * 1_000;
    if spent < millis {
        return None;
    }
    Some(spent - millis)
}

/// Why a session that stands so might be ended for another client that comes now, and for how many milliseconds it might have been.
pub(crate) fn spare_of(limits: TimeLimits, stand: SessionTimes) -> Option<(TimeoutReason, u64)>
    ensures { result ≡ spare_of limits stand }
{
    let quiet = passed(limits.idle_while_waited, stand.quiet);
    if let Some(since) = quiet {
        return Some((TimeoutReason::Waited, since));
    }
    if stand.logged_in {
        return None;
    }
    match passed(limits.login_while_waited, stand.begun) {
        Some(since) => Some((TimeoutReason::LoginWaited, since)),
        None => None,
    }
}

/// For how many seconds octets may wait for the peer to take them: as long as nothing may be said or sent now; 0: without a limit.
pub(crate) fn untaken_limit(limits: TimeLimits, waited: Option<u64>) -> u32
    ensures { result ≡ untaken_limit limits waited }
{
    match waited {
        Some(_) => stricter(limits.idle, limits.idle_while_waited),
        None => limits.idle,
    }
}

/// What is left of the limits of a session that stands so; none where it has none.
pub(crate) fn term_of_session(limits: TimeLimits, stand: SessionTimes) -> Option<Term>
    ensures { result ≡ term_of_session limits stand }
{
    sooner(quiet_term(limits, stand), fixed_term(limits, stand))
}

/// What is left of those that a sign of life puts off.
fn quiet_term(limits: TimeLimits, stand: SessionTimes) -> Option<Term>
    ensures { result ≡ quiet_term limits stand }
{
    let idle = term_of(limits.idle, stand.quiet, TimeoutReason::Idle);
    match stand.waited {
        Some(_) => sooner(
            idle,
            term_of(limits.idle_while_waited, stand.quiet, TimeoutReason::Waited),
        ),
        None => idle,
    }
}

/// What is left of those that nothing puts off.
pub(crate) fn fixed_term(limits: TimeLimits, stand: SessionTimes) -> Option<Term>
    ensures { result ≡ fixed_term limits stand }
{
    let session = match stand.waited {
        Some(since) => term_of(limits.session_while_waited, since, TimeoutReason::Session),
        None => None,
    };
    if stand.logged_in {
        return session;
    }
    let login = term_of(limits.login, stand.begun, TimeoutReason::Login);
    match stand.waited {
        Some(since) => {
            let waited = term_of(limits.login_while_waited, since, TimeoutReason::LoginWaited);
            sooner(session, sooner(login, waited))
        }
        None => login,
    }
}

/// What is left of a limit after so many milliseconds; none where there is no limit.
fn term_of(limit: u32, spent: u64, over: TimeoutReason) -> Option<Term>
    ensures { result ≡ term_after limit spent over }
{
    if limit == 0 {
        return None;
    }
    let left = (u64::from(limit) * 1_000).saturating_sub(spent);
    Some(Term { left, over })
}

/// The shorter of two limits in seconds, of which 0 is none.
fn stricter(one: u32, other: u32) -> u32
    ensures { result ≡ stricter one other }
{
    match (one, other) {
        (0, other) => other,
        (one, 0) => one,
        (one, other) => one.min(other),
    }
}

/// The one of two limits that ends sooner, the first where both do.
fn sooner(one: Option<Term>, other: Option<Term>) -> Option<Term>
    ensures { result ≡ sooner_of one other }
{
    match (one, other) {
        (Some(one), Some(other)) if one.left <= other.left => Some(one),
        (Some(_), Some(other)) => Some(other),
        (Some(one), None) => Some(one),
        (None, other) => other,
    }
}
