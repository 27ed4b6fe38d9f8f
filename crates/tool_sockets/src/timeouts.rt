// How long one who asks waits for its server.
ghost use Rattle.std.specs.Prelude.{◌≡◌};
ghost use Rattle.tool_sockets.specs.Timeouts.{limit_millis, millis_left, silent_until, sooner};

use crate::last_activity::LastActivity;
use crate::wait::{Polled, ask};
use ftp_ports::TURNS;
use libc::types::{pollfd, timespec};
use std::cell::Cell;

/// The longest wait in one piece, in milliseconds.
const PIECE_MILLIS: i32 = 1_000;

/// How a wait ended.
#[derive(Clone, Copy)]
pub(crate) enum Waited {
    /// What was asked for of a socket is there.
    Told,
    /// Its time is over.
    Over,
    Failed,
}

/// The timeouts of one who asks, over one control connection: its server may say, take and send nothing for so long, and all may take so long. Time is that of
/// the system's monotonic clock, in milliseconds.
#[derive(Drop)]
pub struct ClientTimeouts {
    /// How long silence may last; none: without a limit.
    limit: Option<u64>,
    /// Until when all lasts at most; none: without a limit.
    until: Option<u64>,
    last: Cell<LastActivity>,
    is_over: Cell<bool>,
}

impl ClientTimeouts {
    /// The timeouts of one that begins now: so many seconds of silence, 0: without a limit; and until when all lasts at most, in milliseconds of the monotonic
    /// clock.
    pub fn new(seconds: u32, until: Option<u64>) -> ClientTimeouts
        ensures limit { result.limit ≡ limit_millis seconds }
        ensures until { result.until ≡ until }
    {
        ClientTimeouts {
            limit: limit_millis(seconds),
            until,
            last: Cell::new(LastActivity::Done(monotonic_millis())),
            is_over: Cell::new(false),
        }
    }

    /// Something was done: a command went, or octets of a data connection.
    pub fn touch(&self) {
        self.last.set(LastActivity::Done(monotonic_millis()));
    }

    /// The server said a line.
    pub(crate) fn hear(&self) {
        let last = self.last.get();
        self.last.set(last.behind_line(monotonic_millis()));
    }

    /// Whether the moment has come until which it lasts at most.
    pub fn is_past(&self) -> bool {
        match self.until {
            Some(until) => until <= monotonic_millis(),
            None => false,
        }
    }

    /// Whether nothing is waited for any more.
    pub fn is_over(&self) -> bool {
        self.is_over.get()
    }

    /// Nothing is waited for any more.
    pub(crate) fn end(&self) {
        self.is_over.set(true);
    }

    /// Polls while any time is left.
    pub(crate) fn wait(&self, asked: &mut [pollfd]) -> Waited {
        for _ in 0..TURNS {
            let millis = match self.left() {
                Some(0) => return Waited::Over,
                Some(left) => piece_of(left),
                None => PIECE_MILLIS,
            };
            match ask(asked, millis) {
                Polled::Told => return Waited::Told,
                Polled::Failed => return Waited::Failed,
                Polled::TimeOver => {}
            }
        }
        Waited::Failed
    }

    /// Whether none of it is left now.
    pub(crate) fn is_spent(&self) -> bool {
        self.left() == Some(0)
    }

    /// How many milliseconds are left; none where there is no limit.
    fn left(&self) -> Option<u64> {
        if self.is_over.get() {
            return Some(0);
        }
        let silent = silent_until(self.limit, self.last.get().moment());
        millis_left(sooner(silent, self.until), monotonic_millis())
    }

    /// How long octets may wait for the peer to take them, in milliseconds; 0: without a limit.
    pub(crate) fn untaken_millis(&self) -> i32 {
        i32::try_from(self.limit.unwrap_or(0)).unwrap_or(i32::MAX)
    }
}

/// A limit of so many seconds in milliseconds; 0 is none.
fn limit_millis(seconds: u32) -> Option<u64>
    ensures { result ≡ limit_millis seconds }
{
    if seconds == 0 {
        return None;
    }
    Some(u64::from(seconds) * 1_000)
}

/// Until when silence may last behind the last activity; none where there is no limit.
fn silent_until(limit: Option<u64>, last: u64) -> Option<u64>
    ensures { result ≡ silent_until limit last }
{
    match limit {
        Some(limit) => Some(last.saturating_add(limit)),
        None => None,
    }
}

/// How many milliseconds are left until a moment, now; none where there is none.
fn millis_left(until: Option<u64>, now: u64) -> Option<u64>
    ensures { result ≡ millis_left until now }
{
    match until {
        Some(until) => Some(until.saturating_sub(now)),
        None => None,
    }
}

/// The sooner of two moments; none where there is none.
fn sooner(one: Option<u64>, other: Option<u64>) -> Option<u64>
    ensures { result ≡ sooner one other }
{
    match (one, other) {
        (Some(one), Some(other)) => Some(one.min(other)),
        (Some(one), None) => Some(one),
        (None, other) => other,
    }
}

/// How long one wait is where so many milliseconds are left.
pub(crate) fn piece_of(left: u64) -> i32 {
    match i32::try_from(left) {
        Ok(left) => left.min(PIECE_MILLIS),
        Err(_) => PIECE_MILLIS,
    }
}

/// The milliseconds of the system's monotonic clock, from some beginning.
pub fn monotonic_millis() -> u64 {
    let mut time = timespec {
        tv_sec: 0,
        tv_nsec: 0,
    };
    let _status = libc::clock_gettime(libc::CLOCK_MONOTONIC, &mut time);
    let seconds = u64::try_from(time.tv_sec).unwrap_or(0);
    let nanos = u64::try_from(time.tv_nsec).unwrap_or(0);
    seconds
        .saturating_mul(1_000)
        .saturating_add(nanos / 1_000_000)
}
