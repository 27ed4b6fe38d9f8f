// What one waits for who does not wait: the round of all sessions polls it.
ghost use Rattle.std.specs.Prelude.{◌≡◌, ◌-◌, ◌^◌};

use libc::net as c;
use libc::types::pollfd;
use std::os::fd::AsRawFd;

/// A row of which nothing is asked.
const NOTHING: pollfd = pollfd {
    fd: -1,
    events: 0,
    revents: 0,
};

/// What ends a wait: events of two sockets, or a moment of the monotonic clock in milliseconds.
#[derive(Clone, Copy)]
pub struct Awaits {
    pub rows: [pollfd; 2],
    pub until: u64,
}

impl Awaits {
    /// Nothing does.
    pub fn nothing() -> Awaits
        ensures { result.until ≡ 2 ^ 64 - 1 }
    {
        Awaits {
            rows: [NOTHING, NOTHING],
            until: u64::MAX,
        }
    }

    /// This moment does.
    pub(crate) fn until(until: u64) -> Awaits
        ensures { result.until ≡ until }
    {
        Awaits {
            until,
            ..Awaits::nothing()
        }
    }

    /// Events of one socket do.
    pub(crate) fn one(row: pollfd) -> Awaits {
        Awaits::both(row, NOTHING)
    }

    /// Events of either of two do.
    pub(crate) fn both(row: pollfd, other: pollfd) -> Awaits
        ensures { result.until ≡ 2 ^ 64 - 1 }
    {
        Awaits {
            rows: [row, other],
            until: u64::MAX,
        }
    }

    /// Events of these, or the moment, whichever comes first.
    pub(crate) fn or_until(self, until: u64) -> Awaits
        ensures until { result.until ≡ until }
        ensures rows { result.rows ≡ self.rows }
    {
        Awaits { until, ..self }
    }

    /// What a poll of these told of a socket.
    pub(crate) fn told<S: AsRawFd>(&self, socket: &S) -> i16 {
        let fd = socket.as_raw_fd();
        let mut told = 0;
        for row in self.rows.iter() {
            if row.fd == fd {
                told = row.revents;
            }
        }
        told
    }

    /// From now on nothing is known of a socket.
    pub(crate) fn forget<S: AsRawFd>(&mut self, socket: &S) {
        let fd = socket.as_raw_fd();
        for row in self.rows.iter_mut() {
            if row.fd == fd {
                row.revents = 0;
            }
        }
    }
}

/// Asks now what of these rows is there, and never waits.
pub(crate) fn look(rows: &mut [pollfd]) {
    if c::poll(rows, 0) < 0 {
        for row in rows.iter_mut() {
            row.revents = 0;
        }
    }
}
