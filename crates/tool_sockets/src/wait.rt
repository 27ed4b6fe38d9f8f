// Waiting for the control connection and another socket together, or for nothing.
ghost use Rattle.std.specs.Prelude.{◌≡◌};
ghost use Rattle.tool_sockets.specs.Waiting.{wakes};

use crate::timeouts::{ClientTimeouts, Waited};
use ftp_ports::{For, Spoken, TURNS};
use libc::net as c;
use libc::types::pollfd;
use std::os::fd::AsRawFd;

/// What ended a waiting.
#[derive(Clone, Copy)]
pub enum Woke {
    /// The other socket has something, or room.
    Ready,
    /// The control connection has octets, or ended.
    Spoken,
    /// The control connection ended.
    Ended,
    /// No time is left.
    TimeOver,
    /// The system's call failed, or told of nothing.
    Failed,
}

/// What of the control connection ends a waiting.
#[derive(Clone, Copy)]
pub enum Heeds {
    /// Its end alone, where the other socket is not ready.
    End,
    /// Octets too, where the other socket is not ready.
    Octets,
    /// Octets, which go before the other socket; its end, where that is not ready.
    OctetsFirst,
}

/// Whether what was asked for of the other socket is there.
#[derive(Clone, Copy)]
pub enum Other {
    /// It is not.
    Waits,
    /// It is, or the socket broke.
    Ready,
}

/// Waits until the other socket is ready or what is heeded of the control connection is there, while time is left. The end is seen behind
/// octets that are not read yet, too.
pub(crate) fn wait<C: AsRawFd, S: AsRawFd>(
    control: &C,
    other: &S,
    what: For,
    heeds: Heeds,
    timeouts: &ClientTimeouts,
) -> Woke {
    let mut asked = both_of(control, other, what, heeds);
    match timeouts.wait(&mut asked) {
        Waited::Told => told_by(&asked, heeds),
        Waited::Over => Woke::TimeOver,
        Waited::Failed => Woke::Failed,
    }
}

/// The same for at most so many milliseconds.
pub(crate) fn wait_millis<C: AsRawFd, S: AsRawFd>(
    control: &C,
    other: &S,
    what: For,
    heeds: Heeds,
    millis: i32,
) -> Woke {
    let mut asked = both_of(control, other, what, heeds);
    match ask(&mut asked, millis) {
        Polled::Told => told_by(&asked, heeds),
        Polled::TimeOver => Woke::TimeOver,
        Polled::Failed => Woke::Failed,
    }
}

/// What is asked of the control connection and of another socket.
fn both_of<C: AsRawFd, S: AsRawFd>(control: &C, other: &S, what: For, heeds: Heeds) -> [pollfd; 2] {
    let told = match heeds {
        Heeds::End => c::POLLRDHUP,
        Heeds::Octets | Heeds::OctetsFirst => c::POLLIN | c::POLLRDHUP,
    };
    [asking(control, told), asking(other, events_of(what))]
}

/// A row for a poll: a socket of which these events are asked, and nothing was told yet.
pub fn asking<S: AsRawFd>(socket: &S, events: i16) -> pollfd {
    pollfd {
        fd: socket.as_raw_fd(),
        events,
        revents: 0,
    }
}

/// The event that is waited for.
fn events_of(what: For) -> i16 {
    match what {
        For::Octets => c::POLLIN,
        For::Room => c::POLLOUT,
    }
}

/// What ended the wait for both.
fn told_by(asked: &[pollfd; 2], heeds: Heeds) -> Woke {
    let other = if asked[1].revents == 0 {
        Other::Waits
    } else {
        Other::Ready
    };
    woken(spoken_by(asked[0].revents), other, heeds)
}

/// How a poll ended.
#[derive(Clone, Copy)]
pub(crate) enum Polled {
    /// What was asked for of a socket is there.
    Told,
    TimeOver,
    Failed,
}

/// Polls, also behind signals.
pub(crate) fn ask(asked: &mut [pollfd], millis: i32) -> Polled {
    for _ in 0..TURNS {
        let count = c::poll(asked, millis);
        if count == 0 {
            return Polled::TimeOver;
        }
        if count > 0 {
            return Polled::Told;
        }
        if os::errno() != libc::EINTR {
            return Polled::Failed;
        }
    }
    Polled::Failed
}

/// What a control connection has now.
pub(crate) fn look_at<C: AsRawFd>(control: &C) -> Spoken {
    let mut asked = [asking(control, c::POLLIN | c::POLLRDHUP)];
    match ask(&mut asked, 0) {
        Polled::Told => spoken_by(asked[0].revents),
        Polled::TimeOver => Spoken::Nothing,
        Polled::Failed => Spoken::Ended,
    }
}

/// What the events of a control connection say: an end or a break, octets, or nothing.
pub fn spoken_by(events: i16) -> Spoken {
    if events & (c::POLLRDHUP | c::POLLHUP | c::POLLERR) != 0 {
        Spoken::Ended
    } else if events == 0 {
        Spoken::Nothing
    } else {
        Spoken::Octets
    }
}

/// What ends a wait, by what both have. Where both have nothing, the system told of what nobody asked for.
pub fn woken(control: Spoken, other: Other, heeds: Heeds) -> Woke
    ensures { result ≡ wakes control other heeds }
{
    match (control, other, heeds) {
        (Spoken::Octets, _, Heeds::OctetsFirst) => Woke::Spoken,
        (_, Other::Ready, _) => Woke::Ready,
        (Spoken::Nothing, Other::Waits, _) => Woke::Failed,
        (_, Other::Waits, Heeds::End) => Woke::Ended,
        (_, Other::Waits, _) => Woke::Spoken,
    }
}

/// Whether a descriptor has room for 4,096 octets now, as a pipe, a terminal, a file or a socket has it that says so; not where its reader is gone.
pub fn has_room_now(fd: i32) -> bool {
    let mut asked = [pollfd {
        fd,
        events: c::POLLOUT,
        revents: 0,
    }];
    ask(&mut asked, 0) == Polled::Told && asked[0].revents == c::POLLOUT
}

/// Waits so many milliseconds; a signal may end that early.
pub fn pause(millis: u16) {
    let mut nothing: [pollfd; 0] = [];
    let _count = c::poll(&mut nothing, i32::from(millis));
}
