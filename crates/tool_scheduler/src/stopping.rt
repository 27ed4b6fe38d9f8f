// What stops the server: the end of standard input, or a request, which is looked for once a second.
use crate::session_limits::Input;
use crate::slot::StopRequest;
use libc::net as c;
use libc::types::pollfd;
use tool_polling::Awaits;

/// How long it is until a request is looked for again, in milliseconds.
const LOOK_MILLIS: u64 = 1_000;

/// Whether standard input is open. Of one that is closed no end can be waited for, and what is opened next takes its number.
pub fn is_input_open() -> bool {
    let mut rows = [input_row(0)];
    let _found = c::poll(&mut rows, 0);
    rows[0].revents & c::POLLNVAL == 0
}

/// A row of these events of standard input.
fn input_row(events: i16) -> pollfd {
    pollfd {
        fd: libc::STDIN_FILENO,
        events,
        revents: 0,
    }
}

/// Whether the server stops. Moments are milliseconds of the monotonic clock.
#[derive(Clone, Copy)]
pub(crate) enum StopState {
    /// It goes on. A request is looked for at the moment `look`; once it stops, transfers may go on for `finish` milliseconds.
    GoesOn {
        input: Input,
        look: u64,
        finish: u64,
    },
    /// It stops: transfers may go on until this moment.
    Stops(u64),
}

impl StopState {
    /// It goes on; transfers may go on for so many seconds once it stops.
    pub(crate) fn new(input: Input, finish: u32) -> StopState {
        StopState::GoesOn {
            input,
            look: 0,
            finish: u64::from(finish) * 1_000,
        }
    }

    /// What is waited for now.
    pub(crate) fn awaits(self, now: u64) -> Awaits {
        let mut awaits = Awaits::nothing();
        match self {
            StopState::GoesOn { input, look, .. } => {
                awaits.until = look;
                if let Input::Stops = input {
                    awaits.rows[0] = input_row(c::POLLIN);
                }
            }
            StopState::Stops(until) => {
                if now < until {
                    awaits.until = until;
                }
            }
        }
        awaits
    }

    /// Something is there to be read of standard input now: at its end the server stops.
    pub(crate) fn read_input(self, now: u64) -> StopState {
        match self {
            StopState::GoesOn { finish, .. } if has_ended() => {
                StopState::Stops(now.saturating_add(finish))
            }
            other => other,
        }
    }

    /// Whether a request is to be looked for now.
    pub(crate) fn looks(self, now: u64) -> bool {
        match self {
            StopState::GoesOn { look, .. } => look <= now,
            StopState::Stops(_) => false,
        }
    }

    /// A request was looked for now.
    pub(crate) fn hear(self, request: StopRequest, now: u64) -> StopState {
        let StopState::GoesOn { input, finish, .. } = self else {
            return self;
        };
        let look = match request {
            StopRequest::Made => return StopState::Stops(now.saturating_add(finish)),
            StopRequest::NotYet => now.saturating_add(LOOK_MILLIS),
            StopRequest::Never => u64::MAX,
        };
        StopState::GoesOn {
            input,
            look,
            finish,
        }
    }

    /// Until when transfers may go on, where the server stops.
    pub(crate) fn until(self) -> Option<u64> {
        match self {
            StopState::GoesOn { .. } => None,
            StopState::Stops(until) => Some(until),
        }
    }
}

/// Reads once, where that does not wait, and says whether it was the end, or failed.
fn has_ended() -> bool {
    let mut room = [0u8; 512];
    let count = libc::read(libc::STDIN_FILENO, &mut room);
    if count >= 0 {
        return count == 0;
    }
    let errno = os::errno();
    errno != libc::EINTR && errno != libc::EAGAIN
}
