// What all wait for, and the one poll over it: nothing else here waits.
ghost use Rattle.std.specs.Global.{Global};

use libc::net as c;
use libc::types::pollfd;
use std::alloc::{AllocError, Global};
use tool_polling::Awaits;
use tool_sockets::monotonic_millis;

/// The longest wait in one piece, in milliseconds, and that of a poll which the system refuses.
const PIECE_MILLIS: u64 = 60_000;

const REFUSED_MILLIS: i32 = 100;

/// Rows of a poll, for each who waits as many as it has connections to look at, and until when it lasts.
#[derive(Drop)]
pub(crate) struct Rows {
    rows: Vec<pollfd, Global>,
    /// Where the rows of each who waits begin.
    begins: Vec<usize, Global>,
    until: u64,
    /// When the last poll ended.
    now: u64,
}

impl Rows {
    /// Room for so many who wait.
    pub(crate) fn new(alloc: Global, count: usize) -> Result<Rows, AllocError> {
        let rows = Vec::with_capacity(alloc, count.saturating_mul(2))?;
        let begins = Vec::with_capacity(alloc, count)?;
        Ok(Rows {
            rows,
            begins,
            until: u64::MAX,
            now: monotonic_millis(),
        })
    }

    /// Nobody waits.
    pub(crate) fn clear(&mut self) {
        self.rows.clear();
        self.begins.clear();
        self.until = u64::MAX;
    }

    /// One more waits; where there is no room, for a moment alone. What is no connection takes no row, since the system refuses a poll of more rows than
    /// descriptors may be open.
    pub(crate) fn add(&mut self, awaits: Awaits) {
        self.wake(awaits.until);
        if self.begins.push(self.rows.len()).is_err() {
            self.wake(0);
        }
        for row in awaits.rows {
            if row.fd >= 0 && self.rows.push(row).is_err() {
                self.wake(0);
            }
        }
    }

    /// The poll ends at this moment at the latest.
    pub(crate) fn wake(&mut self, until: u64) {
        self.until = self.until.min(until);
    }

    /// Waits until something is there that one waits for, or the moment comes.
    pub(crate) fn poll(&mut self) {
        let left = self.until.saturating_sub(monotonic_millis());
        let millis = i32::try_from(left.min(PIECE_MILLIS)).unwrap_or(0);
        if c::poll(self.rows.as_mut_slice(), millis) < 0 {
            self.forget(millis);
        }
        self.now = monotonic_millis();
    }

    /// The system refused the poll: nothing is told, and a moment passes.
    fn forget(&mut self, millis: i32) {
        for row in self.rows.iter_mut() {
            row.revents = 0;
        }
        let mut none = [];
        let _passed = c::poll(&mut none, millis.min(REFUSED_MILLIS));
    }

    /// When the last poll ended.
    pub(crate) fn now(&self) -> u64 {
        self.now
    }

    /// Whether something is there for which the one at this place waited.
    pub(crate) fn is_told(&self, place: usize) -> bool {
        let (begin, end) = self.span(place);
        self.rows
            .iter()
            .take(end)
            .skip(begin)
            .any(|row| row.revents != 0)
    }

    /// What the last poll told the one at this place; that is told once.
    pub(crate) fn take(&mut self, place: usize) -> Awaits {
        let (begin, end) = self.span(place);
        let mut told = Awaits::nothing();
        for (at, row) in told.rows.iter_mut().enumerate() {
            let at = begin.saturating_add(at);
            if let Some(found) = self.rows.get_mut(at).filter(|_| at < end) {
                *row = *found;
                found.revents = 0;
            }
        }
        told
    }

    /// Where the rows of the one at this place begin and end.
    fn span(&self, place: usize) -> (usize, usize) {
        let Some(begin) = self.begins.get(place) else {
            return (0, 0);
        };
        let end = self.begins.get(place.saturating_add(1));
        (*begin, end.copied().unwrap_or(self.rows.len()))
    }
}
