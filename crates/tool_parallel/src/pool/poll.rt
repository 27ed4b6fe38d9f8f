// The one poll of a pool: two rows for each control connection, at its place.
use crate::connection::TakesTurns;
use crate::pool::slot::PoolSlot;
use libc::net as c;
use libc::types::pollfd;
use tool_polling::{Awaits, Leaving};
use tool_sockets::monotonic_millis;

/// The rows of a poll: two for each control connection that a pool has at most.
const ROWS: usize = 16;

/// The longest wait in one piece, in milliseconds.
const PIECE_MILLIS: u64 = 1_000;

/// A row of which nothing is asked.
fn row_of_nothing() -> pollfd {
    pollfd {
        fd: -1,
        events: 0,
        revents: 0,
    }
}

/// Polls what busy connections wait for, for a second at most, and gives what was found.
pub(crate) fn poll_all<L: TakesTurns + Drop>(slots: &[PoolSlot<L>]) -> [pollfd; ROWS] {
    let mut rows = [row_of_nothing(); ROWS];
    let millis = put_all(slots, &mut rows);
    let _count = c::poll(&mut rows, millis);
    rows
}

/// Puts what busy connections wait for into rows, and gives for how many milliseconds that is waited for: for none where a turn is due.
fn put_all<L: TakesTurns + Drop>(slots: &[PoolSlot<L>], rows: &mut [pollfd; ROWS]) -> i32 {
    let now = monotonic_millis();
    let mut left = PIECE_MILLIS;
    for (place, slot) in slots.iter().enumerate() {
        if slot.is_busy() {
            let awaits = slot.client.awaits();
            put_rows(rows, place, awaits);
            left = left.min(awaits.until.saturating_sub(now));
            if slot.client.is_due() {
                left = 0;
            }
        }
    }
    i32::try_from(left).unwrap_or(0)
}

/// Puts the rows of a connection at its place.
fn put_rows(rows: &mut [pollfd; ROWS], place: usize, awaits: Awaits) {
    let at = place.saturating_mul(2);
    if let Some(row) = rows.get_mut(at) {
        *row = awaits.rows[0];
    }
    if let Some(row) = rows.get_mut(at.saturating_add(1)) {
        *row = awaits.rows[1];
    }
}

/// What the poll found of what the connection at a place waited for.
pub(crate) fn found_at(rows: &[pollfd; ROWS], place: usize) -> Awaits {
    let mut found = Awaits::nothing();
    let first = place.saturating_mul(2);
    for (at, row) in found.rows.iter_mut().enumerate() {
        if let Some(polled) = rows.get(first.saturating_add(at)) {
            *row = *polled;
        }
    }
    found
}

/// Whether a connection has a turn now, of which the poll found this, at a moment of the monotonic clock, in milliseconds.
pub(crate) fn is_ready<L: TakesTurns + Drop>(slot: &PoolSlot<L>, found: &Awaits, now: u64) -> bool {
    let is_found = found.rows.iter().any(|row| row.revents != 0);
    slot.is_busy() && (is_found || slot.client.is_due() || slot.client.awaits().until <= now)
}

/// Waits for what those who leave wait for, at most so many milliseconds.
pub(crate) fn await_leaving(leaving: &[Leaving], millis: u64) {
    let mut rows = [row_of_nothing(); ROWS];
    for (place, left) in leaving.iter().enumerate() {
        put_rows(&mut rows, place, left.awaits());
    }
    let millis = i32::try_from(millis.min(PIECE_MILLIS)).unwrap_or(0);
    let _count = c::poll(&mut rows, millis);
}
