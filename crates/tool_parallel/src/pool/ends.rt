// What is noted and told where a control connection of a pool ends, and how all of them are left.
use crate::connection::TakesTurns;
use crate::pool::poll::await_leaving;
use crate::pool::slots::PoolSlots;
use ftp_ports::TURNS;
use std::alloc::Global;
use std::fmt;
use std::fmt::{Display, Formatter};
use std::io::Eprint;
use tool_session::{LastReply, Said, say};
use tool_sockets::monotonic_millis;

/// How long the ends of all control connections are waited for, in milliseconds.
const LAST_MILLIS: u64 = 1_000;

/// How long a server is waited for.
#[derive(Clone, Copy)]
pub(crate) struct WaitLimits {
    /// For how many seconds the server may be silent; 0: without a limit.
    pub(crate) timeout: u32,
    /// Until when all is to be done, in milliseconds of the monotonic clock; none: without a limit.
    pub(crate) until: Option<u64>,
}

/// Notes what was said last over a control connection, and what this end waited for no longer, where that ended it.
pub(crate) fn note_reply<L: TakesTurns>(
    client: &L,
    limits: WaitLimits,
    last_reply: &mut LastReply,
) {
    last_reply.keep(client.last_reply());
    if !client.has_ended() || !client.waits_no_longer() {
        return;
    }
    if is_past(limits.until) {
        last_reply.ran_out();
    } else {
        last_reply.fell_silent(limits.timeout);
    }
}

/// Whether a moment of the monotonic clock has come, in milliseconds.
fn is_past(until: Option<u64>) -> bool {
    match until {
        Some(until) => until <= monotonic_millis(),
        None => false,
    }
}

/// Tells that it goes on without the connection at a place, where others are left.
pub(crate) fn tell_fewer<R: Eprint, L: TakesTurns + Drop>(
    rt: &R,
    slots: &PoolSlots<L>,
    place: usize,
) {
    let count = slots.left();
    if count == 0 {
        return;
    }
    let mut last_reply = LastReply::new();
    if let Some(slot) = slots.list.get(place) {
        last_reply.keep(slot.client.last_reply());
    }
    let fewer = Fewer {
        said: last_reply.parting(),
        count,
    };
    let _told = say(rt, "note: a further control connection is over", &fewer, "");
}

/// What the server said last over a control connection, and how many others are left.
#[derive(Clone, Copy)]
struct Fewer<'a> {
    said: Said<'a>,
    count: usize,
}

impl<'a> Display for Fewer<'a> {
    fn fmt<W: fmt::Write>(&self, formatter: &mut Formatter<W>) -> fmt::Result {
        write!(formatter, "{}; going on over {}", self.said, self.count)
    }
}

/// Says QUIT over each connection, and waits a second at most for the ends of all.
pub(crate) fn leave_all<L: TakesTurns + Drop>(alloc: Global, slots: &mut PoolSlots<L>) {
    let mut leaving = Vec::new(alloc);
    for slot in slots.list.iter_mut() {
        let left = slot.client.leave();
        let _kept = leaving.push(left);
    }
    let until = monotonic_millis().saturating_add(LAST_MILLIS);
    for _ in 0..TURNS {
        leaving.retain_mut(|left| left.stays());
        let now = monotonic_millis();
        if leaving.is_empty() || until <= now {
            return;
        }
        await_leaving(leaving.as_slice(), until.saturating_sub(now));
    }
}
