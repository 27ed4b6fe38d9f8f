// The timeouts of a session, as they go on: what was done when, and what that leaves of its limits.
use crate::session_timeouts::{
    SessionTimes, Term, TimeLimits, TimeoutReason, Transfers, fixed_term, moves, spare_of,
    term_of_session, untaken_limit, waited_after,
};
use std::cell::Cell;
use tool_sockets::{LastActivity, monotonic_millis};

/// The timeouts of one session. Who serves it says when something was done (`touch`), when somebody logged in, when another client waits, and when nothing
/// is waited for any more; time is that of the system's monotonic clock, in milliseconds.
#[derive(Drop)]
pub struct Timeouts {
    limits: TimeLimits,
    begun: u64,
    last: Cell<LastActivity>,
    logged_in: Cell<bool>,
    over: Cell<Option<TimeoutReason>>,
    /// Since when another client waits.
    waited: Cell<Option<u64>>,
    transfers: Cell<Transfers>,
    /// When the last octet of a data connection went.
    carried: Cell<Option<u64>>,
}

impl Timeouts {
    /// The timeouts of a session that begins now.
    pub fn new(limits: TimeLimits) -> Timeouts {
        let now = monotonic_millis();
        Timeouts {
            limits,
            begun: now,
            last: Cell::new(LastActivity::Done(now)),
            logged_in: Cell::new(false),
            over: Cell::new(None),
            waited: Cell::new(None),
            transfers: Cell::new(Transfers::Count),
            carried: Cell::new(None),
        }
    }

    /// From now on the time since another client began to wait is counted from the last octet of a data connection at the earliest: a session whose transfer
    /// moves is not ended because another waits.
    pub fn spare_transfers(&self) {
        self.transfers.set(Transfers::AreSpared);
    }

    /// Whether that is so.
    pub(crate) fn are_transfers_spared(&self) -> bool {
        matches!(self.transfers.get(), Transfers::AreSpared)
    }

    /// Octets of a data connection went, or of the file that an upload is put over.
    pub fn carry(&self) {
        let now = monotonic_millis();
        self.last.set(LastActivity::Done(now));
        self.carried.set(Some(now));
        self.waited
            .set(waited_after(self.waited.get(), now, self.transfers.get()));
    }

    /// Whether a transfer moves.
    pub fn moves(&self) -> bool {
        let now = monotonic_millis();
        moves(self.carried.get().map(|last| now.saturating_sub(last)))
    }

    /// For how many milliseconds nothing was said or sent.
    pub fn quiet(&self) -> u64 {
        monotonic_millis().saturating_sub(self.last.get().moment())
    }

    /// Something was done: this end said something, or octets of a data connection went.
    pub fn touch(&self) {
        self.last.set(LastActivity::Done(monotonic_millis()));
    }

    /// The peer said a line: a sign of life once behind what was done.
    pub(crate) fn hear(&self) {
        let last = self.last.get();
        self.last.set(last.behind_line(monotonic_millis()));
    }

    /// Somebody logged in.
    pub fn log_in(&self) {
        self.logged_in.set(true);
    }

    /// Another client waits from now on.
    pub fn others_wait(&self) {
        if self.waited.get().is_none() {
            self.waited.set(Some(monotonic_millis()));
        }
    }

    /// Whether another client waits, as far as that was told.
    pub fn is_waited(&self) -> bool {
        self.waited.get().is_some()
    }

    /// Nothing is waited for any more.
    pub fn end(&self, over: TimeoutReason) {
        self.over.set(Some(over));
    }

    /// Why nothing is waited for any more; none while something is.
    pub fn over(&self) -> Option<TimeoutReason> {
        self.over.get()
    }

    /// How many milliseconds are left of the limits now; none where there is none.
    pub fn left(&self) -> Option<u64> {
        self.term().map(|term| term.left)
    }

    /// Why its time is over now, if it is.
    pub(crate) fn spent(&self) -> Option<TimeoutReason> {
        match self.term() {
            Some(term) if term.left == 0 => Some(term.over),
            _ => None,
        }
    }

    /// Ends timeouts where a limit is passed that nothing puts off which the client says or sends: says whether it is over.
    pub fn is_spent(&self) -> bool {
        if self.over.get().is_some() {
            return true;
        }
        match fixed_term(self.limits, self.stand()) {
            Some(term) if term.left == 0 => {
                self.over.set(Some(term.over));
                true
            }
            _ => false,
        }
    }

    /// Why the session might be ended for another client that comes now, and for how many milliseconds it might have been: since nothing was said or
    /// sent for as long as may be while others wait, or nobody logged in.
    pub fn spare(&self) -> Option<(TimeoutReason, u64)> {
        spare_of(self.limits, self.stand())
    }

    /// What is left of the limits.
    fn term(&self) -> Option<Term> {
        match self.over.get() {
            Some(over) => Some(Term { left: 0, over }),
            None => term_of_session(self.limits, self.stand()),
        }
    }

    /// How the session stands now.
    fn stand(&self) -> SessionTimes {
        let now = monotonic_millis();
        SessionTimes {
            begun: now.saturating_sub(self.begun),
            quiet: now.saturating_sub(self.last.get().moment()),
            waited: self.waited.get().map(|since| now.saturating_sub(since)),
            logged_in: self.logged_in.get(),
        }
    }

    /// How long octets may wait for the peer to take them, in milliseconds: as long as nothing may be said or sent now; 0: without a limit.
    pub(crate) fn untaken_millis(&self) -> i32 {
        let seconds = untaken_limit(self.limits, self.waited.get());
        i32::try_from(u64::from(seconds).saturating_mul(1_000)).unwrap_or(i32::MAX)
    }
}
