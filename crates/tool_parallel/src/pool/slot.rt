// One of several control connections, and what is asked over it: in its turn, or ahead of it.
ghost use Rattle.std.specs.Prelude.{◌≡◌, None, is_none};
ghost use Rattle.tool_parallel.specs.pool.Slot.{has_no_login, is_idle, is_login_refused, is_reliable, is_relied_on, is_slot_busy, is_unusable};
ghost use Rattle.tool_parallel.specs.pool.Slot.{may_ask, may_prefetch, relied_after, tried_after};

use crate::connection::TakesTurns;
use crate::pool::ahead::PrefetchedAnswer;
use crate::pool::batch::RequestBatch;
use ftp_operation::{Answer, Op};
use ftp_reply::code::NOT_LOGGED_IN;
use std::alloc::Global;
use std::mem;
use tool_polling::Awaits;
use tool_session::{Request, StreamBody, Ticket};

/// What a connection does now.
#[derive(Clone, Copy)]
pub(crate) enum Activity {
    Nothing,
    /// What is asked in its turn.
    Asked,
    /// What is prefetched.
    Ahead,
    /// What nobody asked for: whether its login is accepted.
    Trial,
}

/// How far a connection is relied on.
#[derive(Clone, Copy)]
pub enum Reliability {
    /// Nothing was answered over it yet that is given: only what is prefetched goes over it.
    Untried,
    /// What is asked in its turn goes over it, too.
    Tried,
    /// Its login was refused: nothing goes over it.
    Refused,
}

/// An answer, and what went over its data connection.
pub(crate) struct ReceivedAnswer {
    pub(crate) answer: Answer<Global>,
    pub(crate) stream_body: StreamBody,
}

/// By hand: a derived drop is proved again, part by part, wherever one is let go.
impl Drop for ReceivedAnswer {
    fn drop(self) {
        let Self {
            answer: _,
            stream_body: _,
        } = self;
    }
}

impl ReceivedAnswer {
    /// The answer, of which nothing went over a data connection that is wanted.
    pub(crate) fn into_answer(self) -> Answer<Global>
        ensures { result ≡ self.answer }
    {
        let ReceivedAnswer {
            answer,
            stream_body: _,
        } = self;
        answer
    }
}

/// A control connection of a pool, and what it does.
pub struct PoolSlot<L> {
    pub(crate) client: L,
    reliability: Reliability,
    activity: Activity,
    /// What is prefetched over it, and not given yet.
    ahead: Option<RequestBatch>,
    /// What was answered to what was asked in its turn, until that is taken.
    pub(crate) answer: Option<ReceivedAnswer>,
    /// How many data connections were opened when it began what it does.
    opened: u32,
}

/// By hand: a derived drop is proved again, part by part, wherever one is let go.
impl<L: Drop> Drop for PoolSlot<L> {
    fn drop(self) {
        let Self {
            client: _,
            reliability: _,
            activity: _,
            ahead: _,
            answer: _,
            opened: _,
        } = self;
    }
}

impl<L: TakesTurns + Drop> PoolSlot<L> {
    /// A control connection that is open, and over which nothing is asked.
    pub fn new(client: L, reliability: Reliability) -> PoolSlot<L>
        // Witness: an equation; `edits/each_connection_is_tried`.
        ensures { result ≡ record { client = client; reliability = reliability; activity = Activity.Nothing; ahead = None; answer = None; opened = 0 } }
    {
        PoolSlot {
            client,
            reliability,
            activity: Activity::Nothing,
            ahead: None,
            answer: None,
            opened: 0,
        }
    }

    /// Whether something is under way.
    pub(crate) fn is_busy(&self) -> bool
        // Witness: an equation; `edits/only_what_is_asked_in_its_turn_is_under_way`.
        ensures { result ≡ is_slot_busy self.now.activity }
    {
        !matches!(self.activity, Activity::Nothing)
    }

    /// Whether nothing is asked over it any more: it ended, or its login was refused.
    pub(crate) fn is_unusable(&self) -> bool
        // Witness: an equation; `edits/a_connection_without_a_login_is_used`.
        ensures { result ≡ is_unusable (L.ended self.now.client) self.now.reliability }
    {
        self.client.has_ended() || has_no_login(self.reliability)
    }

    /// Whether something may be asked over it in its turn now.
    pub(crate) fn may_ask(&self) -> bool
        // Witness: an equation; `edits/an_untried_connection_takes_a_turn`.
        ensures { result ≡ may_ask self.now.activity (L.ended self.now.client) self.now.reliability }
    {
        !self.is_busy() && !self.client.has_ended() && is_relied_on(self.reliability)
    }

    /// Whether something may be asked over it in its turn, once it is idle.
    pub(crate) fn is_reliable(&self) -> bool
        // Witness: an equation; `edits/a_connection_that_ended_is_waited_for`.
        ensures { result ≡ is_reliable (L.ended self.now.client) self.now.reliability }
    {
        !self.client.has_ended() && is_relied_on(self.reliability)
    }

    /// Whether nothing is under way over it, and nothing that was prefetched is still to be given.
    fn is_idle(&self) -> bool
        // Witness: an equation; `edits/a_second_batch_is_prefetched_before_the_first_is_given`.
        ensures { result ≡ is_idle self.now.activity (L.ended self.now.client) self.now.reliability (is_none self.now.ahead) }
    {
        !self.is_busy() && !self.is_unusable() && self.ahead.is_none()
    }

    /// Whether something may be prefetched over it now, which is to be asked only where the login was accepted, or anywhere.
    pub(crate) fn may_prefetch(&self, wants_login: bool) -> bool
        // Witness: an equation; `edits/a_removal_goes_over_an_untried_connection`.
        ensures { result ≡ may_prefetch self.now.activity (L.ended self.now.client) self.now.reliability (is_none self.now.ahead) wants_login }
    {
        self.is_idle() && (!wants_login || is_relied_on(self.reliability))
    }

    /// Whether nothing is known of its login yet, and nothing is asked.
    pub(crate) fn is_untried(&self) -> bool {
        self.is_idle() && matches!(self.reliability, Reliability::Untried)
    }

    /// Whether this, by this ticket or by none, is given next of what is prefetched over it.
    pub(crate) fn has_ahead(&self, request: &Request, ticket: Option<Ticket>) -> bool {
        match &self.ahead {
            Some(batch) => batch.is_of(request, ticket),
            None => false,
        }
    }

    /// Whether something of the same path is prefetched over it.
    pub(crate) fn is_at(&self, request: &Request) -> bool {
        match &self.ahead {
            Some(batch) => batch.is_at(request),
            None => false,
        }
    }

    /// Whether what is given next is still under way.
    pub(crate) fn is_awaited(&self) -> bool {
        match &self.ahead {
            Some(batch) => self.is_busy() && batch.is_awaited(),
            None => false,
        }
    }

    /// What is prefetched is given no more.
    pub(crate) fn forget(&mut self) {
        self.ahead = None;
    }

    /// The same of facts of files, and of what comes behind the first of them.
    pub(crate) fn forget_facts(&mut self) {
        if let Some(batch) = &mut self.ahead {
            batch.forget_facts();
            if batch.is_empty() {
                self.ahead = None;
            }
        }
    }

    /// Prefetches these.
    pub(crate) fn begin_batch(&mut self, batch: RequestBatch) {
        self.ahead = Some(batch);
        self.begin_next();
    }

    /// Asks what is next of what is prefetched, where something is.
    fn begin_next(&mut self) {
        if self.is_unusable() {
            return;
        }
        let Some(batch) = &mut self.ahead else {
            return;
        };
        if let Some((request, stream_body)) = batch.next() {
            self.begin(Activity::Ahead, request, stream_body);
        }
    }

    /// Begins what is requested, with what goes over its data connection. Nothing else is under way.
    pub(crate) fn begin(&mut self, activity: Activity, request: Request, stream_body: StreamBody) {
        self.opened = self.client.opened();
        self.activity = activity;
        self.client.begin(request, stream_body);
    }

    /// Asks for the current directory, so that its login is known to be accepted or refused.
    pub(crate) fn try_login(&mut self) {
        self.begin(
            Activity::Trial,
            Request::One(Some(Op::Where)),
            StreamBody::Own,
        );
    }

    /// How many data connections were opened for what it did last.
    pub(crate) fn opened_since(&self) -> u32 {
        self.client.opened().saturating_sub(self.opened)
    }

    /// A turn, where something is under way. `found` is what the round's poll found. Says whether nothing is asked over it any more, behind what was
    /// prefetched or a trial.
    pub(crate) fn turn(&mut self, found: Awaits) -> bool {
        if !self.is_busy() {
            return false;
        }
        let Some(answer) = self.client.turn(found) else {
            return false;
        };
        match mem::replace(&mut self.activity, Activity::Nothing) {
            Activity::Ahead => {
                self.keep(answer);
                self.is_unusable()
            }
            Activity::Trial => {
                self.reliability = tried_after(&answer);
                self.is_unusable()
            }
            Activity::Asked | Activity::Nothing => {
                let stream_body = self.client.unload();
                self.answer = Some(ReceivedAnswer {
                    answer,
                    stream_body,
                });
                false
            }
        }
    }

    /// What was prefetched is answered so, and what comes behind it is asked.
    fn keep(&mut self, answer: Answer<Global>) {
        let answered = PrefetchedAnswer {
            answer,
            ending: self.client.ending(),
            opened: self.opened_since(),
            stream_body: self.client.unload(),
        };
        self.reliability = relied_after(self.reliability, &answered.answer);
        if let Some(batch) = &mut self.ahead {
            if batch.keep(answered) {
                self.reliability = Reliability::Tried;
            }
            if batch.is_empty() {
                self.ahead = None;
            }
        }
        self.begin_next();
    }

    /// What is given next of what was prefetched, if it is answered; else nothing of that is given any more.
    pub(crate) fn take_answered(&mut self) -> Option<PrefetchedAnswer> {
        let batch = self.ahead.as_mut()?;
        let answered = batch.take();
        if answered.is_none() || batch.is_empty() {
            self.ahead = None;
        }
        answered
    }

    /// Whether more of what was prefetched is to be given.
    pub(crate) fn has_more(&self) -> bool {
        self.ahead.is_some()
    }
}

/// Whether nothing goes over a connection since its login was refused.
fn has_no_login(reliability: Reliability) -> bool
    ensures { result ≡ has_no_login reliability }
{
    matches!(reliability, Reliability::Refused)
}

/// Whether what is asked in its turn may go over a connection.
fn is_relied_on(reliability: Reliability) -> bool
    ensures { result ≡ is_relied_on reliability }
{
    matches!(reliability, Reliability::Tried)
}

/// Whether a server refuses a login by this answer (RFC 959, section 4.2.2: 530).
fn is_login_refused(answer: &Answer<Global>) -> bool
    // Witness: an equation; `edits/any_refusal_is_one_of_the_login`.
    ensures { result ≡ is_login_refused answer.now }
{
    match answer {
        Answer::Refused(code) => *code == NOT_LOGGED_IN,
        _ => false,
    }
}

/// How far a connection is relied on whose trial was answered so.
fn tried_after(answer: &Answer<Global>) -> Reliability
    // Witness: an equation; `edits/a_trial_that_passed_counts_for_nothing`.
    ensures { result ≡ tried_after answer.now }
{
    if !is_login_refused(answer) {
        return Reliability::Tried;
    }
    Reliability::Refused
}

/// How far a connection is relied on over which something prefetched is answered so, before it is known whether that is given: where nothing was given over
/// it before, a refused login is its own.
fn relied_after(before: Reliability, answer: &Answer<Global>) -> Reliability
    // Witness: an equation; `edits/a_tried_connection_is_untried_again`.
    ensures { result ≡ relied_after before answer.now }
{
    match before {
        Reliability::Untried => {
            if is_login_refused(answer) {
                Reliability::Refused
            } else {
                Reliability::Untried
            }
        }
        Reliability::Tried => Reliability::Tried,
        Reliability::Refused => Reliability::Refused,
    }
}
