// A pool of control connections to one server: requests are answered in order, and what comes next is prefetched.
ghost use Rattle.std.specs.Prelude.{◌≡◌, ◌<◌, ◌+◌, take};

use crate::connection::TakesTurns;
use crate::pool::ahead::{changes_none, wants_login_of};
use crate::pool::batch::RequestBatch;
use crate::pool::ends::{WaitLimits, leave_all, note_reply, tell_fewer};
use crate::pool::slot::{Activity, PoolSlot, ReceivedAnswer};
use crate::pool::slots::PoolSlots;
use ftp_operation::Answer;
use ftp_ports::TURNS;
use std::alloc::Global;
use std::cell::Cell;
use std::io::Eprint;
use std::mem;
use tool_session::{
    ClientSession, DataEnding, FromStreamBody, LastReply, Request, StreamBody, Ticket,
};

/// The control connections, and what was asked over them last.
pub struct ConnectionPool<'n, 'r, R, L> {
    rt: &'r R,
    alloc: Global,
    slots: PoolSlots<L>,
    last_reply: &'n mut LastReply,
    /// How many data connections were opened for what was answered.
    opened: u32,
    /// How many of them were told.
    told: u32,
    /// How the data connection ended of what was answered last.
    ending: DataEnding,
    /// At which place that was asked, if it was in its turn.
    asked_at: Option<usize>,
    /// At which place it was prefetched, if more of its batch is still to be given.
    given_from: Option<usize>,
    /// How many tickets were given out.
    tickets: u64,
    limits: WaitLimits,
}

/// By hand: a derived drop is proved again, part by part, wherever they are let go.
impl<'n, 'r, R, L: Drop> Drop for ConnectionPool<'n, 'r, R, L> {
    fn drop(self) {
        let Self {
            rt: _,
            alloc: _,
            slots: _,
            last_reply: _,
            opened: _,
            told: _,
            ending: _,
            asked_at: _,
            given_from: _,
            tickets: _,
            limits: _,
        } = self;
    }
}

impl<'n, 'r, R: Eprint, L: TakesTurns + Drop> ConnectionPool<'n, 'r, R, L> {
    /// A pool of which nothing was asked yet, over the first eight of these connections. `limits` are for how many seconds the server may be silent, 0:
    /// without a limit, and until which moment of the monotonic clock all is to be done, in milliseconds, where one is said. `last_reply` begins anew,
    /// and is lent until the pool ends.
    pub fn new(
        rt: &'r R,
        alloc: Global,
        slots: Vec<PoolSlot<L>, Global>,
        last_reply: &'n mut LastReply,
        limits: (u32, Option<u64>),
    ) -> ConnectionPool<'n, 'r, R, L>
        // Witness of unopened: `edits/a_pool_begins_with_a_data_connection`.
        ensures unopened { result.opened ≡ 0 }
        // Witness of most: `edits/a_pool_has_any_number_of_connections`.
        ensures most { result.slots.list.items ≡ take 8 slots.items }
    {
        let (timeout, until) = limits;
        last_reply.begin();
        ConnectionPool {
            rt,
            alloc,
            slots: PoolSlots::new(slots),
            last_reply,
            opened: 0,
            told: 0,
            ending: DataEnding::Answered,
            asked_at: None,
            given_from: None,
            tickets: 0,
            limits: WaitLimits { timeout, until },
        }
    }

    /// Where this is prefetched, by this ticket or by none: in the batch of what was given last, of which else nothing more is given, or in another one.
    fn place_of(&mut self, request: &Request, ticket: Option<Ticket>) -> Option<usize> {
        if let Some(place) = self.given_from.take() {
            if let Some(slot) = self.slots.list.get_mut(place) {
                if slot.has_ahead(request, ticket) {
                    return Some(place);
                }
                slot.forget();
            }
        }
        self.slots.ahead_place(request, ticket)
    }

    /// Rounds until the connection at a place has nothing under way.
    fn await_idle(&mut self, place: usize) {
        for _ in 0..TURNS {
            if !self.slots.is_busy(place) {
                return;
            }
            self.round();
        }
    }

    /// Rounds until what is given next of the connection at a place is answered.
    fn await_ahead(&mut self, place: usize) {
        for _ in 0..TURNS {
            if !self.slots.is_awaited(place) {
                return;
            }
            self.round();
        }
    }

    /// A connection over which something may be asked in its turn, which is waited for while others are busy. Where none is left whose login is known to be
    /// accepted, the logins of the others are tried. None where each ended or was refused its login.
    fn await_free(&mut self) -> Option<usize> {
        for _ in 0..TURNS {
            if let Some(place) = self.slots.free_place() {
                return Some(place);
            }
            if !self.slots.has_reliable() {
                self.slots.try_logins();
            }
            if !self.slots.is_any_busy() {
                return None;
            }
            self.round();
        }
        None
    }

    /// What this was answered ahead of its turn, once it is; none where it was not prefetched, by this ticket or by none, or its answer is not given.
    fn prefetched_answer(
        &mut self,
        request: &Request,
        ticket: Option<Ticket>,
    ) -> Option<ReceivedAnswer> {
        let place = self.place_of(request, ticket)?;
        self.await_ahead(place);
        let slot = self.slots.list.get_mut(place)?;
        let mut prefetched = slot.take_answered()?;
        if slot.has_more() {
            self.given_from = Some(place);
        }
        self.opened = self.opened.saturating_add(prefetched.opened);
        self.ending = prefetched.ending;
        self.asked_at = None;
        if matches!(&prefetched.answer, Answer::Lost) {
            self.note_reply(place);
        }
        Some(ReceivedAnswer {
            answer: mem::replace(&mut prefetched.answer, Answer::Done),
            stream_body: mem::replace(&mut prefetched.stream_body, StreamBody::Own),
        })
    }

    /// Asks in its turn, over a connection that is free. Lost where no control connection is left or that one ends; what was to go over the data connection
    /// is handed back. Facts of files that were prefetched are forgotten first, unless the request leaves all files as they are.
    fn ask(&mut self, request: Request, stream_body: StreamBody) -> ReceivedAnswer {
        if !changes_none(&request) {
            self.slots.forget_facts();
        }
        let Some(place) = self.await_free() else {
            return ReceivedAnswer {
                answer: Answer::Lost,
                stream_body,
            };
        };
        if let Some(slot) = self.slots.list.get_mut(place) {
            slot.begin(Activity::Asked, request, stream_body);
        }
        self.await_idle(place);
        match self.answered(place) {
            Some(received) => received,
            None => ReceivedAnswer {
                answer: Answer::Lost,
                stream_body: StreamBody::Own,
            },
        }
    }

    /// The answer of the connection at a place to what was asked in its turn, and what was said with it.
    fn answered(&mut self, place: usize) -> Option<ReceivedAnswer> {
        let slot = self.slots.list.get_mut(place)?;
        self.opened = self.opened.saturating_add(slot.opened_since());
        self.ending = slot.client.ending();
        self.asked_at = Some(place);
        let answer = slot.answer.take();
        self.note_reply(place);
        answer
    }

    /// Notes what was said last over the connection at a place, and what this end waited for no longer, where that ended it.
    fn note_reply(&mut self, place: usize) {
        if let Some(slot) = self.slots.list.get(place) {
            note_reply(&slot.client, self.limits, self.last_reply);
        }
    }

    /// Prefetches these, one directly behind another, over an idle connection, with what goes over the data connection of the first transfer, which is given
    /// by its ticket. Says whether they are asked: not where one of their paths is prefetched, no connection is idle, or there is no batch of them.
    fn begin_batch(
        &mut self,
        requests: Vec<Request, Global>,
        stream_body: StreamBody,
        ticket: Option<Ticket>,
    ) -> bool {
        if requests.iter().any(|request| self.slots.is_ahead(request)) {
            return false;
        }
        let Some(first) = requests.first() else {
            return false;
        };
        if wants_login_of(first) {
            self.slots.try_logins();
        }
        let Some(place) = self.slots.idle_place(first) else {
            return false;
        };
        let Some(batch) = RequestBatch::of(self.alloc, requests, stream_body, ticket) else {
            return false;
        };
        match self.slots.list.get_mut(place) {
            Some(slot) => {
                slot.begin_batch(batch);
                true
            }
            None => false,
        }
    }

    /// A ticket that was not given out before.
    fn next_ticket(&mut self) -> Ticket
        ensures number { result.number ≡ self.new.tickets }
        ensures further { self.old.tickets < 18446744073709551615 → self.new.tickets ≡ self.old.tickets + 1 }
    {
        self.tickets = self.tickets.saturating_add(1);
        Ticket {
            number: self.tickets,
        }
    }

    /// A round of turns. Where one is over since, that is told.
    fn round(&mut self) {
        if let Some(place) = self.slots.round() {
            tell_fewer(self.rt, &self.slots, place);
        }
    }

    /// Says QUIT over each connection, and waits a second at most for the ends of all.
    pub fn leave(&mut self) {
        self.last_reply.add_opened(self.opened);
        leave_all(self.alloc, &mut self.slots);
    }
}

impl<'n, 'r, R: Eprint, L: TakesTurns + Drop> ClientSession for ConnectionPool<'n, 'r, R, L> {
    fn answer(&mut self, request: Request) -> Answer<Global> {
        match self.prefetched_answer(&request, None) {
            Some(received) => received.into_answer(),
            None => self.ask(request, StreamBody::Own).into_answer(),
        }
    }

    fn answer_carried<T: FromStreamBody>(
        &mut self,
        request: Request,
        home: &Cell<Option<T>>,
    ) -> Answer<Global> {
        let stream_body = match home.replace(None) {
            Some(carried) => match carried.load(self.alloc) {
                Ok(stream_body) => stream_body,
                Err(carried) => {
                    home.set(Some(carried));
                    return Answer::Memory;
                }
            },
            None => StreamBody::Own,
        };
        let received = self.ask(request, stream_body);
        handed_back(received, home).unwrap_or(Answer::Lost)
    }

    fn answer_ahead<T: FromStreamBody>(
        &mut self,
        ticket: Ticket,
        request: &Request,
        home: &Cell<Option<T>>,
    ) -> Option<Answer<Global>> {
        handed_back(self.prefetched_answer(request, Some(ticket))?, home)
    }

    fn came(&self) -> &[u8] {
        match self.asked_at {
            Some(place) => match self.slots.list.get(place) {
                Some(slot) => slot.client.came(),
                None => &[],
            },
            None => &[],
        }
    }

    fn opened(&self) -> u32 {
        self.opened
    }

    fn ending(&self) -> DataEnding {
        self.ending
    }

    fn ahead(&self) -> usize {
        self.slots.list.len()
    }

    fn takes(&self, request: &Request) -> bool {
        !self.slots.is_ahead(request) && self.slots.idle_place(request).is_some()
    }

    fn foresee(&mut self, request: Request) {
        let mut requests = Vec::new(self.alloc);
        if requests.push(request).is_ok() {
            self.foresee_row(requests);
        }
    }

    fn foresee_row(&mut self, requests: Vec<Request, Global>) {
        let _begun = self.begin_batch(requests, StreamBody::Own, None);
    }

    fn foresee_carried<T: FromStreamBody>(
        &mut self,
        requests: Vec<Request, Global>,
        carried: T,
    ) -> Option<Ticket> {
        let Ok(stream_body) = carried.load(self.alloc) else {
            return None;
        };
        let ticket = self.next_ticket();
        if self.begin_batch(requests, stream_body, Some(ticket)) {
            Some(ticket)
        } else {
            None
        }
    }

    fn take_noticed(&mut self) -> LastReply {
        let opened = self.opened.saturating_sub(self.told);
        self.told = self.opened;
        let last_reply = self.last_reply.with_opened(opened);
        self.last_reply.begin();
        last_reply
    }
}

/// An answer, once what went over its data connection is in the cell; none where that is another thing than is wanted there.
fn handed_back<T: FromStreamBody>(
    received: ReceivedAnswer,
    home: &Cell<Option<T>>,
) -> Option<Answer<Global>> {
    let mut received = received;
    if !received.stream_body.is_own() {
        let carried = T::unload(mem::replace(&mut received.stream_body, StreamBody::Own));
        if carried.is_none() {
            return None;
        }
        home.set(carried);
    }
    Some(received.into_answer())
}
