// What whoever asks sees of a client between its connections: how an answer comes about, and what is kept of a download, are ghost members, so that what
// stands on these calls is proved without the clauses of a client.
ghost use Rattle.std.specs.Global.{Global};
ghost use Rattle.std.specs.Prelude.{ℕ, Bool, false, List, ⊤};
ghost use Rattle.ftp_operation.specs.declared.answer.Answer.{Answer};
ghost use Rattle.tool_session.specs.declared.request.Request.{Request};
ghost use Rattle.tool_session.specs.Talking.{SessionExchange, HasExchanged, Played};

use crate::last_reply::LastReply;
use crate::request::Request;
use crate::request_state::DataEnding;
use crate::stream_body::FromStreamBody;
use ftp_operation::Answer;
use std::alloc::Global;
use std::cell::Cell;

/// By which something is known again that was asked ahead with something of its own over its data connection: its answer is given to nobody else. It counts
/// for the control connections alone over which it was asked.
#[derive(Clone, Copy)]
pub struct Ticket {
    /// From 1, in the order in which they were given out.
    pub number: u64,
}

/// What can be asked over one control connection, one request after another.
pub trait ClientSession {
    /// How an answer comes about, where that is known.
    ghost answers: { Request → Answer Global → (old new : Self) → Type 0 } = { λ request answer old new. ⊤ };

    /// How one comes about where something else goes over the data connection, where that is known.
    ghost carried: { Request → Answer Global → (old new : Self) → Type 0 } = { λ request answer old new. ⊤ };

    /// What is kept of a download whose control connection ended, where that is known.
    ghost keeps: { (came : List ℕ) → Self → Type 0 } = { λ came session. ⊤ };

    /// Does what is requested, and gives its answer.
    fn answer(&mut self, request: Request) -> Answer<Global>
        // Witness: edits of `tool_connect`: `another_answer_than_the_report_is_given`, `a_request_is_not_begun`; a session that is made up, as of
        // `rows_tool`, says nothing.
        ensures { answers request result self.old self.new };

    /// The same, where something else goes over the data connection than the client gives and hears. It is taken out of the cell, and is back there behind
    /// the answer.
    fn answer_carried<T: FromStreamBody>(
        &mut self,
        request: Request,
        home: &Cell<Option<T>>,
    ) -> Answer<Global>
        // Witness: an edit of `tool_connect`: `another_answer_than_the_report_of_a_stream_is_given`; a session that is made up says nothing.
        ensures { carried request result self.old self.new };

    /// The answer to this, where it was asked ahead by this ticket with something else over its data connection, which is in the cell then; none where it is
    /// still to be asked.
    fn answer_ahead<T: FromStreamBody>(
        &mut self,
        _ticket: Ticket,
        _request: &Request,
        _home: &Cell<Option<T>>,
    ) -> Option<Answer<Global>> {
        None
    }

    /// What came of the download that was asked for last, where its control connection ended in its middle; else nothing.
    fn came(&self) -> &[u8]
        // Witness: an edit of `tool_connect`: `nothing_is_kept_of_a_lost_download`; a session that is made up says nothing.
        ensures { keeps result.now self.now };

    /// How many data connections were opened so far.
    fn opened(&self) -> u32;

    /// How the last data connection ended, beside what was answered.
    fn ending(&self) -> DataEnding;

    /// How many requests may be asked ahead of their turn at once.
    fn ahead(&self) -> usize {
        0
    }

    /// Whether one of the same path would be asked ahead now, whatever its octets are.
    fn takes(&self, _request: &Request) -> bool {
        false
    }

    /// Tells that this will be requested. It may be asked at once, over a control connection of which nothing else is asked; its answer is given in its turn,
    /// where that is as good as one that is asked for then.
    fn foresee(&mut self, _request: Request) {}

    /// The same of several, which will be requested one directly behind another: they are asked in this order over one control connection. What is requested
    /// otherwise lets the rest of them be forgotten, so the answer to each is of a moment between those of its neighbours.
    fn foresee_row(&mut self, _requests: Vec<Request, Global>) {}

    /// The same, where something else goes over the data connection of the first transfer than the client gives and hears. Gives by which ticket that transfer
    /// is answered; none where nothing was asked.
    fn foresee_carried<T: FromStreamBody>(
        &mut self,
        _requests: Vec<Request, Global>,
        _carried: T,
    ) -> Option<Ticket> {
        None
    }

    /// What is told of the server beside its answers, since this was asked for before; nothing where that is known only once the control connection ends.
    fn take_noticed(&mut self) -> LastReply {
        LastReply::new()
    }
}

/// What is done over one control connection.
pub trait SessionTask<T> {
    /// Whether it tells its exchanges: `plays` counts only then.
    ghost tells: { Bool } = { false };

    /// What came of it, by what was asked and answered.
    ghost plays: { List SessionExchange → T → (old new : Self) → Type 0 } = { λ heard result old new. ⊤ };

    /// Asks, and gives what came of it.
    fn play<S: ClientSession>(&mut self, slot: &mut S) -> T
        // Witness: edits of `tool_get_put`, as `an_order_more_is_asked`; a task that does not tell its exchanges says nothing.
        ensures { Played tells (λ heard. HasExchanged S.answers slot.old heard slot.new) plays self.old self.new result };
}
