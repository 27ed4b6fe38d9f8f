// One of several control connections in one thread: a client between its connections, which takes turns and waits for nothing.
ghost use Rattle.std.specs.Prelude.{◌≡◌, Bool};
ghost use Rattle.tool_parallel.specs.connection.State.{is_connection_ended};

use crate::connection::pooled_ports::{PooledLink, PooledPorts};
use ftp_client_driver::{Control, Data, Driven, Turned, drive_some};
use ftp_client_model::Near;
use ftp_client_stream::{CarriedLink, CarriedPorts};
use ftp_operation::Answer;
use std::alloc::Global;
use std::rc::Rc;
use tool_polling::{Awaits, ControlLine, Leaving, LineReader, LineWriter};
use tool_session::{DataEnding, Request, RequestState, StreamBody, begin};
use tool_sockets::Sockets;

/// The most steps of the client's driver in one turn: as many octets of a line may be heard.
const MOST_STEPS: u64 = 1_024;

/// What a pooled client does.
#[derive(Clone, Copy)]
pub(crate) enum ClientState {
    /// Nothing is asked.
    Idle,
    /// Something is, and its next turn would wait.
    Waits,
    /// Something is, and its next turn is due.
    Due,
    /// Its control connection ended.
    Ended,
}

/// A client at a control connection that answers one request after another, in turns between those of others. No call waits.
pub trait TakesTurns {
    /// Whether its control connection ended.
    ghost ended: { Self → Bool };

    /// Whether its control connection ended: nothing more is asked over it.
    fn has_ended(&self) -> bool
        ensures { result ≡ ended self.now };

    /// Whether the next turn would not wait.
    fn is_due(&self) -> bool;

    /// What the next turn waits for: sockets, and a moment of the monotonic clock in milliseconds. Nothing where it is due, or nothing is asked.
    fn awaits(&self) -> Awaits;

    /// Begins what is requested, with what goes over its data connection. Nothing else is under way.
    fn begin(&mut self, request: Request, stream_body: StreamBody);

    /// A turn; gives the answer where that is there, and Lost where the control connection ended before. `found` is what the round's poll found of what the
    /// last turn waited for.
    fn turn(&mut self, found: Awaits) -> Option<Answer<Global>>;

    /// What went over the data connection of what was answered last; it is given once.
    fn unload(&mut self) -> StreamBody;

    /// How many data connections were opened so far.
    fn opened(&self) -> u32;

    /// How the last data connection ended, beside what was answered.
    fn ending(&self) -> DataEnding;

    /// What came of the download that was asked for last, where its control connection ended in its middle; else nothing.
    fn came(&self) -> &[u8];

    /// The line that the server said last, without its end.
    fn last_reply(&self) -> &[u8];

    /// Whether this end waits no longer: the server was silent for as long as it may be, or the time for all is over.
    fn waits_no_longer(&self) -> bool;

    /// Says QUIT (RFC 959, section 4.1.1), and gives what stays of its connections until the server ends them.
    fn leave(&mut self) -> Leaving;
}

/// A client, beside its connections.
pub struct PooledClient<'a, R: Sockets, N: Near<Global>> {
    client: N,
    line: Rc<ControlLine, Global>,
    control: Control<LineReader, LineWriter>,
    ports: PooledPorts<'a, R>,
    /// Room for its data connections.
    data: Data<CarriedLink<'a, PooledLink<'a>, StreamBody>>,
    request_state: &'a RequestState,
    state: ClientState,
}

/// Its data connection is closed, if one stands.
impl<'a, R: Sockets, N: Near<Global>> Drop for PooledClient<'a, R, N> {
    fn drop(self) {
        let Self {
            client: _,
            line: _,
            control: _,
            ports,
            data,
            request_state,
            state: _,
        } = self;
        let mut ports = ports;
        data.finish(&mut CarriedPorts::new(&mut ports, &request_state.stream_body));
    }
}

impl<'a, R: Sockets, N: Near<Global>> PooledClient<'a, R, N> {
    /// A client at its control connection, of which nothing is asked. `line`, and `control` over it, are that connection, and `ports` its data connections.
    /// `request_state` is lent, and holds what goes over them.
    pub fn new(
        client: N,
        line: Rc<ControlLine, Global>,
        control: Control<LineReader, LineWriter>,
        ports: PooledPorts<'a, R>,
        request_state: &'a RequestState,
    ) -> PooledClient<'a, R, N> {
        PooledClient {
            client,
            line,
            control,
            ports,
            data: Data::new(),
            request_state,
            state: ClientState::Idle,
        }
    }

    /// Some steps of its driver.
    fn drive(&mut self) -> Turned<Driven<Global>> {
        let mut ports = CarriedPorts::new(&mut self.ports, &self.request_state.stream_body);
        drive_some(
            &mut self.client,
            &mut self.control,
            &mut ports,
            &mut self.data,
            MOST_STEPS,
        )
    }

    /// The drive is over: its answer, and Lost where it has none.
    fn answered(&mut self, driven: Driven<Global>) -> Answer<Global> {
        let Driven { report, off: _ } = driven;
        self.request_state
            .reported(&report, self.client.last_reply());
        let answer = match report {
            Some(answer) => answer,
            None => Answer::Lost,
        };
        self.state = if matches!(&answer, Answer::Lost) {
            ClientState::Ended
        } else {
            ClientState::Idle
        };
        answer
    }
}

impl<'a, R: Sockets, N: Near<Global>> TakesTurns for PooledClient<'a, R, N> {
    ghost ended = { λ pooled. is_connection_ended pooled.state };

    fn has_ended(&self) -> bool {
        matches!(self.state, ClientState::Ended)
    }

    fn is_due(&self) -> bool {
        match self.state {
            ClientState::Due => true,
            ClientState::Waits => self.line.timeouts.left() == Some(0),
            ClientState::Idle | ClientState::Ended => false,
        }
    }

    fn awaits(&self) -> Awaits {
        match self.state {
            ClientState::Waits => self.ports.awaits(),
            ClientState::Due | ClientState::Idle | ClientState::Ended => Awaits::nothing(),
        }
    }

    fn begin(&mut self, request: Request, stream_body: StreamBody) {
        let mut request = request;
        self.line.timeouts.touch();
        self.request_state.begin(&request);
        self.request_state.stream_body.set(Some(stream_body));
        begin(&mut self.client, &mut request);
        self.state = ClientState::Due;
    }

    fn turn(&mut self, found: Awaits) -> Option<Answer<Global>> {
        self.line.begin_turn(found);
        match self.drive() {
            Turned::Later => {
                self.state = ClientState::Waits;
                None
            }
            Turned::More => {
                self.state = ClientState::Due;
                None
            }
            Turned::Over(driven) => Some(self.answered(driven)),
        }
    }

    fn unload(&mut self) -> StreamBody {
        self.request_state
            .stream_body
            .replace(None)
            .unwrap_or(StreamBody::Own)
    }

    fn opened(&self) -> u32 {
        self.ports.opened()
    }

    fn ending(&self) -> DataEnding {
        self.request_state.ending()
    }

    fn came(&self) -> &[u8] {
        self.client.came()
    }

    fn last_reply(&self) -> &[u8] {
        self.client.last_reply()
    }

    fn waits_no_longer(&self) -> bool {
        self.line.timeouts.over().is_some() || self.line.timeouts.left() == Some(0)
    }

    fn leave(&mut self) -> Leaving {
        self.line.say_last(b"QUIT\r\n");
        let line = self.line.clone().ok();
        Leaving::new(line, self.ports.take_leaving())
    }
}
