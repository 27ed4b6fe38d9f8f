// Several control connections from their opening to their last replies, with a client at each.
ghost use Rattle.std.specs.Prelude.{◌≡◌, ◌⊎◌, IfErr, ⊤};
ghost use Rattle.tool_session.specs.declared.fault.Phase.TheVariants.{Asking};
ghost use Rattle.tool_session.specs.Talking.{Conversed};
ghost use Rattle.tool_connect.specs.Several.{connections_of, part_of};

use crate::server::{connected, connected_to, hosts_of, left_until, seconds_left};
use ftp_client::NewClient;
use ftp_client_driver::Control;
use ftp_client_model::Near;
use ftp_endpoint::Host;
use ftp_facts::Text;
use ftp_operation::Login;
use std::alloc::Global;
use std::cell::Cell;
use std::io;
use std::io::{Eprint, Error, ErrorKind};
use std::net::{Net, TcpListener, TcpStream};
use std::rc::Rc;
use tool_parallel::{
    ConnectionPool, MOST_CONNECTIONS, PoolSlot, PooledClient, PooledPorts, Reliability, TakesTurns,
};
use tool_polling::{ControlLine, LinePorts, LineReader, LineWriter, PassivePorts, TimeLimits};
use tool_session::{
    LastReply, Phase, RequestState, ServerAddress, SessionFault, SessionTask, at, say,
};
use tool_sockets::Sockets;

/// What the connections of a pool have in common.
#[derive(Drop)]
struct PoolSettings<'a, R> {
    rt: &'a R,
    alloc: Global,
    login: &'a Login<Global>,
    passive: &'a PassivePorts,
    server: ServerAddress<'a>,
}

/// A control connection that is open, until a client is at it.
struct PooledLine<'a, R: Sockets> {
    /// Those of this end and of the other.
    hosts: (Host, Host),
    line: Rc<ControlLine, Global>,
    control: Control<LineReader, LineWriter>,
    ports: PooledPorts<'a, R>,
    request_state: &'a RequestState,
}

/// By hand: a derived drop is proved again, part by part, wherever one is let go.
impl<'a, R: Sockets> Drop for PooledLine<'a, R> {
    fn drop(self) {
        let Self {
            hosts: _,
            line: _,
            control: _,
            ports: _,
            request_state: _,
        } = self;
    }
}

impl<'a, R: Sockets> PooledLine<'a, R> {
    /// A client at it.
    fn client_at<N: Near<Global>>(self, client: N) -> PooledClient<'a, R, N> {
        let PooledLine {
            hosts: _,
            line,
            control,
            ports,
            request_state,
        } = self;
        PooledClient::new(client, line, control, ports, request_state)
    }
}

/// Opens control connections, plays over them by a client at each, says QUIT and closes them. Of those behind the first as many are used as the server
/// gives. Faults as of `Converses::converse`.
pub(crate) fn play_over_several<N, R, T, P>(
    rt: &R,
    server: ServerAddress<'_>,
    login: &Login<Global>,
    last_reply: &mut LastReply,
    play: &mut P,
) -> Result<T, SessionFault>
where
    N: NewClient<Global>,
    R: Net<Listener = TcpListener, Stream = TcpStream> + Eprint + AllocGlobal,
    T: Drop,
    P: SessionTask<Result<T, SessionFault>>,
    ensures { Conversed P.tells (λ heard. ⊤) P.plays play.old play.new result }
{
    let streams = made(Phase::Connection, streams_of(rt, rt.alloc(), server))?;
    let request_states = made(Phase::Talking, request_states_of(rt.alloc()))?;
    let passive = PassivePorts::new(rt.alloc(), 0, 0);
    let settings = PoolSettings {
        rt,
        alloc: rt.alloc(),
        login,
        passive: &passive,
        server,
    };
    let lines = lines_of(&settings, streams, request_states.as_slice());
    let lines = made(Phase::Talking, lines)?;
    let done = play_by_several::<N, R, T, P>(&settings, lines, last_reply, play);
    note_moved(request_states.as_slice(), last_reply);
    done
}

/// What was made in this phase; refused memory is a fault of asking, which no further control connection mends.
fn made<T: Drop>(phase: Phase, done: io::Result<T>) -> Result<T, SessionFault>
    ensures { IfErr result (λ fault. (fault.stage ≡ phase) ⊎ (fault.stage ≡ Asking)) }
{
    match done {
        Err(error) if error.kind() == ErrorKind::OutOfMemory => at(Phase::Asking, Err(error)),
        _ => at(phase, done),
    }
}

/// Notes whether octets moved over a data connection beside any control connection.
fn note_moved(request_states: &[RequestState], last_reply: &mut LastReply) {
    if request_states.iter().any(|one| one.has_moved()) {
        last_reply.octets_moved();
    }
}

/// One control connection, and further ones as far as the server takes them; that it takes no more is told.
fn streams_of<R>(
    rt: &R,
    alloc: Global,
    server: ServerAddress<'_>,
) -> io::Result<Vec<TcpStream, Global>>
where
    R: Net<Listener = TcpListener, Stream = TcpStream> + Eprint,
{
    let first = connected(rt, server)?;
    let address = first.peer_addr()?;
    let mut streams = Vec::new(alloc);
    streams.push(first)?;
    for _ in 1..connections_of(server.at_once) {
        match connected_to(rt, address, server) {
            Ok(stream) => streams.push(stream)?,
            Err(error) => {
                let _told = say(rt, "note: no further control connection: ", &error, "");
                break;
            }
        }
    }
    Ok(streams)
}

/// How many control connections are wanted: 8 at most.
fn connections_of(at_once: u32) -> u32
    ensures { result ≡ connections_of at_once }
{
    at_once.min(MOST_CONNECTIONS as u32)
}

/// What is asked over each control connection: nothing yet.
fn request_states_of(alloc: Global) -> io::Result<Vec<RequestState, Global>> {
    let mut request_states = Vec::new(alloc);
    for _ in 0..MOST_CONNECTIONS {
        request_states.push(RequestState::around(Cell::new(None)))?;
    }
    Ok(request_states)
}

/// These control connections, each with what a client at it needs.
fn lines_of<'a, R: Sockets>(
    settings: &PoolSettings<'a, R>,
    streams: Vec<TcpStream, Global>,
    request_states: &'a [RequestState],
) -> io::Result<Vec<PooledLine<'a, R>, Global>> {
    let mut lines = Vec::new(settings.alloc);
    for (stream, request_state) in streams.into_iter().zip(request_states.iter()) {
        lines.push(line_of(settings, stream, request_state)?)?;
    }
    Ok(lines)
}

/// A control connection with what a client at it needs.
fn line_of<'a, R: Sockets>(
    settings: &PoolSettings<'a, R>,
    stream: TcpStream,
    request_state: &'a RequestState,
) -> io::Result<PooledLine<'a, R>> {
    let hosts = hosts_of(&stream)?;
    let line = Rc::new(
        settings.alloc,
        ControlLine::new(stream, limits_of(settings.server))?,
    )?;
    let ports = LinePorts::new(settings.rt, line.clone()?, settings.passive)?;
    let control = Control::new(
        LineReader::new(line.clone()?),
        LineWriter::new(line.clone()?),
    );
    let rate = part_of(
        settings.server.rate,
        connections_of(settings.server.at_once),
    );
    Ok(PooledLine {
        hosts,
        line,
        control,
        ports: PooledPorts::new(ports, request_state, rate),
        request_state,
    })
}

/// Plays by a client at each of these control connections.
fn play_by_several<'a, N, R, T, P>(
    settings: &PoolSettings<'a, R>,
    lines: Vec<PooledLine<'a, R>, Global>,
    last_reply: &mut LastReply,
    play: &mut P,
) -> Result<T, SessionFault>
where
    N: NewClient<Global>,
    R: Sockets + Eprint,
    T: Drop,
    P: SessionTask<Result<T, SessionFault>>,
    ensures { Conversed P.tells (λ heard. ⊤) P.plays play.old play.new result }
{
    match made(
        Phase::Talking,
        clients_of::<N, R>(settings, lines.as_slice()),
    ) {
        Ok(clients) => play_between(settings, lines, clients, last_reply, play),
        Err(fault) => Err(fault),
    }
}

/// A client for each control connection.
fn clients_of<N, R>(
    settings: &PoolSettings<'_, R>,
    lines: &[PooledLine<'_, R>],
) -> io::Result<Vec<N, Global>>
where
    N: NewClient<Global>,
    R: Sockets,
{
    let mut clients = Vec::new(settings.alloc);
    for line in lines {
        clients.push(client_of(settings.alloc, settings.login, line.hosts)?)?;
    }
    Ok(clients)
}

/// A client between two hosts, with a copy of the login. Fails where memory is refused.
fn client_of<N: NewClient<Global>>(
    alloc: Global,
    login: &Login<Global>,
    (here, peer): (Host, Host),
) -> io::Result<N> {
    let login = login_copy(alloc, login)?;
    match N::create(alloc, &mut Some(login), here, peer) {
        Some(client) => Ok(client),
        None => Err(Error::from(ErrorKind::OutOfMemory)),
    }
}

/// Plays by these clients, each at its control connection.
fn play_between<'a, N, R, T, P>(
    settings: &PoolSettings<'a, R>,
    lines: Vec<PooledLine<'a, R>, Global>,
    clients: Vec<N, Global>,
    last_reply: &mut LastReply,
    play: &mut P,
) -> Result<T, SessionFault>
where
    N: Near<Global>,
    R: Sockets + Eprint,
    T: Drop,
    P: SessionTask<Result<T, SessionFault>>,
    ensures { Conversed P.tells (λ heard. ⊤) P.plays play.old play.new result }
{
    match slots_of(settings.alloc, lines, clients) {
        Ok(slots) => play_in_pool(settings, slots, last_reply, play),
        Err(fault) => Err(fault),
    }
}

/// These clients, each at its control connection, of which the first is relied on. Fails where memory is refused.
fn slots_of<'a, N, R>(
    alloc: Global,
    lines: Vec<PooledLine<'a, R>, Global>,
    clients: Vec<N, Global>,
) -> Result<Vec<PoolSlot<PooledClient<'a, R, N>>, Global>, SessionFault>
where
    N: Near<Global>,
    R: Sockets,
{
    let mut slots = Vec::new(alloc);
    let mut reliability = Reliability::Tried;
    for (line, client) in lines.into_iter().zip(clients.into_iter()) {
        let slot = PoolSlot::new(line.client_at(client), reliability);
        if slots.push(slot).is_err() {
            return Err(SessionFault::of_memory());
        }
        reliability = Reliability::Untried;
    }
    Ok(slots)
}

/// Plays over a pool of these, says QUIT over each, and waits a moment for their ends.
fn play_in_pool<L, R, T, P>(
    settings: &PoolSettings<'_, R>,
    slots: Vec<PoolSlot<L>, Global>,
    last_reply: &mut LastReply,
    play: &mut P,
) -> Result<T, SessionFault>
where
    L: TakesTurns + Drop,
    R: Sockets + Eprint,
    T: Drop,
    P: SessionTask<Result<T, SessionFault>>,
    ensures { Conversed P.tells (λ heard. ⊤) P.plays play.old play.new result }
{
    let limits = (settings.server.timeout, settings.server.until);
    let mut pool = ConnectionPool::new(settings.rt, settings.alloc, slots, last_reply, limits);
    let done = play.play(&mut pool);
    pool.leave();
    done
}

/// How long the server is waited for: nobody is told to log in here, so that what is left of the time for all is a limit that nothing puts off.
fn limits_of(server: ServerAddress<'_>) -> TimeLimits {
    TimeLimits {
        login: seconds_left(0, left_until(server.until)),
        idle: server.timeout,
        idle_while_waited: 0,
        session_while_waited: 0,
        login_while_waited: 0,
    }
}

/// The part that each of so many connections has of the octets that may go in a second; 0: without a limit.
fn part_of(rate: u64, connections: u32) -> u64
    ensures { result ≡ part_of rate connections }
{
    if rate == 0 {
        0
    } else {
        (rate / u64::from(connections.max(1))).max(1)
    }
}

/// The same login once more. Fails where memory is refused.
fn login_copy(alloc: Global, login: &Login<Global>) -> io::Result<Login<Global>> {
    let user = Text::copy_of(alloc, login.user())?;
    let pass = Text::copy_of(alloc, login.pass())?;
    match Login::new(user, pass) {
        Some(login) => Ok(login),
        None => Err(Error::from(ErrorKind::OutOfMemory)),
    }
}
