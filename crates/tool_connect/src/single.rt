// One control connection from its opening to its last reply, and the client at it.
ghost use Rattle.ftp_driver.specs.Standing.{HasNone};
ghost use Rattle.tool_session.specs.Talking.{Conversed};
ghost use Rattle.tool_connect.specs.Answering.{ComesOfClient};

use crate::health::{Health, Monitored};
use crate::listening_client::ListeningClient;
use crate::live::{LiveSession, Opens};
use crate::progress::MeteredPorts;
use crate::server::hosts_of;
use ftp_client::NewClient;
use ftp_client_driver::{Control, Data};
use ftp_client_model::Near;
use ftp_operation::Login;
use std::alloc::Global;
use std::io::{Eprint, Read, Write};
use std::net::{Net, TcpListener, TcpStream};
use std::time::Clock;
use tool_session::{LastReply, Phase, RequestState, ServerAddress, SessionFault, SessionTask, at};
use tool_sockets::{ClientTimeouts, ControlReader, ControlWriter};

/// Plays over a control connection that is open, as long as its timeouts last, and waits a moment for the end of its last data connection.
pub(crate) fn play_over_one<N, R, T, P>(
    rt: &R,
    server: ServerAddress<'_>,
    login: Login<Global>,
    stream: &TcpStream,
    noticed: (&mut LastReply, &Health),
    play: &mut P,
) -> Result<T, SessionFault>
where
    N: NewClient<Global>,
    R: Net<Listener = TcpListener, Stream = TcpStream> + Eprint + Clock + AllocGlobal,
    T: Drop,
    P: SessionTask<Result<T, SessionFault>>,
    ensures { Conversed P.tells ComesOfClient P.plays play.old play.new result }
{
    let (last_reply, health) = noticed;
    let timeouts = ClientTimeouts::new(server.timeout, server.until);
    let request_state = RequestState::new();
    let ports = MeteredPorts::beside(rt, stream, &timeouts, &request_state, server);
    let mut ports = at(Phase::Talking, ports)?;
    let mut control = Control::new(
        Monitored::new(ControlReader::new(stream, &timeouts), health),
        Monitored::new(ControlWriter::new(stream, &timeouts), health),
    );
    let mut data = Data::new();
    let done = play_by_one::<N, _, _, _, _, _>(
        (rt.alloc(), login, stream),
        (&mut control, last_reply),
        &mut ports,
        &mut data,
        &request_state,
        play,
    );
    data.finish(&mut ports);
    drop(control);
    ports.finish();
    last_reply.add_opened(ports.opened());
    note_moved(&request_state, last_reply);
    note_end(&timeouts, server.timeout, (last_reply, health));
    done
}

/// Notes whether octets moved over a data connection.
fn note_moved(request_state: &RequestState, last_reply: &mut LastReply) {
    if request_state.has_moved() {
        last_reply.octets_moved();
    }
}

/// Notes what this end waited for no longer, where it did: a server that was silent for `timeout` seconds, or anything.
fn note_end(timeouts: &ClientTimeouts, timeout: u32, noticed: (&mut LastReply, &Health)) {
    let (last_reply, health) = noticed;
    if timeouts.is_over() {
        health.fail();
    }
    if timeouts.is_past() {
        last_reply.ran_out();
    } else if timeouts.is_over() {
        last_reply.fell_silent(timeout);
    }
}

/// Plays by a client, which takes the login, and whose replies are kept.
fn play_by_one<N, C, W, O, T, P>(
    ends: (Global, Login<Global>, &TcpStream),
    heard: (&mut Control<C, W>, &mut LastReply),
    ports: &mut O,
    data: &mut Data<O::Stream>,
    request_state: &RequestState,
    play: &mut P,
) -> Result<T, SessionFault>
where
    N: NewClient<Global>,
    C: Read + Drop,
    W: Write + Drop,
    O: Opens,
    T: Drop,
    P: SessionTask<Result<T, SessionFault>>,
    requires { HasNone O.Stream.remaining O.Stream.contents data.old }
    ensures { Conversed P.tells ComesOfClient P.plays play.old play.new result }
{
    let (alloc, login, stream) = ends;
    let (control, last_reply) = heard;
    match client_of::<N>(alloc, login, stream) {
        Ok(client) => {
            let client = ListeningClient::new(client, last_reply);
            play_by(client, control, ports, data, request_state, play)
        }
        Err(fault) => Err(fault),
    }
}

/// A client between the hosts of a control connection. Fails where the system does not tell them, or memory is refused.
fn client_of<N: NewClient<Global>>(
    alloc: Global,
    login: Login<Global>,
    stream: &TcpStream,
) -> Result<N, SessionFault> {
    let (here, peer) = at(Phase::Talking, hosts_of(stream))?;
    match N::create(alloc, &mut Some(login), here, peer) {
        Some(client) => Ok(client),
        None => Err(SessionFault::of_memory()),
    }
}

/// Plays by a client between its connections.
fn play_by<N, C, W, O, T, P>(
    client: N,
    control: &mut Control<C, W>,
    ports: &mut O,
    data: &mut Data<O::Stream>,
    request_state: &RequestState,
    play: &mut P,
) -> Result<T, SessionFault>
where
    N: Near<Global>,
    C: Read + Drop,
    W: Write + Drop,
    O: Opens,
    T: Drop,
    P: SessionTask<Result<T, SessionFault>>,
    requires { HasNone O.Stream.remaining O.Stream.contents data.old }
    ensures { Conversed P.tells ComesOfClient P.plays play.old play.new result }
{
    let mut session = LiveSession {
        client,
        control,
        ports,
        data,
        request_state,
    };
    play.play(&mut session)
}
