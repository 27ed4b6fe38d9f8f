// Who slots clients: a session is made of each, between its two ends.
ghost use Rattle.std.specs.Global.{Global};
ghost use Rattle.std.specs.Prelude.{◌≡◌, IfSome};
ghost use Rattle.tool_serve.specs.Listening.{told_host};
ghost use Rattle.tool_serve.specs.Served.{Starts};
ghost use Rattle.tool_serve.specs.Sharing.{stand_of};

use crate::accounts::accounts_told;
use crate::begins::Begins;
use crate::connections::{LoggedPorts, SaidWriter};
use crate::goodbye::{guessed_from, no_slot};
use crate::log_line::{NoClient, Tells};
use crate::serving::Serving;
use crate::session_in_slot::{Connected, Guest, ServerSession, Service, SessionHosts};
use crate::session_log::{Log, SessionLog};
use crate::sessions::SessionCount;
use crate::stop_file::stop_request;
use ftp_disk_tree::{Parks, Prepares};
use ftp_endpoint::Host;
use ftp_server_driver::Control;
use ftp_tree::Tree;
use std::alloc::Global;
use std::fs::Files;
use std::io;
use std::marker::PhantomData;
use std::net::{IpAddr, SocketAddr, TcpStream};
use std::rc::Rc;
use std::time::Clock;
use tool_log::SessionNote;
use tool_polling::{ControlLine, LinePorts, LineReader, LineWriter, TimeLimits};
use tool_scheduler::{Full, Slot, Slots, StopRequest};
use tool_sockets::{Sockets, host_of};

/// What all sessions have in common. `M` begins their servers.
#[derive(Drop)]
pub(crate) struct Seating<'a, R, T, M> {
    rt: &'a R,
    accounts: Option<&'a str>,
    stop_file: Option<&'a str>,
    waits: TimeLimits,
    sessions: SessionCount,
    service: Service<'a>,
    begins: M,
    _over: PhantomData<T>,
}

impl<'a, R, T, M> Seating<'a, R, T, M> {
    /// What they are for a job; who may log in is read anew for each client.
    pub(crate) fn new(
        rt: &'a R,
        job: &Serving<'a>,
        service: Service<'a>,
        begins: M,
    ) -> Seating<'a, R, T, M> {
        Seating {
            rt,
            accounts: job.accounts,
            stop_file: job.stop_file,
            waits: job.waits,
            sessions: job.sessions,
            service,
            begins,
            _over: PhantomData,
        }
    }
}

impl<'a, R, T, M> Slots for Seating<'a, R, T, M>
where
    R: Sockets + Tells + Clock + Files + AllocGlobal,
    T: Parks<Global> + Prepares,
    M: Begins<T>,
{
    type Tree = T;

    type Slot = ServerSession<'a, R, T, M::Server>;

    /// The tree stays.
    ghost begins = { λ hosts old new. new ≡ old };

    ghost starts = { λ session. Starts session.stood (stand_of M.Server.Far.server session.clocked session.control session.data) };

    fn host(&self, peer: SocketAddr) -> u128 {
        guessed_from(peer.ip())
    }

    fn slot(
        &self,
        stream: TcpStream,
        _peer: SocketAddr,
        tree: &T,
    ) -> Option<Box<ServerSession<'a, R, T, M::Server>, Global>> {
        let accounts = accounts_told(self.rt, self.accounts, self.service.lines)?;
        let guest = Guest {
            accounts,
            stream,
            waits: self.waits,
            service: self.service,
        };
        let session = session_of(self.rt, &self.begins, tree, guest)?;
        // Who waits for one of so many sessions has its turn once a transfer is done.
        if let SessionCount::Count(_) = self.sessions {
            session.timeouts().spare_transfers();
        }
        Box::new(self.rt.alloc(), session).ok()
    }

    fn begin_round(&self, _ready: &[bool], _hosts: &[u128], _tree: &mut T) {}

    fn turn_away(
        &self,
        stream: TcpStream,
        peer: SocketAddr,
        why: Full,
    ) -> Option<Rc<ControlLine, Global>> {
        if let Log::Told = self.service.log {
            let what = match why {
                Full::House => "is turned away: all places are taken",
                Full::Host => "is turned away: its address has as many sessions as it may",
            };
            self.rt
                .tell_session(self.service.lines, &SessionNote { peer, what });
        }
        let line = ControlLine::new(stream, self.waits).ok()?;
        line.say_last(no_slot(why));
        Rc::new(self.rt.alloc(), line).ok()
    }

    fn stop_request(&self) -> StopRequest {
        stop_request(self.rt, self.stop_file)
    }

    fn none_came(&self, error: io::Error) {
        self.rt.tell(self.service.lines, &NoClient(error));
    }
}

/// The host that PASV names: the one that was asked for, where it is of the family of the one that the client reached.
fn told_host(asked: Option<IpAddr>, reached: Host) -> Host
    ensures { result ≡ told_host asked reached }
{
    match (asked, reached) {
        (Some(IpAddr::V4(ip)), Host::V4(_)) => Host::V4(ip.octets()),
        (Some(IpAddr::V6(ip)), Host::V6(_)) => Host::V6(ip.octets()),
        _ => reached,
    }
}

/// A session that begins over a control connection, beside a tree that is lent to it later; none where the connection failed, or memory is refused.
pub(crate) fn session_of<'a, R, T, M>(
    rt: &'a R,
    begins: &M,
    tree: &T,
    guest: Guest<'a>,
) -> Option<ServerSession<'a, R, T, M::Server>>
where
    R: Sockets + Tells + Clock + AllocGlobal,
    T: Parks<Global> + Prepares,
    M: Begins<T>,
    ensures { IfSome result (λ session. Starts session.stood (stand_of M.Server.Far.server session.clocked session.control session.data)) }
{
    let Guest {
        accounts,
        stream,
        waits,
        service,
    } = guest;
    let connected = connected(rt, stream, waits, service)?;
    let SessionHosts { here, peer } = connected.hosts;
    let server = begins.begin(rt.alloc(), tree.bare(), accounts, here, peer)?;
    Some(ServerSession::new(rt, server, connected))
}

/// The connections of a session that begins; none where its control connection failed, or memory is refused.
fn connected<'a, R: Sockets + Tells + AllocGlobal>(
    rt: &'a R,
    stream: TcpStream,
    waits: TimeLimits,
    service: Service<'a>,
) -> Option<Connected<'a, R>> {
    let line = ControlLine::new(stream, waits).ok()?;
    let line = Rc::new(rt.alloc(), line).ok()?;
    connected_at(rt, &line, service)
}

/// The same at a control connection that stands.
fn connected_at<'a, R: Sockets + Tells + AllocGlobal>(
    rt: &'a R,
    line: &Rc<ControlLine, Global>,
    service: Service<'a>,
) -> Option<Connected<'a, R>> {
    let hosts = hosts_of(line, service)?;
    let session_log = log_of(rt, line, service)?;
    let watched = session_log.clone().ok()?;
    let control = control_of(line, &session_log)?;
    let ports = ports_of(rt, line, &session_log, service)?;
    Some(Connected {
        hosts,
        control,
        ports,
        session_log,
        watched,
    })
}

/// The hosts at both ends of a control connection; none where the system does not tell an address of it.
fn hosts_of(line: &ControlLine, service: Service<'_>) -> Option<SessionHosts> {
    let here = host_of(line.here().ok()?);
    let peer = host_of(line.peer().ok()?);
    Some(SessionHosts {
        here: told_host(service.passive_address, here),
        peer,
    })
}

/// The session log at a control connection.
fn log_of<'a, R: Tells + AllocGlobal>(
    rt: &'a R,
    line: &Rc<ControlLine, Global>,
    service: Service<'a>,
) -> Option<Rc<SessionLog<'a, R>, Global>> {
    let peer = line.peer().ok()?;
    let log = SessionLog::new(rt, line.clone().ok()?, peer, service);
    Rc::new(rt.alloc(), log).ok()
}

/// The reader and the writer of a control connection.
fn control_of<'a, R: Tells>(
    line: &Rc<ControlLine, Global>,
    session_log: &Rc<SessionLog<'a, R>, Global>,
) -> Option<Control<LineReader, SaidWriter<'a, R>>> {
    let reader = LineReader::new(line.clone().ok()?);
    let writer = LineWriter::new(line.clone().ok()?);
    let writer = SaidWriter::new(writer, session_log.clone().ok()?);
    Some(Control::new(reader, writer))
}

/// What opens and closes data connections beside a control connection.
fn ports_of<'a, R: Sockets + Tells>(
    rt: &'a R,
    line: &Rc<ControlLine, Global>,
    session_log: &Rc<SessionLog<'a, R>, Global>,
    service: Service<'a>,
) -> Option<LoggedPorts<'a, R>> {
    let inner = LinePorts::serving(rt, line.clone().ok()?, service.passive).ok()?;
    Some(LoggedPorts {
        inner,
        session_log: session_log.clone().ok()?,
    })
}
