// One session in its slot: a server beside its connections, and the session log of both.
ghost use Rattle.std.specs.Global.{Global};
ghost use Rattle.ftp_server_driver.specs.shared.Lending.{holding};
ghost use Rattle.tool_serve.specs.Served.{Starts};
ghost use Rattle.tool_serve.specs.Sharing.{TakesSlotTurn, ended_by, stand_of};

use crate::connections::{LoggedPorts, SaidWriter};
use crate::goodbye::last_reply;
use crate::log_line::Tells;
use crate::session_log::{Log, SessionLog};
use crate::watching::Watching;
use ftp_disk_tree::Prepares;
use ftp_endpoint::Host;
use ftp_operation::Accounts;
use ftp_ports::{Cause, Ports};
use ftp_server_driver::{Clocked, Control, Data, Turned, lent_turns};
use ftp_server_model::Standing;
use ftp_tree::Tree;
use laws_server::Lends;
use std::alloc::Global;
use std::cell::RefCell;
use std::net::{IpAddr, TcpStream};
use std::rc::Rc;
use std::time::Clock;
use tool_log::LogLines;
use tool_login_limit::LoginLimiter;
use tool_polling::{Awaits, Leaving, LineLink, LineReader, PassivePorts, TimeLimits, Timeouts};
use tool_scheduler::{Slot, Turn, TurnResult};
use tool_sockets::{Sockets, SystemWatch};

/// The most turns of a drive in one turn of a session: as many octets of a line may be heard.
const MOST: u64 = 1_024;

/// What a session needs of whoever serves it.
#[derive(Clone, Copy)]
pub(crate) struct Service<'a> {
    pub log: Log,
    pub passive: &'a PassivePorts,
    /// The address that PASV names in place of that which the client reached, where both are of one family.
    pub passive_address: Option<IpAddr>,
    /// Where the log goes.
    pub lines: &'a LogLines,
    /// The logins that were refused, over all sessions.
    pub login_limiter: &'a RefCell<LoginLimiter<Global>>,
}

/// A client that came: who may log in, its control connection, how long it is waited for, and what its session needs.
#[derive(Drop)]
pub(crate) struct Guest<'a> {
    pub accounts: Accounts<Global>,
    pub stream: TcpStream,
    pub waits: TimeLimits,
    pub service: Service<'a>,
}

/// How a session went.
#[derive(Clone, Copy)]
enum SessionOutcome {
    /// It goes on.
    On,
    /// The server was done with it.
    Whole,
    /// It broke off.
    Off,
}

/// A session: its server with a clock, its control connection, its data connections, and its log. Between its turns the server holds a tree that has nothing.
pub struct ServerSession<'a, R, T, F>
where
    R: Sockets + Tells + Clock,
    T: Tree<Global> + Prepares,
    F: Lends<Global, T>,
{
    clocked: Clocked<F, SystemWatch<'a, R>, Watching<'a, R, T>>,
    control: Control<LineReader, SaidWriter<'a, R>>,
    ports: LoggedPorts<'a, R>,
    data: Data<LineLink>,
    /// What stood at the path of an upload when the tree was last given back.
    stood: Option<Standing>,
    session_log: Rc<SessionLog<'a, R>, Global>,
    went: SessionOutcome,
}

/// Its data connection is closed, if one stands.
impl<'a, R, T, F> Drop for ServerSession<'a, R, T, F>
where
    R: Sockets + Tells + Clock,
    T: Tree<Global> + Prepares,
    F: Lends<Global, T>,
{
    fn drop(self) {
        let Self {
            clocked: _,
            control: _,
            ports,
            data,
            stood: _,
            session_log: _,
            went: _,
        } = self;
        let mut ports = ports;
        data.finish(&mut ports);
    }
}

/// The hosts of a session: the one that PASV names, and the client's.
#[derive(Clone, Copy)]
pub(crate) struct SessionHosts {
    pub(crate) here: Host,
    pub(crate) peer: Host,
}

/// The connections of a session that begins, and its session log.
#[derive(Drop)]
pub(crate) struct Connected<'a, R: Sockets + Tells> {
    pub(crate) hosts: SessionHosts,
    pub(crate) control: Control<LineReader, SaidWriter<'a, R>>,
    pub(crate) ports: LoggedPorts<'a, R>,
    pub(crate) session_log: Rc<SessionLog<'a, R>, Global>,
    /// The same log, for whoever looks on while the server is driven.
    pub(crate) watched: Rc<SessionLog<'a, R>, Global>,
}

impl<'a, R, T, F> ServerSession<'a, R, T, F>
where
    R: Sockets + Tells + Clock,
    T: Tree<Global> + Prepares,
    F: Lends<Global, T>,
{
    /// A session that begins, of a server that has a bare tree.
    pub(crate) fn new(
        rt: &'a R,
        server: F,
        connected: Connected<'a, R>,
    ) -> ServerSession<'a, R, T, F>
        ensures { Starts result.stood (stand_of F.Far.server result.clocked result.control result.data) }
    {
        let Connected {
            hosts: _,
            control,
            ports,
            session_log,
            watched,
        } = connected;
        session_log.note("begins");
        ServerSession {
            clocked: Clocked {
                server,
                watch: SystemWatch::new(rt),
                watcher: Watching::new(rt, watched),
            },
            control,
            ports,
            data: Data::new(),
            stood: None,
            session_log,
            went: SessionOutcome::On,
        }
    }
}

impl<'a, R, T, F> Slot<T> for ServerSession<'a, R, T, F>
where
    R: Sockets + Tells + Clock,
    T: Tree<Global> + Prepares,
    F: Lends<Global, T>,
{
    ghost takes = { λ lent left result old new. TakesSlotTurn (holding (T.table lent) (T.failures lent)) (holding (T.table left) (T.failures left))
        old.stood new.stood result (stand_of F.Far.server old.clocked old.control old.data) (stand_of F.Far.server new.clocked new.control new.data) };

    fn turn(&mut self, _turn: Turn, told: Awaits, tree: &mut T) -> TurnResult {
        self.session_log.line().begin_turn(told);
        self.session_log.begin(&self.clocked.server);
        let turned = some_turns(
            &mut self.clocked,
            &mut self.control,
            &mut self.ports,
            &mut self.data,
            tree,
            &mut self.stood,
        );
        self.session_log.copy_on(tree);
        match turned {
            Ok(Turned::Later) => TurnResult::Later,
            Ok(Turned::More) => TurnResult::More,
            Ok(Turned::Over(())) => {
                self.went = SessionOutcome::Whole;
                TurnResult::Over
            }
            Err(_) => {
                self.went = SessionOutcome::Off;
                TurnResult::Over
            }
        }
    }

    /// Where the front of an upload was copied in its last turn, nothing is waited for: it has the next one at once.
    fn awaits(&self) -> Awaits {
        let mut awaits = self.ports.inner.awaits();
        if self.session_log.is_held() {
            awaits.until = 0;
        }
        awaits
    }

    fn timeouts(&self) -> &Timeouts {
        &self.session_log.line().timeouts
    }

    fn is_busy(&self) -> bool {
        self.clocked.server.is_transferring() || self.clocked.server.owes()
    }

    fn may_hash(&self) -> bool {
        self.session_log.awaits_password()
    }

    fn leave(&mut self) -> (Leaving, bool) {
        let is_whole = matches!(self.went, SessionOutcome::Whole);
        let last = self.session_log.last_reply();
        if let Some(last) = last {
            self.session_log.line().say_last(last);
        }
        self.session_log.finish();
        self.session_log.end(is_whole);
        let link = self.ports.inner.take_leaving();
        let went_well = is_whole || self.timeouts().over().is_some();
        let line = if is_whole || last.is_some() {
            self.session_log.share_line()
        } else {
            None
        };
        (Leaving::new(line, link), went_well)
    }
}

/// Some turns of a drive, with the tree that is lent.
fn some_turns<'a, R, T, F>(
    clocked: &mut Clocked<F, SystemWatch<'a, R>, Watching<'a, R, T>>,
    control: &mut Control<LineReader, SaidWriter<'a, R>>,
    ports: &mut LoggedPorts<'a, R>,
    link: &mut Data<LineLink>,
    tree: &mut T,
    stood: &mut Option<Standing>,
) -> Result<Turned<()>, Cause>
where
    R: Sockets + Tells + Clock,
    T: Tree<Global> + Prepares,
    F: Lends<Global, T>,
    ensures { TakesSlotTurn (holding (T.table tree.old) (T.failures tree.old)) (holding (T.table tree.new) (T.failures tree.new)) stood.old stood.new
        (ended_by result) (stand_of F.Far.server clocked.old control.old link.old) (stand_of F.Far.server clocked.new control.new link.new) }
{
    lent_turns::<
        Global,
        T,
        F,
        LineReader,
        SaidWriter<'a, R>,
        LoggedPorts<'a, R>,
        SystemWatch<'a, R>,
        Watching<'a, R, T>,
    >(clocked, control, ports, link, tree, stood, MOST)
}
