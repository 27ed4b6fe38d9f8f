// What the subcommand `serve` does.
ghost use Rattle.std.specs.Prelude.{◌↔◌, IsTrue};
ghost use Rattle.tool_serve.specs.Listening.{MayListen};

use crate::accounts::{accounts_of, reach_of};
use crate::begins::{Begins, Ours};
use crate::ceiling::{most_written, within};
use crate::holding::{FolderTaken, Hold};
use crate::log_line::{OfFile, Tells};
use crate::session_in_slot::Service;
use crate::session_log::Log;
use crate::session_start::Seating;
use crate::sessions::SessionCount;
use crate::starting::{RefusedFolder, dir_text, is_folder, opened, tell_roots};
use crate::stop_file::stop_request;
use ftp_disk_host::{Host, SystemHost};
use ftp_disk_tree::{LoadFault, Others, Parks, Prepares, Unserved};
use ftp_operation::Rights;
use ftp_tree::Limits;
use std::alloc::{AllocError, Global};
use std::cell::RefCell;
use std::fmt::Display;
use std::fs::Files;
use std::io::{Eprint, ErrorKind, Print};
use std::net::{IpAddr, Net, SocketAddr, TcpListener, TcpStream};
use std::time::Clock;
use std::{fs, io};
use tool_accounts::Reach;
use tool_log::{LogFormat, LogLines};
use tool_login_limit::LoginLimiter;
use tool_polling::{PassivePorts, TimeLimits as Waits};
use tool_scheduler::{Input, SessionLimits, StopRequest, is_input_open, serve_rounds};
use tool_sockets::Sockets;
use tool_terminal::{Shown, Status};

/// What is to be served.
#[derive(Clone, Copy)]
pub struct Serving<'a> {
    /// The address to listen at.
    pub host: IpAddr,
    /// The port to listen at, or 0 for one that the system chooses.
    pub port: u16,
    /// The folder.
    pub dir: &'a str,
    pub sessions: SessionCount,
    /// How many of them at once, from 1 to 64, and how many of those from one address.
    pub at_once: usize,
    pub per_host: usize,
    /// Whether the end of standard input stops the server.
    pub input: Input,
    /// The path at which something stands once the server is to stop; it is looked for each second.
    pub stop_file: Option<&'a str>,
    /// How many seconds transfers may go on once the server stops.
    pub finish: u32,
    /// The file of accounts, which is read anew for each session; none: `guest` and `anonymous`, and an address of the loopback alone.
    pub accounts: Option<&'a str>,
    pub log: Log,
    /// How its lines are written.
    pub log_format: LogFormat,
    /// How long clients are waited for.
    pub waits: Waits,
    /// The first and the last port of passive data connections.
    pub passive: (u16, u16),
    /// The address that PASV names, of a server that clients reach by another one than its own.
    pub passive_address: Option<IpAddr>,
    /// How much is served below each account's root.
    pub limits: Limits,
    /// Whether anybody else changes the folder while it is served.
    pub others: Others,
    /// What is done at the start with what of the folder can't be served.
    pub unserved: Unserved,
}

impl<'a> Serving<'a> {
    /// Whether the address may be listened at: without a file of accounts all that is served may be changed by whoever connects.
    fn may_listen(&self) -> bool
        ensures { IsTrue result ↔ MayListen self.now.accounts self.now.host }
    {
        self.accounts.is_some() || self.host.is_loopback()
    }
}

/// Serves a folder, and gives the exit status: done; bad words where the address is none of the loopback and no file of accounts is given, or the end of a
/// standard input is to stop the server that is closed; or failed where the stop file is there already, or the folder, the file of accounts, the port or a
/// session failed.
pub fn serve<R>(rt: &R, job: Serving<'_>) -> io::Result<Status>
where
    R: Net<Listener = TcpListener, Stream = TcpStream>
        + Files
        + Clock
        + Print
        + Eprint
        + AllocGlobal
        + Clone
        + Drop,
{
    if !job.may_listen() {
        return refuse_address(rt);
    }
    if matches!(job.input, Input::Stops) && !is_input_open() {
        return refuse_input(rt);
    }
    if let StopRequest::Made = stop_request(rt, job.stop_file) {
        return refuse(
            rt,
            "stop file: ",
            &OfFile(job.stop_file, &"it is there already"),
        );
    }
    match accounts_of(rt, job.accounts) {
        Ok(_) => serve_dir(rt, &job),
        Err(fault) => refuse(rt, "accounts: ", &OfFile(job.accounts, &fault)),
    }
}

/// Tells that an address is none to listen at.
fn refuse_address<R: Eprint>(rt: &R) -> io::Result<Status> {
    eprintln!(rt;
        "error: without a file of accounts only an address of the loopback is listened at"
    )?;
    Ok(Status::BadWords)
}

/// Tells that there is no standard input whose end could stop the server.
fn refuse_input<R: Eprint>(rt: &R) -> io::Result<Status> {
    eprintln!(rt; "error: standard input is closed: there is no end of it to wait for")?;
    Ok(Status::BadWords)
}

/// Tells of what a fault is, and why nothing is served.
fn refuse<R: Eprint, F: Display>(rt: &R, what: &str, fault: &F) -> io::Result<Status> {
    eprintln!(rt; "error: {what}{fault}")?;
    Ok(Status::Failed)
}

/// Tells that a folder can't be written, in a line that begins so.
fn tell_unwritten<R: Eprint>(rt: &R, begins: &str, dir: &str, error: io::Error) -> io::Result<()> {
    let dir = Shown(dir_text(dir).as_bytes());
    eprintln!(rt; "{begins}: {dir}: the folder can't be written: {error}")
}

/// Tells where is listened at.
fn tell_address<R: Print>(rt: &R, listener: &TcpListener) -> io::Result<()> {
    let address = listener.local_addr()?;
    println!(rt; "listening on {address}")?;
    Ok(())
}

/// The folder's lock, which is let go with this; where nobody is served none is asked for.
fn hold_of<R: AllocGlobal>(rt: &R, job: &Serving<'_>) -> Result<Hold, AllocError> {
    if job.sessions == SessionCount::Count(0) {
        return Ok(Hold::Unasked);
    }
    let dir = dir_text(job.dir);
    let place = format!(in rt.alloc(); "{dir}/.")?;
    Ok(Hold::take(place.as_str()))
}

/// Tells that a folder is not locked.
fn tell_unlocked<R: Eprint>(rt: &R, dir: &str, error: &io::Error) -> io::Result<()> {
    let dir = Shown(dir_text(dir).as_bytes());
    eprintln!(rt;
        "note: {dir}: the folder can't be locked, so a second server on it is not refused: {error}"
    )
}

/// The limits of what is served: no larger file than the system lets the server write, which is told.
fn limits_of<R: Eprint>(rt: &R, limits: Limits) -> io::Result<Limits> {
    let most = most_written();
    if most < limits.file {
        eprintln!(rt;
            "note: the system lets no file have more than {most} octets: this is the limit of a file"
        )?;
    }
    Ok(within(limits, most))
}

/// Holds the folder while it is served; one that another server has is refused.
fn serve_dir<R>(rt: &R, job: &Serving<'_>) -> io::Result<Status>
where
    R: Net<Listener = TcpListener, Stream = TcpStream>
        + Files
        + Clock
        + Print
        + Eprint
        + AllocGlobal
        + Clone
        + Drop,
{
    let Ok(hold) = hold_of(rt, job) else {
        return refuse(rt, "", &LoadFault::Memory);
    };
    match &hold {
        Hold::Taken => return refuse(rt, "", &FolderTaken(dir_text(job.dir))),
        Hold::Refused(error) => tell_unlocked(rt, job.dir, error)?,
        Hold::Held(_) | Hold::Unasked => {}
    }
    let limits = limits_of(rt, job.limits)?;
    let status = serve_held(rt, &Serving { limits, ..*job });
    drop(hold);
    status
}

/// Loads the folder and serves it.
fn serve_held<R>(rt: &R, job: &Serving<'_>) -> io::Result<Status>
where
    R: Net<Listener = TcpListener, Stream = TcpStream>
        + Files
        + Clock
        + Print
        + Eprint
        + AllocGlobal
        + Clone
        + Drop,
{
    let reach = match reach_of(rt, job.accounts) {
        Ok(reach) => reach,
        Err(fault) => return refuse(rt, "accounts: ", &OfFile(job.accounts, &fault)),
    };
    match SystemHost::new(rt, job.dir) {
        Ok(host) => serve_host(rt, &host, job, &reach),
        Err(AllocError) => refuse(rt, "", &LoadFault::Memory),
    }
}

/// Loads the folder that a host has and serves it.
fn serve_host<R, H>(
    rt: &R,
    host: &H,
    job: &Serving<'_>,
    reach: &Reach<Global>,
) -> io::Result<Status>
where
    R: Net<Listener = TcpListener, Stream = TcpStream>
        + Files
        + Clock
        + Print
        + Eprint
        + AllocGlobal,
    H: Host,
{
    let lines = LogLines::new(rt.alloc(), job.log_format);
    let roots = reach.roots.as_slice();
    match opened(rt, host, job, roots, &lines) {
        Ok(tree) => {
            tell_roots(rt, &tree, job.accounts, roots, &lines);
            serve_tree(rt, tree, job, reach.rights, &lines)
        }
        Err(fault) => refuse_folder(rt, job, &fault),
    }
}

/// Tells why the folder is not served, and what serves the rest of it.
fn refuse_folder<R: Files + Eprint>(
    rt: &R,
    job: &Serving<'_>,
    fault: &LoadFault,
) -> io::Result<Status> {
    let status = refuse(rt, "", &RefusedFolder::of(job, fault))?;
    if job.unserved == Unserved::Refuse && is_folder(rt, job.dir) {
        eprintln!(rt;
            "note: with --skip what can't be served is left out; with --any there are no limits either"
        )?;
    }
    Ok(status)
}

/// Tries whether the folder can be written, where nobody is served: by an empty file of a name that no client can say.
fn try_writing<R: Files + AllocGlobal>(rt: &R, job: &Serving<'_>) -> io::Result<()> {
    if job.sessions != SessionCount::Count(0) {
        return Ok(());
    }
    let dir = dir_text(job.dir);
    let place = format!(in rt.alloc(); "{dir}/ftp-left-try\x7f")?;
    fs::write(rt, place.as_str(), "")?;
    fs::remove_file(rt, place.as_str())
}

/// Listens at the port and serves a tree, which accounts may change by these rights together.
fn serve_tree<R, T>(
    rt: &R,
    tree: T,
    job: &Serving<'_>,
    rights: Rights,
    lines: &LogLines,
) -> io::Result<Status>
where
    R: Net<Listener = TcpListener, Stream = TcpStream>
        + Files
        + Clock
        + Print
        + Eprint
        + AllocGlobal,
    T: Parks<Global> + Prepares,
{
    match listener_for(rt, job, rights) {
        Ok(Some(listener)) => Ok(serve_by(rt, tree, job, &listener, lines)),
        Ok(None) => Ok(Status::Failed),
        Err(error) => Err(error),
    }
}

/// Listens at the port, where the folder can be written, or nobody may change it anyway; else it is told why not.
fn listener_for<R>(rt: &R, job: &Serving<'_>, rights: Rights) -> io::Result<Option<TcpListener>>
where
    R: Net<Listener = TcpListener, Stream = TcpStream> + Files + Print + Eprint + AllocGlobal,
{
    if let Err(error) = try_writing(rt, job) {
        let goes_on = !rights.may_change();
        tell_unwritten(rt, if goes_on { "note" } else { "error" }, job.dir, error)?;
        if !goes_on {
            return Ok(None);
        }
    }
    listener_at(rt, job)
}

/// Listens at the port, and tells where, or why not.
fn listener_at<R>(rt: &R, job: &Serving<'_>) -> io::Result<Option<TcpListener>>
where
    R: Net<Listener = TcpListener, Stream = TcpStream> + Print + Eprint,
{
    match TcpListener::bind(rt, SocketAddr::new(job.host, job.port)) {
        Ok(listener) => match tell_address(rt, &listener) {
            Ok(()) => Ok(Some(listener)),
            Err(error) => Err(error),
        },
        Err(error) => tell_unheard(rt, SocketAddr::new(job.host, job.port), &error),
    }
}

/// Tells why an address and its port are not listened at, and what may help.
fn tell_unheard<R: Eprint>(
    rt: &R,
    address: SocketAddr,
    error: &io::Error,
) -> io::Result<Option<TcpListener>> {
    let hint = match error.kind() {
        ErrorKind::PermissionDenied => "; ports below 1024 are root's: --port names another",
        ErrorKind::AddrInUse => "; another program listens there: --port names another port",
        _ => "",
    };
    eprintln!(rt; "error: no port to listen at: {address}: {error}{hint}")?;
    Ok(None)
}

/// The passive ports: where sessions have no end, one that nobody opens is given up where another is wanted.
fn passive_of(alloc: Global, job: &Serving<'_>) -> PassivePorts {
    let (first, last) = job.passive;
    match job.sessions {
        SessionCount::Forever => PassivePorts::given_up(alloc, first, last),
        SessionCount::Count(_) => PassivePorts::new(alloc, first, last),
    }
}

/// Serves a tree at a port that is listened at.
fn serve_by<R, T>(
    rt: &R,
    tree: T,
    job: &Serving<'_>,
    listener: &TcpListener,
    lines: &LogLines,
) -> Status
where
    R: Net<Listener = TcpListener, Stream = TcpStream> + Files + Clock + Eprint + AllocGlobal,
    T: Parks<Global> + Prepares,
{
    let passive = passive_of(rt.alloc(), job);
    let login_limiter = RefCell::new(LoginLimiter::nothing(rt.alloc()));
    let service = Service {
        log: job.log,
        passive: &passive,
        passive_address: job.passive_address,
        lines,
        login_limiter: &login_limiter,
    };
    serve_ours(rt, tree, job, listener, service)
}

/// Serves clients over a tree by this house's servers.
fn serve_ours<R, T>(
    rt: &R,
    tree: T,
    job: &Serving<'_>,
    listener: &TcpListener,
    service: Service<'_>,
) -> Status
where
    R: ServesMany,
    T: Parks<Global> + Prepares,
{
    rt.serve_many(Ours, tree, job, listener, service)
}

/// Who serves clients, as one trait without types of its own: what stands on it is proved for less.
trait ServesMany {
    fn serve_many<T, M>(
        &self,
        begins: M,
        tree: T,
        job: &Serving<'_>,
        listener: &TcpListener,
        service: Service<'_>,
    ) -> Status
    where
        T: Parks<Global> + Prepares,
        M: Begins<T>;
}

impl<R: Sockets + Tells + Clock + Files + AllocGlobal> ServesMany for R {
    fn serve_many<T, M>(
        &self,
        begins: M,
        tree: T,
        job: &Serving<'_>,
        listener: &TcpListener,
        service: Service<'_>,
    ) -> Status
    where
        T: Parks<Global> + Prepares,
        M: Begins<T>,
    {
        serve_over(self, begins, tree, job, listener, service)
    }
}

/// Serves clients over a tree by servers that are begun so; a session that failed makes the status a failure.
fn serve_over<R, T, M>(
    rt: &R,
    begins: M,
    tree: T,
    job: &Serving<'_>,
    listener: &TcpListener,
    service: Service<'_>,
) -> Status
where
    R: Sockets + Tells + Clock + Files + AllocGlobal,
    T: Parks<Global> + Prepares,
    M: Begins<T>,
{
    let mut tree = tree;
    let seating: Seating<'_, R, T, M> = Seating::new(rt, job, service, begins);
    if listener.set_nonblocking(true).is_err() {
        return Status::Failed;
    }
    match serve_rounds(rt.alloc(), house_of(job), listener, &seating, &mut tree) {
        Ok(true) => Status::Done,
        Ok(false) | Err(AllocError) => Status::Failed,
    }
}

/// How many clients are served.
fn house_of(job: &Serving<'_>) -> SessionLimits {
    SessionLimits {
        at_once: job.at_once,
        per_host: job.per_host,
        sessions: match job.sessions {
            SessionCount::Count(count) => Some(count),
            SessionCount::Forever => None,
        },
        input: job.input,
        finish: job.finish,
    }
}
