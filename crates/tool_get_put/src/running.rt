// A script of operations over one control connection: each is done and reported before the next begins.
ghost use Rattle.std.specs.Global.{Global};
ghost use Rattle.std.specs.Prelude.{◌≡◌, List, IfOk, OnOk, Some, true};
ghost use Rattle.std.specs.Io.KnownBytes.{Appends};
ghost use Rattle.ftp_operation.specs.declared.answer.Answer.{Answer};
ghost use Rattle.tool_get_put.specs.Running.{DoesOrders, IsWorst, Reported, RunsScript, request_of, result_by, status_by};
ghost use Rattle.tool_script.specs.Report.{report};
ghost use Rattle.tool_script.specs.Status.{status_of};
ghost use Rattle.tool_session.specs.Talking.{HasExchanged, SessionExchange};

use ftp_facts::Text;
use ftp_operation::Login;
use std::alloc::Global;
use std::env::Env;
use std::fs::Files;
use std::io;
use std::io::{Eprint, Read, Write};
use std::net::{Net, TcpListener, TcpStream};
use std::time::Clock;
use tool_connect::{Converses, Health, Logins};
use tool_login::User;
use tool_script::{NoScript, Order, Script, read_script, write_report};
use tool_session::{
    ClientSession, LastReply, Phase, Request, ServerAddress, SessionFault, SessionTask, Subject,
    at, say,
};
use tool_terminal::Status;

/// The orders of a script.
type Orders = Vec<Order<Text<Global>>, Global>;

/// The line of a login that stands before a script which has none, since who asks is said elsewhere. It is not used.
const NO_LOGIN: &[u8] = b"login nobody nothing\n";

/// Does the script of standard input over one control connection to a server, and writes a report of each of its orders to standard output once it
/// is done. Gives the exit status: 0; 1 where an order was refused or broke, or the server ended the control connection, by 421 too; 2 for a line that fits no
/// form, and then nothing is sent; 3 where the control connection or a device failed, or memory was refused for the script or a report. What keeps it from a
/// report is told on standard error.
pub fn run<R>(rt: &R, server: ServerAddress<'_>) -> io::Result<Status>
where
    R: Net<Listener = TcpListener, Stream = TcpStream>
        + Input
        + Print
        + Eprint
        + Clock
        + AllocGlobal,
{
    let (done, _out) = run_script(rt, rt.alloc(), server, &mut rt.reader(), io::writer(rt));
    match done {
        Ok(status) => Ok(status),
        Err(stop) => stop.tell(rt, subject_of(server, None)),
    }
}

/// The same for a user, whose script has no line of a login; status 2 for a bad login too.
pub fn run_as<R>(rt: &R, server: ServerAddress<'_>, user: User<'_>) -> io::Result<Status>
where
    R: Net<Listener = TcpListener, Stream = TcpStream>
        + Files
        + Env
        + Input
        + Print
        + Eprint
        + Clock
        + AllocGlobal,
{
    let (done, _out) = run_script_as(
        rt,
        rt.alloc(),
        server,
        user,
        &mut NO_LOGIN.chain(rt.reader()),
        io::writer(rt),
    );
    match done {
        Ok(status) => Ok(status),
        Err(stop) => stop.tell(rt, subject_of(server, user.password_file)),
    }
}

/// What a fault may be of.
fn subject_of<'a>(server: ServerAddress<'a>, password_file: Option<&'a str>) -> Subject<'a> {
    Subject {
        server,
        password_file,
        file: "-",
    }
}

/// Reads a script that says who logs in, does its orders over one control connection, and writes the report of each once it is done. Gives the exit status
/// and the writer; a fault is of the read, of the control connection or of a report.
pub fn run_script<R, I, W>(
    rt: &R,
    alloc: Global,
    server: ServerAddress<'_>,
    reader: &mut I,
    out: W,
) -> (Result<Status, SessionFault>, W)
where
    R: Converses + Eprint,
    I: Read,
    W: Write + Drop,
    // Witness: `edits/a_script_is_read_and_not_done`, and those of `run_orders`.
    ensures { RunsScript (R.hears rt.now 1) (I.remaining reader.old) (I.remaining reader.new) (W.contents out) (W.contents result.1) result.0 }
{
    match read_script(alloc, reader) {
        Ok(Script { login, orders }) => run_orders(rt, alloc, server, login, orders, out),
        Err(fault) => (tell_fault(rt, fault), out),
    }
}

/// The same for a user. The reader gives a line of a login before the script; it is not used, and the number of a bad line that is told leaves it out.
pub fn run_script_as<R, I, W>(
    rt: &R,
    alloc: Global,
    server: ServerAddress<'_>,
    user: User<'_>,
    reader: &mut I,
    out: W,
) -> (Result<Status, SessionFault>, W)
where
    R: Converses + Logins + Eprint,
    I: Read,
    W: Write + Drop,
    // Witness: those of `run_orders`.
    ensures { RunsScript (R.hears rt.now 1) (I.remaining reader.old) (I.remaining reader.new) (W.contents out) (W.contents result.1) result.0 }
{
    match read_script(alloc, reader) {
        Ok(Script { login: _, orders }) => {
            match at(Phase::Login, rt.login(server.host, user)) {
                Ok(login) => run_orders(rt, alloc, server, login, orders, out),
                Err(stop) => (Err(stop), out),
            }
        }
        Err(NoScript::Line(number)) => (
            tell_fault(rt, NoScript::Line(number.saturating_sub(1))),
            out,
        ),
        Err(fault) => (tell_fault(rt, fault), out),
    }
}

/// Does orders over one control connection, and writes the report of each once it is done. Gives the worst of their statuses, or that of a failure where the
/// control connection failed, and the writer.
pub fn run_orders<R, W>(
    rt: &R,
    alloc: Global,
    server: ServerAddress<'_>,
    login: Login<Global>,
    orders: Orders,
    out: W,
) -> (Result<Status, SessionFault>, W)
where
    R: Converses,
    W: Write + Drop,
    // Witness: `edits/an_order_more_is_asked`, `each_report_is_of_done`, `it_stops_at_a_refusal`, `nothing_is_asked`, `the_last_status_counts`,
    // `two_reports_are_swapped`.
    ensures { DoesOrders (R.hears rt.now 1) orders.items (W.contents out) (W.contents result.1) result.0 }
{
    let mut all = All {
        out,
        alloc,
        orders: Some(orders),
    };
    let health = Health::new();
    let server = ServerAddress {
        at_once: 1,
        ..server
    };
    let done = rt.converse(server, login, &mut LastReply::new(), &health, &mut all);
    (result_by(done, health.has_failed()), all.into_out())
}

/// What comes of orders of which this came, where the control connection failed or not.
fn result_by(done: Result<Status, SessionFault>, has_failed: bool) -> Result<Status, SessionFault>
    ensures { result ≡ result_by done has_failed }
{
    match done {
        Ok(worst) => Ok(status_by(worst, has_failed)),
        Err(stop) => Err(stop),
    }
}

/// The exit status behind the worst one of all reports.
fn status_by(worst: Status, has_failed: bool) -> Status
    ensures { result ≡ status_by worst has_failed }
{
    if has_failed { Status::Failed } else { worst }
}

/// Tells why there is no script.
fn tell_fault<R: Eprint>(rt: &R, fault: NoScript) -> Result<Status, SessionFault>
    ensures { IfOk result (λ status. status ≡ Status.BadWords) }
{
    match fault {
        NoScript::Line(number) => at(Phase::Report, tell_line(rt, number)),
        NoScript::Failed(error) => at(Phase::Script, Err(error)),
    }
}

/// Tells which line of a text makes it no script.
fn tell_line<R: Eprint>(rt: &R, number: usize) -> io::Result<Status>
    ensures { IfOk result (λ status. status ≡ Status.BadWords) }
{
    say(rt, "error: ", &NoScript::Line(number), "")?;
    Ok(Status::BadWords)
}

/// The orders of a script, until they are done, and where their reports go.
struct All<W> {
    out: W,
    alloc: Global,
    orders: Option<Orders>,
}

/// By hand: a derived drop is proved again, part by part, wherever orders are let go.
impl<W: Drop> Drop for All<W> {
    fn drop(self) {
        let Self {
            out: _,
            alloc: _,
            orders: _,
        } = self;
    }
}

impl<W: Drop> All<W> {
    fn into_out(self) -> W
        ensures { result ≡ self.out }
    {
        let Self {
            out,
            alloc: _,
            orders: _,
        } = self;
        out
    }
}

impl<W: Write + Drop> SessionTask<Result<Status, SessionFault>> for All<W> {
    ghost tells = { true };

    ghost plays = { λ heard result old new. (orders : _) → old.orders ≡ Some orders
        → Reported IsWorst orders.items (W.contents old.out) (W.contents new.out) heard result };

    fn play<S: ClientSession>(&mut self, slot: &mut S) -> Result<Status, SessionFault> {
        match self.orders.take() {
            Some(orders) => at(
                Phase::Report,
                do_all(&mut self.out, self.alloc, orders, slot),
            ),
            None => Ok(Status::Done),
        }
    }
}

/// Does orders, one after another, and gives the worst of their statuses.
fn do_all<W, S>(out: &mut W, alloc: Global, orders: Orders, slot: &mut S) -> io::Result<Status>
where
    W: Write,
    S: ClientSession,
    ensures { (heard : List SessionExchange) × HasExchanged S.answers slot.old heard slot.new
        × Reported IsWorst orders.items (W.contents out.old) (W.contents out.new) heard result }
{
    let mut worst = Status::Done;
    for order in orders {
        worst = worst.worse(do_one(out, alloc, order, slot)?);
    }
    Ok(worst)
}

/// Does an order, writes its report, and gives its status.
fn do_one<W, S>(
    out: &mut W,
    alloc: Global,
    order: Order<Text<Global>>,
    slot: &mut S,
) -> io::Result<Status>
where
    W: Write,
    S: ClientSession,
    ensures { (answer : Answer Global) × S.answers (request_of order) answer slot.old slot.new
        × OnOk result (Appends (W.contents out.old) (W.contents out.new) (report answer)) × IfOk result (λ status. status ≡ status_of answer) }
{
    let answer = slot.answer(request_of(order));
    write_report(alloc, &answer, out)
}

/// The request of an order.
fn request_of(order: Order<Text<Global>>) -> Request
    ensures { result ≡ request_of order }
{
    match order.into_parts() {
        Ok(op) => Request::One(Some(op)),
        Err((path, octets, how)) => Request::Upload(Some((path, octets)), how),
    }
}
