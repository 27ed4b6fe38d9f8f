// A script between standard input and standard output.
use crate::between::Between;
use crate::client::ClientSlot;
use crate::joining::Joins;
use crate::orders::obey;
use crate::pair::Pair;
use crate::ports::HERE;
use crate::server::ServerSlot;
use ftp_client::Client;
use ftp_client_model::Near;
use ftp_client_steps::ClientTransfer;
use ftp_client_transfer::OperationTransfer;
use ftp_facts::Text;
use ftp_server::Server;
use ftp_server_model::Far;
use ftp_server_replies::ServerTransfer;
use ftp_server_transfer::TreeTransfer;
use ftp_tree_memory::MemTree;
use std::alloc::Global;
use std::io;
use std::io::{Eprint, Error, ErrorKind};
use std::net::{Net, TcpListener, TcpStream};
use tool_accounts::two_accounts;
use tool_script::{Order, Script, read_script};
use tool_terminal::Status;

/// Plays the script that standard input has, and writes the report of each order to standard output; gives the exit status.
///
/// The client's end is `ftp_client`, and the server's is `ftp_server` over an empty tree, where `guest` with the password `secret` and `anonymous`
/// without one may log in; what goes between them goes over loopback sockets. The first order has the first second of the year 2000, each other
/// the next one. `Done`: each order was answered as wanted. `Refused`: an order was refused or failed. `BadWords`: a line of the script fits no form,
/// and nothing was done. `Failed`: a read, a write or a socket failed, or memory was refused. The last two are told on standard error.
pub fn play<R>(rt: &R) -> io::Result<Status>
where
    R: Net<Listener = TcpListener, Stream = TcpStream> + Input + Print + Eprint + AllocGlobal,
{
    match read_script(rt.alloc(), &mut rt.reader()) {
        Ok(script) => played(rt, script),
        Err(fault) => {
            eprintln!(rt; "error: {fault}")?;
            Ok(fault.status())
        }
    }
}

/// Plays a script, and tells what failed.
fn played<R>(rt: &R, script: Script<Global>) -> io::Result<Status>
where
    R: Joins + Print + Eprint,
{
    match play_script(rt, script) {
        Ok(status) => Ok(status),
        Err(error) => {
            eprintln!(rt; "error: {error}")?;
            Ok(Status::Failed)
        }
    }
}

/// Plays a script with a server of its own, over an empty tree, where `guest` and `anonymous` may log in.
fn play_script<R: Joins + Print>(rt: &R, script: Script<Global>) -> io::Result<Status> {
    play_by::<R, TreeTransfer<Global, MemTree<Global>>, OperationTransfer<Global>>(rt, script)
}

/// The same by ends with such transfers, which are parameters, since named ones cost the proof more.
fn play_by<R, J, C>(rt: &R, script: Script<Global>) -> io::Result<Status>
where
    R: Joins + Print,
    J: ServerTransfer<Global, MemTree<Global>>,
    C: ClientTransfer<Global>,
{
    let alloc = rt.heap();
    let Ok(accounts) = two_accounts(alloc) else {
        return Err(Error::from(ErrorKind::OutOfMemory));
    };
    let made: Result<Server<Global, MemTree<Global>, J>, _> = Server::new(
        alloc,
        MemTree::new(alloc),
        accounts,
        HERE,
        HERE,
    );
    match made {
        Ok(server) => play_at::<R, _, C>(rt, server, script),
        Err(_) => Err(Error::from(ErrorKind::OutOfMemory)),
    }
}

/// Plays a script at a server, by a client of its own.
fn play_at<R, S, C>(rt: &R, server: S, script: Script<Global>) -> io::Result<Status>
where
    R: Joins + Print,
    S: Far<Global, MemTree<Global>>,
    C: ClientTransfer<Global>,
{
    let Script { login, orders } = script;
    let made: Result<Client<Global, C>, _> = Client::new(rt.heap(), login, HERE, HERE);
    match made {
        Ok(client) => play_between(rt, client, server, orders),
        Err(_) => Err(Error::from(ErrorKind::OutOfMemory)),
    }
}

/// Plays orders between a client and a server, at a control connection that is opened for them.
fn play_between<R, N, S>(
    rt: &R,
    client: N,
    server: S,
    orders: Vec<Order<Text<Global>>>,
) -> io::Result<Status>
where
    R: Joins + Print,
    N: Near<Global>,
    S: Far<Global, MemTree<Global>>,
{
    let between = Between::new(rt)?;
    play_in_slot(rt, &between, client, server, orders)
}

/// Plays them with both in their slots.
fn play_in_slot<'h, R, N, S>(
    rt: &'h R,
    between: &'h Between,
    client: N,
    server: S,
    orders: Vec<Order<Text<Global>>>,
) -> io::Result<Status>
where
    R: Joins + Print,
    N: Near<Global>,
    S: Far<Global, MemTree<Global>>,
{
    let mut pair = Pair {
        client: ClientSlot::new(client, &between.asks, between.client_ports(rt)),
        server: ServerSlot::new(server, &between.serves, between.server_ports(rt)),
    };
    obey(rt.heap(), &mut pair, orders, &mut io::writer(rt))
}
