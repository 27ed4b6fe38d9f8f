// A script of operations, each asked by `ask` of `ftp_pair_memory`, at most so many octets a turn (RFC 959).
use ftp_client::Client;
use ftp_client_model::Near;
use ftp_client_steps::ClientTransfer;
use ftp_client_transfer::OperationTransfer;
use ftp_endpoint::Host;
use ftp_facts::{Moment, Text};
use ftp_operation::{Accounts, Login, Op};
use ftp_pair_memory::{MemoryControl, Slot, ask};
use ftp_ports::Watch;
use ftp_server::Server;
use ftp_server_driver::Clocked;
use ftp_server_model::Far;
use ftp_server_replies::ServerTransfer;
use ftp_server_transfer::TreeTransfer;
use ftp_tree_memory::MemTree;
use std::alloc::Global;
use std::io;
use std::io::Print;
use tool_accounts::two_accounts;
use tool_script::{Order, Script, read_script, write_report};

const HERE: Host = Host::V4([127, 0, 0, 1]);

/// The first second of the year 2000, since 1970.
const MOMENT: u64 = 946_684_800;

/// The most octets of a turn grow by one from order to order up to this, and then all may go at once.
const FEW: usize = 9;

const MANY: usize = 1024;

/// The most octets that a read or a write of a data connection moves.
const ONE: usize = 1;

/// A clock that stands.
#[derive(Drop)]
struct Still {
    moment: Moment,
}

impl Watch for Still {
    fn moment(&mut self) -> Moment {
        self.moment
    }
}

/// Has an operation answered, and writes its report.
fn report<R, N, F>(
    (rt, alloc): (&R, Global),
    op: Op<Text<Global>>,
    client: &mut Slot<N>,
    server: &mut Slot<Clocked<F, Still, ()>>,
    control: &mut MemoryControl,
    most: usize,
) -> io::Result<()>
where
    R: Print,
    N: Near<Global>,
    F: Far<Global, MemTree<Global>>,
{
    match ask::<Global, MemTree<Global>, N, F, Still, ()>(op, client, server, control, most) {
        Some(answer) => {
            let _status = write_report(alloc, &answer, &mut io::writer(rt))?;
            Ok(())
        }
        None => println!(rt; "none"),
    }
}

/// Asks for all of them, one after another.
fn ask_all<R, N, F>(
    (rt, alloc): (&R, Global),
    client: N,
    server: F,
    orders: Vec<Order<Text<Global>>, Global>,
) -> io::Result<()>
where
    R: Print,
    N: Near<Global> + Drop,
    F: Far<Global, MemTree<Global>> + Drop,
{
    let clocked = Clocked {
        server,
        watch: Still {
            moment: Moment { seconds: MOMENT },
        },
        watcher: (),
    };
    let mut client = Slot::new(client, alloc, HERE, ONE);
    let mut server = Slot::new(clocked, alloc, HERE, ONE);
    let mut control = MemoryControl::new(alloc);
    let mut most = 1usize;
    for order in orders {
        match order.into_parts() {
            Ok(op) => report(
                (rt, alloc),
                op,
                &mut client,
                &mut server,
                &mut control,
                most,
            )?,
            Err(_) => println!(rt; "an upload over breaks")?,
        }
        most = if most >= FEW { MANY } else { most + 1 };
    }
    let counts = server.end().server.counts();
    let refused = client.end().refusals();
    println!(rt;
        "refused {refused}, {}; failed {}",
        counts.refusals, counts.failures
    )
}

/// A server over an empty tree in memory; none where memory is refused.
fn server_of<J: ServerTransfer<Global, MemTree<Global>>>(
    alloc: Global,
    accounts: Accounts<Global>,
) -> Option<Server<Global, MemTree<Global>, J>> {
    Server::new(alloc, MemTree::new(alloc), accounts, HERE, HERE).ok()
}

/// A client that logs in so; none where memory is refused.
fn client_of<C: ClientTransfer<Global>>(
    alloc: Global,
    login: Login<Global>,
) -> Option<Client<Global, C>> {
    Client::new(alloc, login, HERE, HERE).ok()
}

/// Plays a script at this server, by a client with such transfers.
fn play_at<R, C, F>((rt, alloc): (&R, Global), script: Script<Global>, server: F) -> io::Result<()>
where
    R: Print,
    C: ClientTransfer<Global>,
    F: Far<Global, MemTree<Global>> + Drop,
{
    let Script { login, orders } = script;
    match client_of::<C>(alloc, login) {
        Some(client) => ask_all((rt, alloc), client, server, orders),
        None => Ok(()),
    }
}

/// Plays a script by ends with such transfers; these are parameters, since named ones cost the proof more.
fn play_by<R, C, J>(
    (rt, alloc): (&R, Global),
    script: Script<Global>,
    accounts: Accounts<Global>,
) -> io::Result<()>
where
    R: Print,
    C: ClientTransfer<Global>,
    J: ServerTransfer<Global, MemTree<Global>>,
{
    match server_of::<J>(alloc, accounts) {
        Some(server) => play_at::<R, C, _>((rt, alloc), script, server),
        None => Ok(()),
    }
}

/// Plays a script by both ends in turns over a tree in memory, and writes the reports.
pub fn play<R: Print>(rt: &R, alloc: Global, script: &[u8]) -> io::Result<()> {
    let mut text = script;
    let Ok(script) = read_script(alloc, &mut text) else {
        return println!(rt; "no script");
    };
    let Ok(accounts) = two_accounts(alloc) else {
        return println!(rt; "no accounts");
    };
    play_by::<R, OperationTransfer<Global>, TreeTransfer<Global, MemTree<Global>>>(
        (rt, alloc),
        script,
        accounts,
    )
}
