// The orders of a script, one after another, and the report of each.
use crate::client::ClientSlot;
use crate::joining::Joins;
use crate::pair::Pair;
use crate::server::ServerSlot;
use ftp_client_model::Near;
use ftp_facts::Text;
use ftp_server_model::Far;
use ftp_tree_memory::MemTree;
use std::alloc::Global;
use std::io;
use std::io::{Error, ErrorKind, Write};
use tool_script::{Order, moment_of, write_report};
use tool_terminal::Status;

/// Does orders, each once all that the one before moved has settled, and writes their reports; gives the worst of their statuses.
pub(crate) fn obey<J, N, S, W>(
    alloc: Global,
    pair: &mut Pair<'_, J, N, S>,
    orders: Vec<Order<Text<Global>>>,
    out: &mut W,
) -> io::Result<Status>
where
    J: Joins,
    N: Near<Global>,
    S: Far<Global, MemTree<Global>>,
    W: Write,
{
    let mut worst = Status::Done;
    let mut number = 0u64;
    for order in orders {
        tell_time(&mut pair.server, number);
        begin(&mut pair.client, order)?;
        pair.settle()?;
        worst = worst.worse(report(alloc, &mut pair.client, out)?);
        number = number.saturating_add(1);
    }
    Ok(worst)
}

/// The server's clock is at the moment of the order with this number; behind the year 9999 it stands.
fn tell_time<J, S>(server: &mut ServerSlot<'_, J, S>, number: u64)
where
    J: Joins,
    S: Far<Global, MemTree<Global>>,
{
    if let Some(moment) = moment_of(number) {
        server.set_clock(moment);
    }
}

/// A client begins what is ordered; each order before it has its report.
fn begin<J, N>(client: &mut ClientSlot<'_, J, N>, order: Order<Text<Global>>) -> io::Result<()>
where
    J: Joins,
    N: Near<Global>,
{
    match order.into_parts() {
        Ok(op) => client.start(op).map_err(|_| busy()),
        Err((path, octets, how)) => client.upload(path, octets, how).map_err(|_| busy()),
    }
}

/// An order before has no report yet.
fn busy() -> Error {
    Error::new(ErrorKind::Other, "another operation is under way")
}

/// Writes the report of a client; gives its status.
fn report<J, N, W>(
    alloc: Global,
    client: &mut ClientSlot<'_, J, N>,
    out: &mut W,
) -> io::Result<Status>
where
    J: Joins,
    N: Near<Global>,
    W: Write,
{
    match client.report() {
        Some(answer) => write_report(alloc, &answer, out),
        None => Err(Error::new(
            ErrorKind::Other,
            "nothing moves any more, and an operation has no report",
        )),
    }
}
