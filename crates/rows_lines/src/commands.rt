//! Rows of the table of verbs, of RFC 959, RFC 2428 and RFC 3659.
use crate::endpoints::put_endpoint;
use crate::report::{put_printed, put_quoted};
use ftp_command::{Argument, Command, CommandFault, read, write};
use rows_base::Paper;
use std::alloc::{Allocator, Global};

/// Puts the line that is written for what a line says, or its endpoint; or its fault. A command is let go here and nowhere
/// else, since that is dear to prove.
pub(crate) fn put<A: Allocator + Copy>(
    heap: A,
    alloc: Global,
    asks_endpoint: bool,
    line: &[u8],
    paper: &mut Paper,
) {
    let said = read(heap, line);
    match &said {
        Ok(command) if asks_endpoint => put_endpoint_of(command, paper),
        Ok(command) => put_line(heap, alloc, command, paper),
        Err(fault) => put_printed(alloc, fault, paper),
    }
    drop(said);
}

/// Puts the endpoint of PORT or EPRT.
fn put_endpoint_of<A: Allocator + Copy>(command: &Command<Argument<A>>, paper: &mut Paper) {
    match command {
        Command::Port(endpoint) => put_endpoint(*endpoint, paper),
        Command::Eprt(endpoint) => put_endpoint(*endpoint, paper),
        _ => paper.put(b"none"),
    }
}

fn put_line<A: Allocator + Copy>(
    heap: A,
    alloc: Global,
    command: &Command<Argument<A>>,
    paper: &mut Paper,
) {
    let mut out = Vec::new(heap);
    match write(command, &mut out) {
        Ok(()) => put_quoted(out.as_slice(), paper),
        Err(fault) => put_printed(alloc, &fault, paper),
    }
}
