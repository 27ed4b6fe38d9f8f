// A session of a server: what it owes goes out, and then what it wants is done (RFC 959, section 2.3).
use crate::embedded::sockets::EmbeddedSockets;
use ftp_ends::Wants;
use ftp_ports::{Failed, TURNS, get, put};
use ftp_server_model::Far;
use ftp_tree::Tree;
use std::alloc::Allocator;
use std::io::{Read, Write};

pub fn serve<A: Allocator + Copy, T: Tree<A>, F: Far<A, T>, R: Read, W: Write, S: EmbeddedSockets>(
    server: &mut F,
    (reader, writer): (&mut R, &mut W),
    sockets: &mut S,
) -> Result<(), Failed> {
    for _ in 0..TURNS {
        server.clock(sockets.now());
        if owes(server, writer)? {
            continue;
        }
        if let Wants::CloseAll = server.wants() {
            return Ok(());
        }
        turn(server, reader, sockets)?;
    }
    Err(Failed)
}

fn owes<A: Allocator + Copy, T: Tree<A>, F: Far<A, T>, W: Write>(
    server: &mut F,
    writer: &mut W,
) -> Result<bool, Failed> {
    let mut room = [0; 4096];
    let owed = server.control_out(&mut room);
    put(writer, &room[..owed])?;
    Ok(owed > 0)
}

fn turn<A: Allocator + Copy, T: Tree<A>, F: Far<A, T>, R: Read, S: EmbeddedSockets>(
    server: &mut F,
    reader: &mut R,
    sockets: &mut S,
) -> Result<(), Failed> {
    match server.wants() {
        Wants::Nothing => hear(server, reader)?,
        Wants::Listen => match sockets.listen() {
            Some(port) => server.listening(port),
            None => server.listen_refused(),
        },
        Wants::Accept | Wants::Connect(_) => match sockets.open(server.wants()) {
            Some(host) => server.data_opened(host),
            None => server.data_refused(),
        },
        Wants::Receive => receive(server, sockets),
        Wants::Send => send(server, sockets),
        Wants::CloseData | Wants::CloseAll => {
            sockets.close();
            server.data_closed();
        }
    }
    Ok(())
}

fn hear<A: Allocator + Copy, T: Tree<A>, F: Far<A, T>, R: Read>(
    server: &mut F,
    reader: &mut R,
) -> Result<(), Failed> {
    let mut room = [0; 1];
    match get(reader, &mut room)? {
        0 => server.control_end(),
        _ => drop(server.hear(&room)),
    }
    Ok(())
}

fn receive<A: Allocator + Copy, T: Tree<A>, F: Far<A, T>, S: EmbeddedSockets>(
    server: &mut F,
    sockets: &mut S,
) {
    let mut room = [0; 1];
    match sockets.read(&mut room) {
        Ok(0) => server.data_end(),
        Ok(_) => drop(server.data_hear(&room)),
        Err(_) => server.data_fault(),
    }
}

fn send<A: Allocator + Copy, T: Tree<A>, F: Far<A, T>, S: EmbeddedSockets>(
    server: &mut F,
    sockets: &mut S,
) {
    let mut room = [0; 4096];
    let count = server.data_out(&mut room);
    if sockets.write(&room[..count]).is_err() {
        server.data_fault();
    }
}
