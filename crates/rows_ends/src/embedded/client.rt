// An operation of a client: what it owes goes out, and then what it wants is done (RFC 959, section 2.3).
use crate::embedded::sockets::EmbeddedSockets;
use ftp_client_model::Near;
use ftp_ends::Wants;
use ftp_facts::Text;
use ftp_operation::{Answer, Op};
use ftp_ports::{Failed, TURNS, get, put};
use std::alloc::Allocator;
use std::io::{Read, Write};

pub fn perform<A: Allocator + Copy, N: Near<A>, R: Read, W: Write, S: EmbeddedSockets>(
    client: &mut N,
    op: Op<Text<A>>,
    (reader, writer): (&mut R, &mut W),
    sockets: &mut S,
) -> Result<Answer<A>, Failed> {
    client.start(op).map_err(|_| Failed)?;
    for _ in 0..TURNS {
        if let Some(answer) = client.report() {
            return Ok(answer);
        }
        if !owes(client, writer)? {
            turn(client, reader, sockets)?;
        }
    }
    Err(Failed)
}

fn owes<A: Allocator + Copy, N: Near<A>, W: Write>(
    client: &mut N,
    writer: &mut W,
) -> Result<bool, Failed> {
    let mut room = [0; 4096];
    let owed = client.control_out(&mut room);
    put(writer, &room[..owed])?;
    Ok(owed > 0)
}

fn turn<A: Allocator + Copy, N: Near<A>, R: Read, S: EmbeddedSockets>(
    client: &mut N,
    reader: &mut R,
    sockets: &mut S,
) -> Result<(), Failed> {
    match client.wants() {
        Wants::CloseAll => return Err(Failed),
        Wants::Nothing => hear(client, reader)?,
        Wants::Listen => match sockets.listen() {
            Some(port) => client.listening(port),
            None => client.listen_refused(),
        },
        Wants::Accept | Wants::Connect(_) => match sockets.open(client.wants()) {
            Some(host) => client.data_opened(host),
            None => client.data_refused(),
        },
        Wants::Receive => receive(client, sockets),
        Wants::Send => send(client, sockets),
        Wants::CloseData => {
            sockets.close();
            client.data_closed();
        }
    }
    Ok(())
}

fn hear<A: Allocator + Copy, N: Near<A>, R: Read>(
    client: &mut N,
    reader: &mut R,
) -> Result<(), Failed> {
    let mut room = [0; 1];
    match get(reader, &mut room)? {
        0 => client.control_end(),
        _ => drop(client.hear(&room)),
    }
    Ok(())
}

fn receive<A: Allocator + Copy, N: Near<A>, S: EmbeddedSockets>(client: &mut N, sockets: &mut S) {
    let mut room = [0; 1];
    match sockets.read(&mut room) {
        Ok(0) => client.data_end(),
        Ok(_) => drop(client.data_hear(&room)),
        Err(_) => client.data_fault(),
    }
}

fn send<A: Allocator + Copy, N: Near<A>, S: EmbeddedSockets>(client: &mut N, sockets: &mut S) {
    let mut room = [0; 4096];
    let count = client.data_out(&mut room);
    if sockets.write(&room[..count]).is_err() {
        client.data_fault();
    }
}
