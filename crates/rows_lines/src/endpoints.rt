//! Numbers, six numbers and extended addresses, as they are read and written.
use crate::report::{put_printed, put_quoted};
use ftp_endpoint::{
    Endpoint, Host, extended_endpoint, number, octet, port, port_in_front, six_in_front,
    six_numbers, write_extended,
};
use rows_base::Paper;
use std::alloc::Global;

/// What is asked of a text.
#[derive(Clone, Copy)]
pub(crate) enum Asked {
    Number,
    Octet,
    Port,
    PortInFront,
    Six,
    SixInFront,
    Extended,
    /// An extended address as it is written anew.
    Anew,
}

/// Writes what a text says.
pub(crate) fn show(alloc: Global, asked: Asked, text: &[u8], paper: &mut Paper) {
    match asked {
        Asked::Six => put_six(six_numbers(text), paper),
        Asked::SixInFront => put_in_front(six_in_front(text), paper),
        Asked::Extended => put_extended(alloc, text, paper),
        Asked::Anew => put_anew(alloc, text, paper),
        _ => put_number(number_in(asked, text), paper),
    }
}

fn number_in(asked: Asked, text: &[u8]) -> Option<u64> {
    match asked {
        Asked::Octet => Some(u64::from(octet(text)?)),
        Asked::Port => Some(u64::from(port(text)?)),
        Asked::PortInFront => Some(u64::from(port_in_front(text)?)),
        _ => number(text),
    }
}

fn put_number(number: Option<u64>, paper: &mut Paper) {
    match number {
        Some(number) => paper.number(number),
        None => paper.put(b"none"),
    }
}

/// Puts the octets of a host and a port.
pub(crate) fn put_endpoint(endpoint: Endpoint, paper: &mut Paper) {
    match endpoint.host {
        Host::V4(octets) => put_octets(&octets, paper),
        Host::V6(octets) => put_octets(&octets, paper),
    }
    paper.put(b"port ");
    paper.number(u64::from(endpoint.port));
}

fn put_octets(octets: &[u8], paper: &mut Paper) {
    for octet in octets {
        paper.number(u64::from(*octet));
        paper.put(b" ");
    }
}

fn put_six(six: Option<Endpoint>, paper: &mut Paper) {
    match six {
        Some(endpoint) => put_endpoint(endpoint, paper),
        None => paper.put(b"none"),
    }
}

fn put_in_front(six: Option<(Endpoint, &[u8])>, paper: &mut Paper) {
    match six {
        Some((endpoint, behind)) => {
            put_endpoint(endpoint, paper);
            paper.put(b" and ");
            put_quoted(behind, paper);
        }
        None => paper.put(b"none"),
    }
}

fn put_extended(alloc: Global, text: &[u8], paper: &mut Paper) {
    match extended_endpoint(text) {
        Ok(endpoint) => put_endpoint(endpoint, paper),
        Err(fault) => put_printed(alloc, &fault, paper),
    }
}

fn put_anew(alloc: Global, text: &[u8], paper: &mut Paper) {
    match extended_endpoint(text) {
        Ok(endpoint) => put_quoted(write_extended(endpoint).as_slice(), paper),
        Err(fault) => put_printed(alloc, &fault, paper),
    }
}
