//! Passwords, the fields that they open, and the fields that are made of them.
use crate::report::put_printed;
use crate::row::LineRow;
use ftp_secret::{Method, Secret, SecretFault};
use rows_base::{Paper, number, split};
use std::alloc::Global;

/// Writes whether a password opens a field, or what is wrong with the field.
pub(crate) fn show_opened(alloc: Global, row: &LineRow<'_>, paper: &mut Paper) {
    match Secret::read(split(row.head).0) {
        Ok(secret) => put_opened(secret.opens(row.octets), paper),
        Err(fault) => put_printed(alloc, &fault, paper),
    }
}

fn put_opened(opens: bool, paper: &mut Paper) {
    if opens {
        paper.put(b"yes");
    } else {
        paper.put(b"no");
    }
}

/// Writes the field that is made of a password, by `5` or `6`, a salt and a number of rounds, or none.
pub(crate) fn show_made(alloc: Global, row: &LineRow<'_>, paper: &mut Paper) {
    let (method, behind) = split(row.head);
    let (salt, rounds) = split(behind);
    match made(method, salt, split(rounds).0, row.octets) {
        Ok(secret) => paper.put(secret.text().as_slice()),
        Err(fault) => put_printed(alloc, &fault, paper),
    }
}

fn made(method: &[u8], salt: &[u8], rounds: &[u8], password: &[u8]) -> Result<Secret, SecretFault> {
    let method = match method {
        b"5" => Method::Sha256,
        _ => Method::Sha512,
    };
    Secret::made(method, rounds_of(rounds), salt, password)
}

fn rounds_of(text: &[u8]) -> Option<u32> {
    if text.is_empty() {
        return None;
    }
    Some(number(text).min(4_000_000_000) as u32)
}
