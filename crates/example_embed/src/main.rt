//! A program that embeds both ends: it serves a tree in memory at the loopback, or puts a file into one that is served and gets it back (RFC 959).
#![tactic(auto)]

mod client;
mod server;

use std::io::Eprint;
use std::process::ExitCode;
use std::{env, io};

/// The host of both ends.
const LOOPBACK: [u8; 4] = [127, 0, 0, 1];

/// The port that the server listens at.
const PORT: u16 = 2121;

/// How long the other end may be silent, in seconds.
const SECONDS: u32 = 60;

/// `example_embed serve` serves one client, and `example_embed ask` is one. The status is 1 where a socket or memory failed, and 2 for other words.
fn main(rt: HostRuntime) -> ExitCode {
    let word = match env::args(&rt) {
        Ok(words) => words.skip(1).next(),
        Err(_) => None,
    };
    let done = match word.as_deref() {
        Some("serve") => server::serve_one(&rt),
        Some("ask") => client::put_and_get(&rt),
        _ => return ExitCode::from(2),
    };
    match done {
        Ok(()) => ExitCode::SUCCESS,
        Err(error) => {
            let _told = eprintln!(&rt; "error: {error}");
            ExitCode::FAILURE
        }
    }
}
