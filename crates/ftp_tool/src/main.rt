//! The programs: FTP over standard input and output, a server and a client over real connections, and both in one.
#![tactic(auto)]

mod asking;
mod at_once;
mod getting;
mod obeying;
mod perform;
mod programs;
mod putting;
mod refusing;
mod several;

use clap::{ArgMatches, Error};
use obeying::obey;
use std::alloc::Global;
use std::env::Env;
use std::fs::{File, Files};
use std::io::{Eprint, IsTerminal, Write};
use std::net::{Net, TcpListener, TcpStream};
use std::process::ExitCode;
use std::random::RandomSource;
use std::time::Clock;
use std::{env, io};
use tool_command::{command, told_of};
use tool_terminal::{QuietHandle, Status};

fn main(rt: HostRuntime) -> ExitCode {
    ExitCode::from(run(&rt, &mut rt.stderr()).unwrap_or(Status::Failed.number()))
}

/// Does what the command line asks for, and gives the exit status. The faults of a wire are told to `faults`.
fn run<R, F>(rt: &R, faults: &mut F) -> io::Result<u8>
where
    R: Input
        + Print
        + Eprint
        + Env
        + Files<File = File>
        + AllocGlobal
        + Clock
        + RandomSource
        + Net<Listener = TcpListener, Stream = TcpStream>
        + Clone
        + Drop,
    F: Write + IsTerminal,
{
    let alloc = rt.alloc();
    let words: Vec<String> = env::args(rt)?.collect(alloc)?;
    match matches_of(alloc, words.as_slice()) {
        Ok(matches) => {
            let told = told_of(&matches);
            obey(&QuietHandle { rt, told }, alloc, &matches, faults)
        }
        Err(error) => tell(rt, &error),
    }
}

/// What the words of a command line are.
fn matches_of<'a>(alloc: Global, words: &'a [String]) -> Result<ArgMatches<'a>, Error> {
    command(alloc)?.try_get_matches_from(words)
}

/// Tells what is wrong with a command line, or the help that it asks for, and gives the exit status.
fn tell<R: Print + Eprint>(rt: &R, error: &Error) -> io::Result<u8> {
    error.print(rt)?;
    Ok(error.exit_code() as u8)
}
