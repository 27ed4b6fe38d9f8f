// The command line: one level of subcommands.
use crate::fetching::{CAT, GET, LS, MKDIR, MV, PUT, RM, RMDIR, SIZE, place_options};
use crate::help;
use crate::mirroring::{MIRROR, mirror_options};
use crate::pairing::PAIR;
use crate::password::PASSWORD;
use crate::running::RUN;
use crate::serving::{SERVE, serve_options};
use crate::words::{MODE, MOST, STRU, Subcommand, TYPE, ValueKind, Word, WordKind, subcommand_of};
use clap::Command;
use std::alloc::{AllocError, Global};

const DIALOGUE: Subcommand<'static> = Subcommand {
    name: "dialogue",
    about: "answers the octets of a control connection from standard input",
    usage: None,
    help: help::DIALOGUE,
    words: &[Word {
        name: "piece",
        kind: WordKind::Else(ValueKind::Number("N", 0, MOST), "0"),
        help: "octets that are read at a time, or 0 for what a read gives",
    }],
};

const FACTS: Subcommand<'static> = Subcommand {
    name: "facts",
    about: "writes the entry of each line of standard input, or its fault",
    usage: None,
    help: help::FACTS,
    words: &[],
};

const FRAME: Subcommand<'static> = Subcommand {
    name: "frame",
    about: "writes standard input as the octets of a data connection, or the other way round",
    usage: None,
    help: help::FRAME,
    words: &[
        Word {
            name: "type",
            kind: WordKind::Needed(TYPE),
            help: "ASCII or image",
        },
        Word {
            name: "stru",
            kind: WordKind::Needed(STRU),
            help: "file or record structure",
        },
        Word {
            name: "mode",
            kind: WordKind::Needed(MODE),
            help: "stream or block mode",
        },
        Word {
            name: "marks",
            kind: WordKind::Flag,
            help: "writes restart markers, in type I with file structure and block mode",
        },
        Word {
            name: "read",
            kind: WordKind::Flag,
            help: "reads the octets of a data connection from standard input and writes the file",
        },
    ],
};

const LOOP: Subcommand<'static> = Subcommand {
    name: "loop",
    about: "plays a script of operations between a client and a server of its own",
    usage: None,
    help: help::LOOP,
    words: &[],
};

/// What a subcommand asks for.
#[derive(Clone, Copy)]
pub enum Program {
    Serve,
    Loop,
    Pair,
    Password,
    Run,
    Mirror,
    Get,
    Put,
    /// Something else at one place of a server.
    Ask,
    /// The same at each of several places.
    AskEach,
    /// What goes between the standard streams.
    Task,
}

/// What a subcommand of this name asks for.
pub fn program_of(name: &str) -> Program {
    match name {
        "serve" => Program::Serve,
        "loop" => Program::Loop,
        "pair" => Program::Pair,
        "password" => Program::Password,
        "run" => Program::Run,
        "mirror" => Program::Mirror,
        "get" => Program::Get,
        "put" => Program::Put,
        "rm" | "mkdir" | "rmdir" => Program::AskEach,
        "dialogue" | "facts" | "frame" => Program::Task,
        _ => Program::Ask,
    }
}

/// The words that the program knows.
pub fn command<'a>(alloc: Global) -> Result<Command<'a>, AllocError> {
    let known = subcommands(alloc)?;
    Command::new(alloc, "ftp_tool")
        .version(help::VERSION)
        .about("an FTP server and client, and their parts over standard input and output")
        .subcommand_required(true)
        .subcommands(known)
}

/// All subcommands. Each few are put by a function of their own, and options come from one: who names words pays by the square of how many they are.
fn subcommands<'a>(alloc: Global) -> Result<Vec<Command<'a>>, AllocError> {
    let mut known = Vec::new(alloc);
    put_subcommands(alloc, &mut known)?;
    Ok(known)
}

/// Puts all of them; where nothing is owned, a `?` has nothing to let go.
fn put_subcommands<'a>(alloc: Global, known: &mut Vec<Command<'a>>) -> Result<(), AllocError> {
    put_parts(alloc, known)?;
    put_serve(alloc, known)?;
    put_transfers(alloc, known)?;
    put_simple(alloc, known)?;
    put_run(alloc, known)?;
    put_password(alloc, known)?;
    put_mirror(alloc, known)
}

fn put_parts<'a>(alloc: Global, known: &mut Vec<Command<'a>>) -> Result<(), AllocError> {
    put_all(alloc, known, &[DIALOGUE, FACTS, FRAME, LOOP, PAIR], &[])
}

fn put_serve<'a>(alloc: Global, known: &mut Vec<Command<'a>>) -> Result<(), AllocError> {
    put_all(alloc, known, &[SERVE], serve_options())
}

fn put_transfers<'a>(alloc: Global, known: &mut Vec<Command<'a>>) -> Result<(), AllocError> {
    put_all(alloc, known, &[GET, PUT, LS], place_options())
}

fn put_simple<'a>(alloc: Global, known: &mut Vec<Command<'a>>) -> Result<(), AllocError> {
    put_all(
        alloc,
        known,
        &[CAT, SIZE, RM, MKDIR, RMDIR, MV],
        place_options(),
    )
}

fn put_run<'a>(alloc: Global, known: &mut Vec<Command<'a>>) -> Result<(), AllocError> {
    put_all(alloc, known, &[RUN], &[])
}

fn put_password<'a>(alloc: Global, known: &mut Vec<Command<'a>>) -> Result<(), AllocError> {
    put_all(alloc, known, &[PASSWORD], &[])
}

fn put_mirror<'a>(alloc: Global, known: &mut Vec<Command<'a>>) -> Result<(), AllocError> {
    put_all(alloc, known, &[MIRROR], mirror_options())
}

/// Puts the subcommands of a table behind those before, each with these options.
fn put_all<'a>(
    alloc: Global,
    known: &mut Vec<Command<'a>>,
    table: &[Subcommand<'a>],
    options: &'a [Word<'a>],
) -> Result<(), AllocError> {
    for subcommand in table {
        known.push(subcommand_of(alloc, *subcommand, options)?)?;
    }
    Ok(())
}
