// What each subcommand asks for, done by the program that does it.
use crate::asking::{ask, ask_each};
use crate::getting::get;
use crate::programs::Programs;
use crate::putting::put;
use crate::refusing::refuse;
use clap::ArgMatches;
use std::alloc::Global;
use std::io;
use std::io::{Eprint, IsTerminal, Write};
use tool_command::{
    ErrorStream, Program, UsageError, mirror_of, openings_of, program_of, rounds_of,
    script_server_of, script_user_of, serving_of, settings_of, task_of, url_in,
};
use tool_location::UrlPlace;
use tool_terminal::Status;

/// Does what the words of a command line ask for.
pub(crate) fn obey<R, F>(
    rt: &R,
    alloc: Global,
    words: &ArgMatches<'_>,
    faults: &mut F,
) -> io::Result<u8>
where
    R: Programs + Eprint,
    F: Write + IsTerminal,
{
    let Some((name, inner)) = words.subcommand() else {
        return refuse(rt, UsageError::Number);
    };
    let errors = if faults.is_terminal() {
        ErrorStream::Terminal
    } else {
        ErrorStream::Other
    };
    match program_of(name) {
        Program::Serve => serve(rt, inner),
        Program::Loop => number_of(rt.play_loop()),
        Program::Pair => play_pair(rt, inner, faults),
        Program::Password => make_field(rt, inner, faults),
        Program::Run => run_script(rt, inner),
        Program::Mirror => mirror(rt, alloc, inner),
        Program::Get => get(rt, alloc, inner, errors),
        Program::Put => put(rt, alloc, inner, errors),
        Program::Ask => ask(rt, alloc, name, inner, errors),
        Program::AskEach => ask_each(rt, alloc, name, inner),
        Program::Task => perform_task(rt, words, faults),
    }
}

/// The number of a status.
pub(crate) fn number_of(done: io::Result<Status>) -> io::Result<u8> {
    match done {
        Ok(status) => Ok(status.number()),
        Err(error) => Err(error),
    }
}

/// Does what `dialogue`, `facts` or `frame` asks for.
fn perform_task<R, F>(rt: &R, words: &ArgMatches<'_>, faults: &mut F) -> io::Result<u8>
where
    R: Programs + Eprint,
    F: Write,
{
    match task_of(words) {
        Some(task) => Ok(rt.perform(task, faults)),
        None => refuse(rt, UsageError::Number),
    }
}

/// Does what `pair` asks for.
fn play_pair<R, F>(rt: &R, words: &ArgMatches<'_>, faults: &mut F) -> io::Result<u8>
where
    R: Programs + Eprint,
    F: Write,
{
    match settings_of(words) {
        Some(settings) => Ok(rt.play_pair(settings, faults).number()),
        None => refuse(rt, UsageError::Number),
    }
}

/// Does what `password` asks for.
fn make_field<R, F>(rt: &R, words: &ArgMatches<'_>, faults: &mut F) -> io::Result<u8>
where
    R: Programs + Eprint,
    F: Write,
{
    match rounds_of(words) {
        Ok(rounds) => Ok(rt.password(rounds, faults).number()),
        Err(refusal) => refuse(rt, refusal),
    }
}

/// Does what `serve` asks for.
fn serve<R: Programs + Eprint>(rt: &R, words: &ArgMatches<'_>) -> io::Result<u8> {
    match serving_of(words) {
        Ok(job) => number_of(rt.serve(job)),
        Err(refusal) => refuse(rt, refusal),
    }
}

/// Does what `run` asks for.
fn run_script<R: Programs + Eprint>(rt: &R, words: &ArgMatches<'_>) -> io::Result<u8> {
    let server = match script_server_of(words) {
        Ok(server) => server,
        Err(refusal) => return refuse(rt, refusal),
    };
    match script_user_of(words) {
        Ok(user) => number_of(rt.run(server, user)),
        Err(refusal) => refuse(rt, refusal),
    }
}

/// The URLs that the places of a mirror are; none where one is none.
struct MirrorUrls {
    from: Option<UrlPlace>,
    to: Option<UrlPlace>,
}

/// By hand: a derived drop is proved again, part by part, wherever they are let go.
impl Drop for MirrorUrls {
    fn drop(self) {
        let Self { from: _, to: _ } = self;
    }
}

/// Those of a command line. Fails where one is a URL by which no file is named, or memory is refused.
fn mirror_urls_of<'a>(
    alloc: Global,
    words: &'a ArgMatches<'_>,
) -> Result<MirrorUrls, UsageError<'a>> {
    let from = url_in(alloc, "<SOURCE>", words.get_str("source").unwrap_or(""))?;
    let to = url_in(alloc, "<TARGET>", words.get_str("target").unwrap_or(""))?;
    Ok(MirrorUrls { from, to })
}

/// Does what `mirror` asks for.
fn mirror<R: Programs + Eprint>(rt: &R, alloc: Global, words: &ArgMatches<'_>) -> io::Result<u8> {
    let openings = openings_of(words);
    match mirror_urls_of(alloc, words) {
        Ok(urls) => match mirror_of(words, urls.from.as_ref(), urls.to.as_ref(), &openings) {
            Ok(asked) => number_of(rt.mirror(asked)),
            Err(refusal) => refuse(rt, refusal),
        },
        Err(refusal) => refuse(rt, refusal),
    }
}
