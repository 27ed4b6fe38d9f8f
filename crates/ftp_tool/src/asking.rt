// What is asked for at one place, or at each of several.
use crate::at_once::Batch;
use crate::obeying::number_of;
use crate::programs::Programs;
use crate::refusing::refuse;
use crate::several::check_places;
use clap::ArgMatches;
use std::alloc::Global;
use std::io;
use std::io::Eprint;
use tool_command::{
    ErrorStream, PLACE_OPTION, UsageError, asked_of, fetch_task_of, is_matched, openings_of,
    url_in, urls_in,
};
use tool_get_put::{Each, FilePair};
use tool_job::Target;
use tool_location::UrlPlace;
use tool_session::Openings;
use tool_terminal::{Shown, Status};

/// The subcommand that removes files.
const REMOVE: &str = "rm";

/// Does what a subcommand asks for at one place.
pub(crate) fn ask<R>(
    rt: &R,
    alloc: Global,
    name: &str,
    words: &ArgMatches<'_>,
    errors: ErrorStream,
) -> io::Result<u8>
where
    R: Programs + Eprint,
{
    let place = words.get_str("place").unwrap_or("");
    let openings = openings_of(words);
    match url_in(alloc, PLACE_OPTION, place) {
        Ok(url) => match asked_of(words, place, url.as_ref(), &openings, errors) {
            Ok(asked) => ask_at(rt, name, words, &asked),
            Err(refusal) => refuse(rt, refusal),
        },
        Err(refusal) => refuse(rt, refusal),
    }
}

/// The same at this place.
fn ask_at<R: Programs + Eprint>(
    rt: &R,
    name: &str,
    words: &ArgMatches<'_>,
    asked: &Target<'_>,
) -> io::Result<u8> {
    match fetch_task_of(name, words, asked.place) {
        Some(task) => number_of(rt.fetch(asked, task)),
        None => refuse(rt, UsageError::Number),
    }
}

/// Does what a subcommand asks for at each of several places.
pub(crate) fn ask_each<R>(
    rt: &R,
    alloc: Global,
    name: &str,
    words: &ArgMatches<'_>,
) -> io::Result<u8>
where
    R: Programs + Eprint,
{
    let openings = openings_of(words);
    match urls_in(alloc, PLACE_OPTION, places_of(words)) {
        Ok(urls) => ask_where(rt, alloc, name, words, urls.as_slice(), &openings),
        Err(refusal) => refuse(rt, refusal),
    }
}

/// The places that a command line names.
fn places_of<'a>(words: &'a ArgMatches<'_>) -> &'a [&'a str] {
    words.get_strs("places").unwrap_or(&[])
}

/// The same at places of which these are URLs, where all of them can be asked at.
fn ask_where<'a, R: Programs + Eprint>(
    rt: &R,
    alloc: Global,
    name: &str,
    words: &'a ArgMatches<'_>,
    urls: &'a [Option<UrlPlace>],
    openings: &'a Openings,
) -> io::Result<u8> {
    if let Err(refusal) = check_places(words, places_of(words), urls, openings, false) {
        return refuse(rt, refusal);
    }
    if name == REMOVE {
        number_of(remove_all(rt, alloc, words, urls, openings))
    } else {
        number_of(ask_all(rt, name, words, urls, openings))
    }
}

/// Does what a subcommand asks for at places one after another, each over a control connection of its own, and gives the worst status.
fn ask_all<'a, R: Programs + Eprint>(
    rt: &R,
    name: &str,
    words: &'a ArgMatches<'_>,
    urls: &'a [Option<UrlPlace>],
    openings: &'a Openings,
) -> io::Result<Status> {
    let mut worst = Status::Done;
    let mut until = None;
    let places = places_of(words);
    for (place, url) in places.iter().zip(urls.iter()) {
        let Ok(asked) = asked_of(words, *place, url.as_ref(), openings, ErrorStream::Other) else {
            return Ok(Status::BadWords);
        };
        let asked = asked.within(&mut until);
        worst = worst.worse(ask_told(rt, name, words, &asked, places.len())?);
    }
    Ok(worst)
}

/// The same at one of so many places, and tells which one it is that was not done.
fn ask_told<R: Programs + Eprint>(
    rt: &R,
    name: &str,
    words: &ArgMatches<'_>,
    asked: &Target<'_>,
    count: usize,
) -> io::Result<Status> {
    let Some(task) = fetch_task_of(name, words, asked.place) else {
        return Ok(Status::BadWords);
    };
    let status = rt.fetch(asked, task)?;
    tell_undone(rt, status, count, "done", asked.place.path)?;
    Ok(status)
}

/// Removes files, over several control connections where these are asked for.
fn remove_all<'a, R: Programs + Eprint>(
    rt: &R,
    alloc: Global,
    words: &'a ArgMatches<'_>,
    urls: &'a [Option<UrlPlace>],
    openings: &'a Openings,
) -> io::Result<Status> {
    let places = places_of(words);
    let mut batch = Batch::new(alloc, Each::Remove);
    let mut worst = Status::Done;
    for (place, url) in places.iter().zip(urls.iter()) {
        let Ok(asked) = asked_of(words, *place, url.as_ref(), openings, ErrorStream::Other) else {
            return Ok(Status::BadWords);
        };
        if asked.at_once < 2 || places.len() < 2 {
            return ask_all(rt, REMOVE, words, urls, openings);
        }
        worst = worst.worse(remove_at_once(rt, alloc, words, asked, &mut batch)?);
    }
    Ok(worst.worse(batch.done(rt)?))
}

/// Removes a file with those before and behind it, over several control connections; the files of a pattern behind those before.
fn remove_at_once<'a, R: Programs + Eprint>(
    rt: &R,
    alloc: Global,
    words: &ArgMatches<'_>,
    asked: Target<'a>,
    batch: &mut Batch<'a>,
) -> io::Result<Status> {
    if is_matched(words, asked.place) {
        let before = batch.done(rt)?;
        return Ok(before.worse(ask_told(rt, REMOVE, words, &asked, 2)?));
    }
    let pair = FilePair {
        path: String::from_str(alloc, asked.place.path)?,
        file: String::new(alloc),
    };
    batch.put(rt, asked, pair)
}

/// Tells which of several it is with which something was not done, as its sentence does not say.
pub(crate) fn tell_undone<R: Eprint>(
    rt: &R,
    status: Status,
    count: usize,
    done: &str,
    file: &str,
) -> io::Result<()> {
    if count > 1 && status != Status::Done {
        let file = Shown(file.as_bytes());
        eprintln!(rt; "note: not {done}: {file}")?;
    }
    Ok(())
}
