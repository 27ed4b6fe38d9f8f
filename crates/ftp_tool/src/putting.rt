// `put`: files to a place, one after another or over several control connections.
use crate::asking::tell_undone;
use crate::at_once::Batch;
use crate::obeying::number_of;
use crate::programs::Programs;
use crate::refusing::refuse;
use crate::several::{check_uploads, goes_into, uploads_of};
use clap::ArgMatches;
use std::alloc::Global;
use std::io;
use std::io::Eprint;
use tool_command::{ErrorStream, PLACE_OPTION, asked_of, openings_of, put_task_of, url_in};
use tool_get_put::{Each, FilePair};
use tool_job::Target;
use tool_location::{Location, place_for};
use tool_terminal::Status;

/// Does what `put` asks for, file by file, each over a control connection of its own; the status is the worst.
pub(crate) fn put<R>(
    rt: &R,
    alloc: Global,
    words: &ArgMatches<'_>,
    errors: ErrorStream,
) -> io::Result<u8>
where
    R: Programs + Eprint,
{
    let (files, place) = match uploads_of(words.get_strs("files").unwrap_or(&[])) {
        Ok(said) => said,
        Err(refusal) => return refuse(rt, refusal),
    };
    let openings = openings_of(words);
    match url_in(alloc, PLACE_OPTION, place) {
        Ok(url) => match asked_of(words, place, url.as_ref(), &openings, errors) {
            Ok(asked) => put_where(rt, alloc, words, files, &asked),
            Err(refusal) => refuse(rt, refusal),
        },
        Err(refusal) => refuse(rt, refusal),
    }
}

/// Uploads files to a place, where all of them can go there.
fn put_where<R>(
    rt: &R,
    alloc: Global,
    words: &ArgMatches<'_>,
    files: &[&str],
    asked: &Target<'_>,
) -> io::Result<u8>
where
    R: Programs + Eprint,
{
    let into = match goes_into(asked.place.path, files) {
        Ok(into) => into,
        Err(refusal) => return refuse(rt, refusal),
    };
    match check_uploads(alloc, files) {
        Ok(()) => number_of(put_all(rt, alloc, words, asked, into, files)),
        Err(refusal) => refuse(rt, refusal),
    }
}

/// Uploads files, into the directory of a place or to the place.
fn put_all<R: Programs + Eprint>(
    rt: &R,
    alloc: Global,
    words: &ArgMatches<'_>,
    asked: &Target<'_>,
    into: bool,
    files: &[&str],
) -> io::Result<Status> {
    if asked.at_once > 1 && files.len() > 1 && !words.get_flag("temp") {
        return put_at_once(rt, alloc, asked, into, files);
    }
    let mut worst = Status::Done;
    for file in files {
        let status = put_one(rt, alloc, words, asked, into, *file)?;
        tell_undone(rt, status, files.len(), "copied", *file)?;
        worst = worst.worse(status);
    }
    Ok(worst)
}

/// The same over several control connections.
fn put_at_once<R: Programs>(
    rt: &R,
    alloc: Global,
    asked: &Target<'_>,
    into: bool,
    files: &[&str],
) -> io::Result<Status> {
    let mut batch = Batch::new(alloc, Each::Put);
    let mut worst = Status::Done;
    for file in files {
        let pair = FilePair {
            path: place_for(alloc, into, asked.place.path, *file)?,
            file: String::from_str(alloc, *file)?,
        };
        worst = worst.worse(batch.put(rt, *asked, pair)?);
    }
    Ok(worst.worse(batch.done(rt)?))
}

/// Uploads a file, into the directory of a place or to the place.
fn put_one<R: Programs>(
    rt: &R,
    alloc: Global,
    words: &ArgMatches<'_>,
    asked: &Target<'_>,
    into: bool,
    file: &str,
) -> io::Result<Status> {
    let path = place_for(alloc, into, asked.place.path, file)?;
    let asked = Target {
        place: Location {
            path: path.as_str(),
            ..asked.place
        },
        ..*asked
    };
    rt.fetch(&asked, put_task_of(words, file))
}
