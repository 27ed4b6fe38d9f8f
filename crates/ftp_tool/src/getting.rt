// What `get` asks for: files of several places, and where they go.
use crate::asking::tell_undone;
use crate::at_once::Batch;
use crate::obeying::number_of;
use crate::programs::Programs;
use crate::refusing::refuse;
use crate::several::{check_places, check_targets, is_any_matched, sources_of};
use clap::ArgMatches;
use std::alloc::Global;
use std::io;
use std::io::Eprint;
use tool_command::{
    ErrorStream, PLACE_OPTION, UsageError, asked_of, each_got, get_task_of, is_matched,
    openings_of, urls_in,
};
use tool_get_put::FilePair;
use tool_job::{Target, Targets};
use tool_location::{UrlPlace, place_for, says_directory};
use tool_session::Openings;
use tool_terminal::Status;

/// Does what `get` asks for, file by file, each over a control connection of its own; the status is the worst.
pub(crate) fn get<R>(
    rt: &R,
    alloc: Global,
    words: &ArgMatches<'_>,
    errors: ErrorStream,
) -> io::Result<u8>
where
    R: Programs + Eprint,
{
    let (places, target) = sources_of(words.get_strs("places").unwrap_or(&[]));
    let openings = openings_of(words);
    let targets = Targets::new(alloc);
    let goal = Goal {
        openings: &openings,
        target,
        into: places.len() > 1 || says_directory(target) || rt.is_folder(target),
        errors,
        is_alone: places.len() < 2,
        targets: &targets,
    };
    match urls_in(alloc, PLACE_OPTION, places) {
        Ok(urls) => get_where(rt, alloc, words, places, urls.as_slice(), goal),
        Err(refusal) => refuse(rt, refusal),
    }
}

/// Downloads the files at places of which these are URLs, where all of them can be asked at.
fn get_where<'a, R: Programs + Eprint>(
    rt: &R,
    alloc: Global,
    words: &'a ArgMatches<'_>,
    places: &[&'a str],
    urls: &'a [Option<UrlPlace>],
    goal: Goal<'a>,
) -> io::Result<u8> {
    let into = goal.into || is_any_matched(words, places, urls, goal.openings);
    if let Err(refusal) = check_places(words, places, urls, goal.openings, into) {
        return refuse(rt, refusal);
    }
    match claim_all(alloc, words, places, urls, goal) {
        Ok(()) => number_of(get_all(rt, alloc, words, places, urls, Goal { into, ..goal })),
        Err(refusal) => refuse(rt, refusal),
    }
}

/// Puts where each of several files goes; fails where two of them would go under one name.
fn claim_all<'a>(
    alloc: Global,
    words: &'a ArgMatches<'_>,
    places: &[&'a str],
    urls: &'a [Option<UrlPlace>],
    goal: Goal<'a>,
) -> Result<(), UsageError<'a>> {
    if goal.is_alone {
        return Ok(());
    }
    check_targets(
        alloc,
        words,
        places,
        urls,
        goal.openings,
        goal.target,
        goal.targets,
    )
}

/// Where files go that are fetched, and by which commands data connections are asked for.
#[derive(Clone, Copy)]
struct Goal<'a> {
    openings: &'a Openings,
    target: &'a str,
    /// Whether they go into the target.
    into: bool,
    errors: ErrorStream,
    /// Whether one place alone is asked at.
    is_alone: bool,
    /// The names under which files go, where several places are asked at.
    targets: &'a Targets,
}

impl<'a> Goal<'a> {
    /// The names under which files go; none of one place alone.
    fn claimed(&self) -> Option<&'a Targets> {
        if self.is_alone {
            None
        } else {
            Some(self.targets)
        }
    }
}

/// Downloads files one after another, and gives the worst status.
fn get_all<'a, R: Programs + Eprint>(
    rt: &R,
    alloc: Global,
    words: &'a ArgMatches<'_>,
    places: &[&'a str],
    urls: &'a [Option<UrlPlace>],
    goal: Goal<'a>,
) -> io::Result<Status> {
    let mut worst = Status::Done;
    let mut until = None;
    let mut batch = Batch::new(alloc, each_got(words, goal.claimed()));
    for (place, url) in places.iter().zip(urls.iter()) {
        let Ok(asked) = asked_of(words, *place, url.as_ref(), goal.openings, goal.errors) else {
            return Ok(Status::BadWords);
        };
        let asked = asked.within(&mut until);
        let status = if asked.at_once > 1 && places.len() > 1 {
            get_at_once(rt, alloc, words, asked, goal, &mut batch)?
        } else {
            get_told(rt, alloc, words, &asked, goal, places.len())?
        };
        worst = worst.worse(status);
    }
    Ok(worst.worse(batch.done(rt)?))
}

/// Downloads one of so many, and tells which one it is that was not done.
fn get_told<R: Programs + Eprint>(
    rt: &R,
    alloc: Global,
    words: &ArgMatches<'_>,
    asked: &Target<'_>,
    goal: Goal<'_>,
    count: usize,
) -> io::Result<Status> {
    let status = get_one(rt, alloc, words, asked, goal)?;
    tell_undone(rt, status, count, "copied", asked.place.path)?;
    Ok(status)
}

/// Downloads a file with those before and behind it, over several control connections; the files of a pattern behind those before.
fn get_at_once<'a, R: Programs + Eprint>(
    rt: &R,
    alloc: Global,
    words: &ArgMatches<'_>,
    asked: Target<'a>,
    goal: Goal<'_>,
    batch: &mut Batch<'a>,
) -> io::Result<Status> {
    if is_matched(words, asked.place) {
        let before = batch.done(rt)?;
        return Ok(before.worse(get_told(rt, alloc, words, &asked, goal, 2)?));
    }
    let pair = FilePair {
        path: String::from_str(alloc, asked.place.path)?,
        file: place_for(alloc, goal.into, goal.target, asked.place.path)?,
    };
    batch.put(rt, asked, pair)
}

/// Downloads a file, into the target or to it; or the files of a pattern into the target.
fn get_one<R: Programs>(
    rt: &R,
    alloc: Global,
    words: &ArgMatches<'_>,
    asked: &Target<'_>,
    goal: Goal<'_>,
) -> io::Result<Status> {
    if is_matched(words, asked.place) {
        return rt.fetch(
            asked,
            get_task_of(words, asked.place, goal.target, goal.claimed()),
        );
    }
    let file = place_for(alloc, goal.into, goal.target, asked.place.path)?;
    rt.fetch(
        asked,
        get_task_of(words, asked.place, file.as_str(), goal.claimed()),
    )
}
