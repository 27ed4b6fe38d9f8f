// `ls`: a listing is asked for, and goes to standard output.
use crate::listing::{ListingFormat, ListingLines, listing_of, pattern_listing_of};
use crate::pattern_place::parted;
use ftp_operation::Answer;
use ftp_reply::code::{NOT_IMPLEMENTED, UNKNOWN};
use std::alloc::Global;
use std::io;
use std::io::{Eprint, Print, Write};
use tool_connect::{Converses, Logins};
use tool_job::{Target, Wish, ask_for};
use tool_resume::tell;
use tool_session::{LastReply, Phase, SessionFault, at, say, told};
use tool_terminal::{Shown, Status};

/// What is told of lines that are no entries.
const SHOWN_AS_THEY_CAME: &str =
    "note: lines of the listing are no entries, and are shown as they came: ";

/// The same where a pattern is asked for.
const LEFT_OUT: &str = "note: lines of the listing are no entries, and are left out: ";

/// Lists a directory on standard output.
pub(crate) fn list<R>(
    rt: &R,
    alloc: Global,
    asked: &Target<'_>,
    lines: ListingFormat,
    last_reply: &mut LastReply,
) -> Result<Status, SessionFault>
where
    R: Converses + Logins + Print + Eprint,
{
    let answer = listed(rt, alloc, asked, last_reply)?;
    at(
        Phase::Report,
        show(rt, alloc, asked, lines, &answer, last_reply),
    )
}

/// Lists what a directory has whose name is of the pattern that the path ends in; status 1 where nothing is.
pub(crate) fn list_matching<R>(
    rt: &R,
    alloc: Global,
    asked: &Target<'_>,
    lines: ListingFormat,
    last_reply: &mut LastReply,
) -> Result<Status, SessionFault>
where
    R: Converses + Logins + Print + Eprint,
{
    let (dir, _) = parted(asked.place.path);
    let answer = listed(rt, alloc, &asked.at(dir), last_reply)?;
    at(
        Phase::Report,
        show_matching(rt, alloc, asked, lines, &answer, last_reply),
    )
}

/// The entries of a directory by MLSD or LIST, or its names by NLST where neither is known there (RFC 959, section 4.2.2).
fn listed<R>(
    rt: &R,
    alloc: Global,
    asked: &Target<'_>,
    last_reply: &mut LastReply,
) -> Result<Answer<Global>, SessionFault>
where
    R: Converses + Logins + Eprint,
{
    let listed = ask_for(rt, alloc, asked, Wish::Entries, last_reply);
    if !is_unknown(&listed) {
        return listed;
    }
    drop(listed);
    ask_for(rt, alloc, asked, Wish::Names, last_reply)
}

/// Whether the server does not know what was asked.
fn is_unknown(answered: &Result<Answer<Global>, SessionFault>) -> bool {
    match answered {
        Ok(answer) => says_unknown(answer),
        Err(_) => false,
    }
}

/// Whether an answer says so.
pub(crate) fn says_unknown(answer: &Answer<Global>) -> bool {
    matches!(answer, Answer::Refused(UNKNOWN | NOT_IMPLEMENTED))
}

/// Writes a listing to standard output, or tells why there is none.
fn show<R>(
    rt: &R,
    alloc: Global,
    asked: &Target<'_>,
    lines: ListingFormat,
    answer: &Answer<Global>,
    last_reply: &LastReply,
) -> io::Result<Status>
where
    R: Print + Eprint,
{
    let path = asked.place.path;
    match listing_of(alloc, path, lines, asked.openings.list_verb(), answer)? {
        Some(listing) => write(rt, listing, SHOWN_AS_THEY_CAME),
        None => tell(rt, path, asked.stranger(), answer, last_reply),
    }
}

/// Writes what is of the pattern, or tells why nothing is written.
fn show_matching<R>(
    rt: &R,
    alloc: Global,
    asked: &Target<'_>,
    lines: ListingFormat,
    answer: &Answer<Global>,
    last_reply: &LastReply,
) -> io::Result<Status>
where
    R: Print + Eprint,
{
    let path = asked.place.path;
    let (dir, pattern) = parted(path);
    let verb = asked.openings.list_verb();
    let Some(listing) = pattern_listing_of(alloc, dir, pattern.as_bytes(), lines, verb, answer)?
    else {
        return tell(rt, path, asked.stranger(), answer, last_reply);
    };
    let is_none = listing.lines.is_empty();
    let status = write(rt, listing, LEFT_OUT)?;
    if !is_none {
        return Ok(status);
    }
    told(
        rt,
        "error: ",
        &Shown(path.as_bytes()),
        ": nothing there is of this pattern; with --no-glob it is a name",
        Status::Refused,
    )
}

/// Writes a listing to standard output, and tells how much of it is left out; `odd` is told of lines that are no entries.
fn write<R: Print + Eprint>(rt: &R, listing: ListingLines, odd: &str) -> io::Result<Status> {
    io::writer(rt).write_all(listing.lines.as_slice())?;
    if listing.left_out > 0 {
        let _told = say(
            rt,
            "note: names that are none of a single file are left out: ",
            &listing.left_out,
            "",
        );
    }
    if listing.odd > 0 {
        let _told = say(rt, odd, &listing.odd, "");
    }
    Ok(Status::Done)
}
