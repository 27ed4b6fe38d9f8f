// Which of several files go where.
ghost use Rattle.std.specs.Prelude.{◌≡◌, ◌<◌, ◌++◌, ◌∷◌, [], length, IfOk};
ghost use Rattle.tool_location.specs.Placing.{says_directory};

use clap::ArgMatches;
use std::alloc::{AllocError, Global};
use std::io;
use tool_command::{BadValue, ErrorStream, PLACE_OPTION, UsageError, asked_of, is_matched};
use tool_job::{Target, Targets, source_of};
use tool_location::{Location, UrlPlace, is_url, last_part, place_for, says_directory};
use tool_session::Openings;

/// The places that `get` fetches, and where they go: the last of several words says it, if it is no URL. Where none does, each goes into the folder
/// where the program runs, which the empty text says.
pub(crate) fn sources_of<'a, 'b>(words: &'b [&'a str]) -> (&'b [&'a str], &'a str) {
    match words {
        [places @ .., target] if !places.is_empty() && !is_url(target) => (places, *target),
        _ => (words, ""),
    }
}

/// The files that `put` reads, and the place where they go: the last word. Fails where there are not both.
pub(crate) fn uploads_of<'a, 'b>(
    words: &'b [&'a str],
) -> Result<(&'b [&'a str], &'a str), UsageError<'a>>
    ensures { IfOk result (λ said. (words.entry.now ≡ said.0.now ++ (said.1 ∷ [])) × (0 < length said.0.now)) }
{
    match words {
        [files @ .., place] if !files.is_empty() => Ok((files, *place)),
        _ => Err(UsageError::Value(BadValue {
            option: PLACE_OPTION,
            value: words.first().copied().unwrap_or(""),
            wanted: "files are wanted, and after them the place where they go",
        })),
    }
}

/// Whether files of a pattern are fetched at one of the places, of which these are URLs.
pub(crate) fn is_any_matched<'a>(
    words: &'a ArgMatches<'_>,
    places: &[&'a str],
    urls: &'a [Option<UrlPlace>],
    openings: &'a Openings,
) -> bool {
    for (place, url) in places.iter().zip(urls.iter()) {
        if let Ok(asked) = asked_of(words, *place, url.as_ref(), openings, ErrorStream::Other) {
            if is_matched(words, asked.place) {
                return true;
            }
        }
    }
    false
}

/// Fails where nothing can be asked at one of the places, of which these are URLs, or where a file that is fetched into a folder has no name there.
pub(crate) fn check_places<'a>(
    words: &'a ArgMatches<'_>,
    places: &[&'a str],
    urls: &'a [Option<UrlPlace>],
    openings: &'a Openings,
    into: bool,
) -> Result<(), UsageError<'a>> {
    for (place, url) in places.iter().zip(urls.iter()) {
        let asked = asked_of(words, *place, url.as_ref(), openings, ErrorStream::Other)?;
        if into {
            check_name(*place, asked.place)?;
        }
    }
    Ok(())
}

/// Puts where each file goes that is fetched into a folder, of one place each. Fails where two places are of different files that would go under one name.
pub(crate) fn check_targets<'a>(
    alloc: Global,
    words: &'a ArgMatches<'_>,
    places: &[&'a str],
    urls: &'a [Option<UrlPlace>],
    openings: &'a Openings,
    folder: &str,
    targets: &Targets,
) -> Result<(), UsageError<'a>> {
    for (place, url) in places.iter().zip(urls.iter()) {
        let asked = asked_of(words, *place, url.as_ref(), openings, ErrorStream::Other)?;
        if is_matched(words, asked.place) {
            continue;
        }
        match claims(alloc, &asked, folder, targets) {
            Ok(true) => {}
            Ok(false) => return Err(overwrites(PLACE_OPTION, *place)),
            Err(_) => return Err(UsageError::Memory),
        }
    }
    Ok(())
}

/// Whether the file of a place may go into a folder by its own name.
fn claims(alloc: Global, asked: &Target<'_>, folder: &str, targets: &Targets) -> io::Result<bool> {
    let file = place_for(alloc, true, folder, asked.place.path)?;
    let source = source_of(alloc, asked)?;
    Ok(targets.claim(file.as_str(), source.as_str())?)
}

/// Fails where two files are different ones that would go under one name.
pub(crate) fn check_uploads<'a>(alloc: Global, files: &[&'a str]) -> Result<(), UsageError<'a>> {
    let targets = Targets::new(alloc);
    for file in files {
        match targets.claim(last_part(*file), *file) {
            Ok(true) => {}
            Ok(false) => return Err(overwrites("<FILE>...", *file)),
            Err(AllocError) => return Err(UsageError::Memory),
        }
    }
    Ok(())
}

/// A word ends in the name in which one before it ends.
fn overwrites<'a>(option: &'a str, word: &'a str) -> UsageError<'a> {
    UsageError::Value(BadValue {
        option,
        value: word,
        wanted: "a word before it ends in the same name; will not overwrite just-created",
    })
}

fn check_name<'a>(word: &'a str, place: Location<'_>) -> Result<(), UsageError<'a>> {
    if place.name().is_empty() {
        return Err(UsageError::Value(BadValue {
            option: PLACE_OPTION,
            value: word,
            wanted: "a file's name is wanted, where the path ends in none",
        }));
    }
    Ok(())
}

/// Whether uploads go into the directory of a path, each by its file's name; fails where they have none there, or are several and that is no directory.
pub(crate) fn goes_into<'a>(path: &'a str, files: &[&'a str]) -> Result<bool, UsageError<'a>>
    ensures { IfOk result (λ into. into ≡ says_directory path.entry.now) }
{
    let into = says_directory(path);
    for file in files {
        if into && (*file == "-" || last_part(*file).is_empty()) {
            return Err(UsageError::Value(BadValue {
                option: "<FILE>...",
                value: *file,
                wanted: "a file's name is wanted, where the path is a directory's",
            }));
        }
    }
    if into || files.len() < 2 {
        return Ok(into);
    }
    Err(UsageError::Value(BadValue {
        option: PLACE_OPTION,
        value: path,
        wanted: "several files go into a directory: a path that ends in / is wanted",
    }))
}
