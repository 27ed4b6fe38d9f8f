// The subcommands of a client that ask at one place: their words.
use crate::help;
use crate::place::{host_in, location_in, user_in, wanted_of};
use crate::refusal::UsageError;
use crate::words::{
    ACTIVE, EXTENDED, LIMIT, LIMIT_RATE, MAX_TIME, MODE, NO_EXTENDED, PARALLEL, PASSWORD_FILE,
    QUIET, STRU, Subcommand, TIMEOUT, TYPE, USER, ValueKind, Word, WordKind, at_once_in, chosen,
    how_of, limit_in, rate_in, representation_in, text_in, timeout_in, until_in,
};
use clap::ArgMatches;
use ftp_operation::How;
use tool_get_put::{Each, ListingFormat, PlaceTask};
use tool_job::{DownloadJob, PartHandling, Simple, Target, Targets};
use tool_listing::is_pattern;
use tool_location::{Location, UrlPlace};
use tool_session::Openings;

/// The words of `get`.
pub const GET: Subcommand<'static> = Subcommand {
    name: "get",
    about: "downloads files from a server",
    usage: Some("ftp_tool get [OPTIONS] <HOST:PORT/PATH>... [FILE|FOLDER/]"),
    help: help::GET,
    words: &[
        Word {
            name: "places",
            kind: WordKind::NeededPlaces(ValueKind::Text("HOST:PORT/PATH")),
            help: "what is fetched, as a place or a URL; the last of several words is FILE or FOLDER/, where it goes",
        },
        Word {
            name: "keep",
            kind: WordKind::Flag,
            help: "keeps what came of a download that is not whole, in FILE.ftp-part",
        },
        Word {
            name: "continue",
            kind: WordKind::Flag,
            help: "goes on behind a part that was kept, and keeps what came",
        },
        Word {
            name: "moment",
            kind: WordKind::Flag,
            help: "the last change of FILE is at the server's moment of it",
        },
        LIMIT_RATE,
        PARALLEL,
        NO_GLOB,
    ],
};

/// The words of `put`.
pub const PUT: Subcommand<'static> = Subcommand {
    name: "put",
    about: "uploads files to a server",
    usage: Some("ftp_tool put [OPTIONS] <FILE>... <HOST:PORT/PATH>"),
    help: help::PUT,
    words: &[
        Word {
            name: "files",
            kind: WordKind::NeededPlaces(ValueKind::Name("FILE")),
            help: "what is read, - is standard input; the last word is HOST:PORT/PATH or a URL, where it goes",
        },
        LIMIT_RATE,
        PARALLEL,
        Word {
            name: "temp",
            kind: WordKind::Flag,
            help: "each file goes up as PATH.ftp-part, and gets its name once all is there",
        },
    ],
};

/// The words of `ls`.
pub const LS: Subcommand<'static> = Subcommand {
    name: "ls",
    about: "lists a directory or a file of a server",
    usage: None,
    help: help::LS,
    words: &[
        PLACE,
        Word {
            name: "long",
            kind: WordKind::Flag,
            help: "writes kind, size, moment and name in columns",
        },
        Word {
            name: "json",
            kind: WordKind::Flag,
            help: "writes an object of JSON for each entry, in a line",
        },
        NO_GLOB,
    ],
};

/// The words of `cat`.
pub const CAT: Subcommand<'static> = Subcommand {
    name: "cat",
    about: "writes a file of a server to standard output",
    usage: None,
    help: help::CAT,
    words: &[PLACE],
};

/// The words of `size`.
pub const SIZE: Subcommand<'static> = Subcommand {
    name: "size",
    about: "writes how many octets a file of a server has",
    usage: None,
    help: help::SIZE,
    words: &[PLACE],
};

/// The words of `rm`.
pub const RM: Subcommand<'static> = Subcommand {
    name: "rm",
    about: "removes files of a server",
    usage: None,
    help: help::RM,
    words: &[PLACES, PARALLEL, NO_GLOB],
};

/// The words of `mkdir`.
pub const MKDIR: Subcommand<'static> = Subcommand {
    name: "mkdir",
    about: "makes directories of a server",
    usage: None,
    help: help::MKDIR,
    words: &[
        PLACES,
        Word {
            name: "parents",
            kind: WordKind::Letter('p'),
            help: "makes those above it too; one that stands is as well",
        },
    ],
};

/// The words of `rmdir`.
pub const RMDIR: Subcommand<'static> = Subcommand {
    name: "rmdir",
    about: "removes empty directories of a server",
    usage: None,
    help: help::RMDIR,
    words: &[PLACES],
};

/// The words of `mv`.
pub const MV: Subcommand<'static> = Subcommand {
    name: "mv",
    about: "gives a file or a directory of a server another path",
    usage: None,
    help: help::MV,
    words: &[
        PLACE,
        Word {
            name: "path",
            kind: WordKind::NeededPlace(ValueKind::Name("PATH")),
            help: "its path from then on, at the same server",
        },
    ],
};

/// The place of a subcommand that asks at one.
const PLACE: Word<'static> = Word {
    name: "place",
    kind: WordKind::NeededPlace(ValueKind::Text("HOST:PORT/PATH")),
    help: "the server, its port (21 where none is written), and the path there; or ftp://USER@HOST:PORT/PATH",
};

/// Those of one that asks at several.
const PLACES: Word<'static> = Word {
    name: "places",
    kind: WordKind::NeededPlaces(ValueKind::Text("HOST:PORT/PATH")),
    help: "the server, its port (21 where none is written), and the path there; or ftp://USER@HOST:PORT/PATH",
};

/// That a name which would be a pattern is none.
const NO_GLOB: Word<'static> = Word {
    name: "no-glob",
    kind: WordKind::Letter('g'),
    help: "takes * and ? in the last name of PATH as they stand",
};

/// The place, as the help has it.
pub const PLACE_OPTION: &str = "<HOST:PORT/PATH>";

/// The options that all of them have.
pub fn place_options() -> &'static [Word<'static>] {
    OPTIONS
}

const OPTIONS: &[Word<'static>] = &[
    USER,
    PASSWORD_FILE,
    ACTIVE,
    EXTENDED,
    NO_EXTENDED,
    Word {
        name: "progress",
        kind: WordKind::Flag,
        help: "tells how far a transfer is, each second; without it where standard error is a terminal",
    },
    QUIET,
    TIMEOUT,
    MAX_TIME,
    LIMIT,
    Word {
        name: "type",
        kind: WordKind::Else(TYPE, "I"),
        help: "",
    },
    Word {
        name: "stru",
        kind: WordKind::Else(STRU, "F"),
        help: "",
    },
    Word {
        name: "mode",
        kind: WordKind::Else(MODE, "S"),
        help: "",
    },
];

/// What standard error is.
#[derive(Clone, Copy)]
pub enum ErrorStream {
    /// A terminal, where progress is told.
    Terminal,
    /// Anything else, where it is told for `--progress` alone.
    Other,
}

/// What is asked at a place, which is this URL, if it is one, by data connections that are asked for so.
///
/// Fails where the place is none, or a value is none of its option.
pub fn asked_of<'a>(
    words: &'a ArgMatches<'_>,
    place: &'a str,
    url: Option<&'a UrlPlace>,
    openings: &'a Openings,
    errors: ErrorStream,
) -> Result<Target<'a>, UsageError<'a>> {
    let location = asked_at(place, url)?;
    let timeout = timeout_in(words)?;
    let until = until_in(words)?;
    let how = how_in(words)?;
    let limit = limit_in(words)?;
    let rate = rate_in(words)?;
    let at_once = at_once_in(words)?;
    Ok(Target {
        place: location,
        user: user_in(words, url),
        how,
        openings,
        timeout,
        until,
        progress: matches!(errors, ErrorStream::Terminal) || words.get_flag("progress"),
        rate,
        limit,
        at_once,
    })
}

/// The place that is asked at; refused where it is none.
fn asked_at<'a>(place: &'a str, url: Option<&'a UrlPlace>) -> Result<Location<'a>, UsageError<'a>> {
    match location_in(place, url) {
        Some(location) => host_in(PLACE_OPTION, place, location),
        None => Err(UsageError::of(PLACE_OPTION, place, wanted_of(place))),
    }
}

/// How a transfer goes; `clap` lets no other letters through than these.
fn how_in<'a>(words: &ArgMatches<'_>) -> Result<How, UsageError<'a>> {
    match representation_in(words) {
        Some(representation) => Ok(how_of(words, representation)),
        None => Err(UsageError::Number),
    }
}

/// What is done at a place that a subcommand of this name asks at.
pub fn fetch_task_of<'a>(
    name: &str,
    words: &'a ArgMatches<'_>,
    place: Location<'_>,
) -> Option<PlaceTask<'a>> {
    match name {
        "ls" => Some(list_task_of(words, place)),
        "cat" => Some(PlaceTask::Get(SHOWN)),
        "size" => Some(PlaceTask::Simple(Simple::Size)),
        "rm" => Some(remove_task_of(words, place)),
        "mkdir" => Some(chosen(
            words,
            "parents",
            PlaceTask::MakeDirectories,
            PlaceTask::Simple(Simple::MakeDirectory),
        )),
        "rmdir" => Some(PlaceTask::Simple(Simple::RemoveDirectory)),
        "mv" => Some(PlaceTask::Simple(Simple::Move(text_in(words, "path")))),
        _ => None,
    }
}

/// What `ls` does at a place.
fn list_task_of<'a>(words: &ArgMatches<'_>, place: Location<'_>) -> PlaceTask<'a> {
    let lines = lines_of(words);
    if is_matched(words, place) {
        PlaceTask::ListMatching(lines)
    } else {
        PlaceTask::List(lines)
    }
}

/// What `rm` does at a place.
fn remove_task_of<'a>(words: &ArgMatches<'_>, place: Location<'_>) -> PlaceTask<'a> {
    if is_matched(words, place) {
        PlaceTask::RemoveMatching
    } else {
        PlaceTask::Simple(Simple::Remove)
    }
}

/// What the lines of a listing are: of two options --json is meant.
fn lines_of(words: &ArgMatches<'_>) -> ListingFormat {
    let other = chosen(words, "long", ListingFormat::Long, ListingFormat::Facts);
    chosen(words, "json", ListingFormat::Json, other)
}

/// A download that goes to standard output.
const SHOWN: DownloadJob<'static> = DownloadJob {
    file: "-",
    parts: PartHandling::Dropped,
    moment: false,
    targets: None,
};

/// Whether what the directory of a place has is meant that is of a pattern: where the name that its path ends in is one, and `--no-glob` is not there.
pub fn is_matched(words: &ArgMatches<'_>, place: Location<'_>) -> bool {
    !words.get_flag("no-glob") && is_pattern(place.name().as_bytes())
}

/// What `get` does at a place, into a file; into a folder of that name, where files of a pattern are fetched. Those of the command line go to `targets`, where
/// there are several.
pub fn get_task_of<'a>(
    words: &ArgMatches<'_>,
    place: Location<'_>,
    file: &'a str,
    targets: Option<&'a Targets>,
) -> PlaceTask<'a> {
    let download = download_of(words, file, targets);
    if is_matched(words, place) {
        PlaceTask::GetMatching(download)
    } else {
        PlaceTask::Get(download)
    }
}

/// What `put` does at a place with a file.
pub fn put_task_of<'a>(words: &ArgMatches<'_>, file: &'a str) -> PlaceTask<'a> {
    chosen(
        words,
        "temp",
        PlaceTask::PutRenamed(file),
        PlaceTask::Put(file),
    )
}

/// What `get` does with each of several files.
pub fn each_got<'a>(words: &ArgMatches<'_>, targets: Option<&'a Targets>) -> Each<'a> {
    Each::Get {
        parts: parts_of(words),
        moment: words.get_flag("moment"),
        targets,
    }
}

/// The download of `get` into a file.
fn download_of<'a>(
    words: &ArgMatches<'_>,
    file: &'a str,
    targets: Option<&'a Targets>,
) -> DownloadJob<'a> {
    DownloadJob {
        file,
        parts: parts_of(words),
        moment: words.get_flag("moment"),
        targets,
    }
}

/// What becomes of the octets of a download that is not whole.
fn parts_of(words: &ArgMatches<'_>) -> PartHandling {
    if words.get_flag("continue") {
        PartHandling::Continued
    } else if words.get_flag("keep") {
        PartHandling::Kept
    } else {
        PartHandling::Dropped
    }
}
