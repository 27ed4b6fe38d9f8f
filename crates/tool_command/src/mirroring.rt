// The subcommand `mirror`: its words.
use crate::help;
use crate::place::{host_in, location_in, user_in};
use crate::refusal::UsageError;
use crate::words::{
    ACTIVE, EXTENDED, LIMIT, LIMIT_RATE, MAX_TIME, NO_EXTENDED, PARALLEL, PASSWORD_FILE, QUIET,
    Subcommand, TIMEOUT, USER, ValueKind, Word, WordKind, at_once_in, chosen, how_of, limit_in,
    rate_in, text_in, timeout_in, until_in,
};
use clap::ArgMatches;
use tool_codec::representation_of;
use tool_files::Flush;
use tool_location::{Location, UrlPlace};
use tool_mirror::{ActionOutput, Doing, MirrorRequest};
use tool_mirror_plan::{Check, CopyDirection, Extra, Rules};
use tool_session::{Openings, ServerAddress};

/// The words of `mirror`.
pub const MIRROR: Subcommand<'static> = Subcommand {
    name: "mirror",
    about: "copies a tree of a server into a folder, or back",
    usage: None,
    help: help::MIRROR,
    words: &[
        Word {
            name: "source",
            kind: WordKind::NeededPlace(ValueKind::Name("SOURCE")),
            help: "what is copied: HOST:PORT/PATH, or a folder",
        },
        Word {
            name: "target",
            kind: WordKind::NeededPlace(ValueKind::Name("TARGET")),
            help: "where it is copied to: a folder, or HOST:PORT/PATH",
        },
        Word {
            name: "delete",
            kind: WordKind::Flag,
            help: "removes from TARGET what SOURCE has not, half of it at most",
        },
        Word {
            name: "delete-any",
            kind: WordKind::Flag,
            help: "the same, however much of TARGET that is",
        },
        Word {
            name: "dry-run",
            kind: WordKind::Flag,
            help: "writes what would be done, and changes nothing",
        },
        Word {
            name: "json",
            kind: WordKind::Flag,
            help: "writes an object of JSON for each copy, making and removal, in a line",
        },
        Word {
            name: "checksum",
            kind: WordKind::Flag,
            help: "compares the octets of files",
        },
        Word {
            name: "exclude",
            kind: WordKind::Many(ValueKind::Name("GLOB")),
            help: "leaves alone what meets it; may be given several times",
        },
    ],
};

/// The options behind them, of which others have some too.
pub fn mirror_options() -> &'static [Word<'static>] {
    OPTIONS
}

const OPTIONS: &[Word<'static>] = &[
    USER,
    PASSWORD_FILE,
    LIMIT,
    LIMIT_RATE,
    ACTIVE,
    EXTENDED,
    NO_EXTENDED,
    Word {
        name: "no-flush",
        kind: WordKind::Flag,
        help: "leaves it to the system when a file is on the disk",
    },
    Word {
        name: "progress",
        kind: WordKind::Flag,
        help: "tells of each file that is copied",
    },
    PARALLEL,
    QUIET,
    TIMEOUT,
    MAX_TIME,
];

/// What is mirrored, where these are the URLs that both places are, by data connections that are asked for so; exactly one is a server's.
pub fn mirror_of<'a>(
    words: &'a ArgMatches<'_>,
    from: Option<&'a UrlPlace>,
    to: Option<&'a UrlPlace>,
    openings: &'a Openings,
) -> Result<MirrorRequest<'a>, UsageError<'a>> {
    let settings = Settings {
        openings,
        timeout: timeout_in(words)?,
        until: until_in(words)?,
        rate: rate_in(words)?,
        at_once: at_once_in(words)?,
    };
    let source = text_in(words, "source");
    let target = text_in(words, "target");
    match (server_of(source, from), server_of(target, to)) {
        (Some(place), None) => {
            let place = host_in("<SOURCE>", source, place)?;
            mirrored(words, place, from, target, settings, CopyDirection::Down)
        }
        (None, Some(place)) => {
            let place = host_in("<TARGET>", target, place)?;
            mirrored(words, place, to, source, settings, CopyDirection::Up)
        }
        _ => Err(bad_target(target)),
    }
}

/// The place of a server that a word names: one that can't be a folder.
fn server_of<'a>(word: &'a str, url: Option<&'a UrlPlace>) -> Option<Location<'a>> {
    if word.starts_with('.') || word.starts_with('/') {
        return None;
    }
    location_in(word, url)
}

/// How a server is asked, whichever way is mirrored.
#[derive(Clone, Copy)]
struct Settings<'a> {
    openings: &'a Openings,
    timeout: u32,
    until: Option<u64>,
    rate: u64,
    at_once: u32,
}

/// A mirror between the place of a server and a folder, this way.
fn mirrored<'a>(
    words: &'a ArgMatches<'_>,
    place: Location<'a>,
    url: Option<&'a UrlPlace>,
    folder: &'a str,
    settings: Settings<'a>,
    way: CopyDirection,
) -> Result<MirrorRequest<'a>, UsageError<'a>> {
    let limit = limit_in(words)?;
    let Some(representation) = representation_of("I", "F", "S") else {
        return Err(UsageError::Number);
    };
    Ok(MirrorRequest {
        server: ServerAddress {
            host: place.host,
            port: place.port,
            timeout: settings.timeout,
            until: settings.until,
            progress: words.get_flag("progress"),
            rate: settings.rate,
            at_once: settings.at_once,
        },
        user: user_in(words, url),
        path: place.path,
        folder,
        how: how_of(words, representation),
        openings: settings.openings,
        rules: rules_of(words, way),
        excluded: words.get_strs("exclude").unwrap_or(&[]),
        flush: chosen(words, "no-flush", Flush::Later, Flush::First),
        limit,
        doing: chosen(words, "dry-run", Doing::Nothing, Doing::All),
        actions: chosen(words, "json", ActionOutput::Json, ActionOutput::Words),
        begun: 0,
    })
}

/// What is compared, and what becomes of what the source has not.
fn rules_of(words: &ArgMatches<'_>, way: CopyDirection) -> Rules {
    Rules {
        way,
        check: chosen(words, "checksum", Check::ByOctets, Check::ByFacts),
        extra: chosen(
            words,
            "delete-any",
            Extra::Any,
            chosen(words, "delete", Extra::Removed, Extra::Kept),
        ),
    }
}

/// Why neither place, or each, is a server's.
fn bad_target(target: &str) -> UsageError<'_> {
    UsageError::of(
        "<TARGET>",
        target,
        "one of SOURCE and TARGET is HOST:PORT/PATH, the other a folder, with / or ./ before it where it has a slash",
    )
}
