// Uploads and downloads of `stdin`, a line each.
use crate::downloads::KnownBefore;
use crate::{downloads, uploads};
use ftp_operation::How;
use ftp_settings::{Kind, Mode, Representation, Structure};
use rows_base::{Paper, cut, found, split};
use std::io;
use tool_session::Opening;

const HOW: How = How {
    representation: Representation {
        kind: Kind::Image,
        structure: Structure::File,
        mode: Mode::Stream,
    },
    marks: false,
    active: false,
    extended: false,
};

/// An upload or a download.
#[derive(Clone, Copy)]
pub(crate) struct TransferRow<'a> {
    pub(crate) how: How,
    pub(crate) opening: Opening,
    /// What the server answers, a word each.
    pub(crate) told: &'a [u8],
    /// What it answers anew, again and again, behind the last of these.
    pub(crate) again: &'a [u8],
}

/// Puts what each line asks, and what comes of it.
pub(crate) fn rows(rt: &HostRuntime, paper: &mut Paper, lines: &[u8]) -> io::Result<()> {
    let mut rest = lines;
    for _ in 0..lines.len() {
        if rest.is_empty() {
            break;
        }
        let (line, behind) = cut(rest, b'\n');
        put(rt, paper, line)?;
        rest = behind;
    }
    Ok(())
}

const WORDS: &[(&'static [u8], KnownBefore)] = &[
    (b"dated", KnownBefore::Untold),
    (b"kept", KnownBefore::Kept(b"0123")),
    (b"planted", KnownBefore::Kept(b"01x3")),
    (b"listed", KnownBefore::Listed),
];

/// A line: `put`, `get`, `dated`, `kept`, `planted` or `listed`, the type, a name, and what the server answers.
fn put(rt: &HostRuntime, paper: &mut Paper, line: &[u8]) -> io::Result<()> {
    let (verb, rest) = split(line);
    let (kind, rest) = split(rest);
    let (name, rest) = cut(rest, b':');
    let (_, words) = split(rest);
    let (told, again) = cut(words, b'|');
    let row = TransferRow {
        how: how_of(kind),
        opening: opening_of(kind),
        told,
        again,
    };
    paper.put(name);
    paper.put(b":");
    if verb == b"put".as_slice() {
        uploads::put(rt, paper, row)
    } else {
        downloads::put(rt, paper, row, found(WORDS, verb, KnownBefore::Nothing))
    }
}

/// By which commands data connections are asked for: after the letter of a type `f` is EPSV first, `e` EPSV alone, and no letter PASV alone.
fn opening_of(kind: &[u8]) -> Opening {
    match kind.get(1) {
        Some(b'f') => Opening::ExtendedFirst,
        Some(b'e') => Opening::Extended,
        _ => Opening::Plain,
    }
}

/// How octets go in type A, or in type I.
fn how_of(kind: &[u8]) -> How {
    if !matches!(kind.first(), Some(b'A')) {
        return HOW;
    }
    How {
        representation: Representation {
            kind: Kind::Ascii,
            ..HOW.representation
        },
        ..HOW
    }
}
