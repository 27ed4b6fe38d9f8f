// Words of a command line, as tables, and what `clap` makes of them.
ghost use Rattle.std.specs.Prelude.{◌≡◌, [], ℕ, List, None, Some, IfOk, OnErr, codes};
ghost use Rattle.clap.specs.Words.{first_value, found_of, one_text};
ghost use Rattle.tool_command.specs.ClientValues.{SaysOctetLimit, SaysRate};

use crate::client_values::{max_time_by, octet_limit_by, rate_by, timeout_by};
use crate::numbers::number_or;
use crate::refusal::UsageError;
use clap::builder::{ValueParser, ValueRange};
use clap::{Arg, ArgAction, ArgMatches, Command};
use ftp_operation::How;
use std::alloc::{AllocError, Global};
use tool_codec::{Representation, number_of, representation_of};
use tool_session::{Opening, Openings};
use tool_sockets::monotonic_millis;
use tool_terminal::Verbosity;

/// The letters of types (RFC 959, section 5.3.2).
pub const TYPE: ValueKind<'static> = ValueKind::One("A|I", &["A", "I"]);

/// Those of structures.
pub const STRU: ValueKind<'static> = ValueKind::One("F|R", &["F", "R"]);

/// Those of modes.
pub const MODE: ValueKind<'static> = ValueKind::One("S|B", &["S", "B"]);

/// The most that a number may be.
pub const MOST: u64 = 4_294_967_295;

/// For how many seconds a server may be silent, for all programs of a client.
pub const TIMEOUT: Word<'static> = Word {
    name: "timeout",
    kind: WordKind::Else(ValueKind::Number("SECONDS", 0, MOST), "60"),
    help: "ends a control connection whose server says, takes and sends nothing for so long; 0: never",
};

/// For how many seconds all may take, for all programs of a client that ask at a place.
pub const MAX_TIME: Word<'static> = Word {
    name: "max-time",
    kind: WordKind::Given(ValueKind::Number("SECONDS", 0, MOST)),
    help: "ends what is asked after so many seconds in all, over all control connections; 0, and without it: never",
};

/// Who logs in, for all programs of a client that ask at a place.
pub const USER: Word<'static> = Word {
    name: "user",
    kind: WordKind::Given(ValueKind::Text("U")),
    help: "who logs in; else whom a URL or .netrc names, and else anonymous",
};

/// Where its password is, for the same.
pub const PASSWORD_FILE: Word<'static> = Word {
    name: "password-file",
    kind: WordKind::Given(ValueKind::Text("F")),
    help: "a file of mode 600 with the password",
};

/// Who opens the data connection, and by which commands, for the same.
pub const ACTIVE: Word<'static> = Word {
    name: "active",
    kind: WordKind::Flag,
    help: "the server opens the data connection",
};

/// That EPSV and EPRT alone are sent, for the same.
pub const EXTENDED: Word<'static> = Word {
    name: "extended",
    kind: WordKind::Flag,
    help: "data connections by EPSV and EPRT alone; else by PASV and PORT where the server does not know them",
};

/// That PASV and PORT alone are, for the same.
pub const NO_EXTENDED: Word<'static> = Word {
    name: "no-extended",
    kind: WordKind::Flag,
    help: "data connections over IPv4 by PASV and PORT alone",
};

/// What of standard error is told, for all programs of a client that ask at a place.
pub const QUIET: Word<'static> = Word {
    name: "quiet",
    kind: WordKind::Letter('q'),
    help: "tells errors alone: no progress, no notes, no summary",
};

/// The most octets of a file.
pub const LIMIT: Word<'static> = Word {
    name: "limit",
    kind: WordKind::Given(ValueKind::Number("OCTETS", 0, MOST_OCTETS)),
    help: "the most octets of a file; of one that is held in memory 1 GiB where none are said",
};

/// How fast a transfer may be.
pub const LIMIT_RATE: Word<'static> = Word {
    name: "limit-rate",
    kind: WordKind::Given(ValueKind::Name("OCTETS[K|M|G|T]")),
    help: "the most octets a second over a data connection, K, M, G and T are powers of 1,024; 0, and without it: no limit",
};

/// Over how many control connections at once.
pub const PARALLEL: Word<'static> = Word {
    name: "parallel",
    kind: WordKind::Else(ValueKind::Number("N", 1, 8), "1"),
    help: "how many control connections there are at once, 1 to 8",
};

/// The most octets that a file may be said to have.
const MOST_OCTETS: u64 = 999_999_999_999_999_999;

/// The name of a value, and what it has to be.
#[derive(Clone, Copy)]
pub enum ValueKind<'a> {
    /// Any text.
    Text(&'a str),
    /// Any text but the empty one.
    Name(&'a str),
    /// A number from the first to the second.
    Number(&'a str, u64, u64),
    /// One of these words.
    One(&'a str, &'a [&'a str]),
}

impl<'a> ValueKind<'a> {
    fn name(self) -> &'a str {
        match self {
            ValueKind::Text(name) | ValueKind::Name(name) => name,
            ValueKind::Number(name, _, _) => name,
            ValueKind::One(name, _) => name,
        }
    }

    fn parser(self) -> ValueParser<'a> {
        match self {
            ValueKind::Text(_) => ValueParser::String,
            ValueKind::Name(_) => ValueParser::NonEmptyString,
            ValueKind::Number(_, first, last) => ValueParser::Unsigned(first, last),
            ValueKind::One(_, words) => ValueParser::Names(words),
        }
    }
}

/// What a word of a command line is.
#[derive(Clone, Copy)]
pub enum WordKind<'a> {
    /// An option without a value.
    Flag,
    /// The same, which one letter says too.
    Letter(char),
    /// An option with a value.
    Given(ValueKind<'a>),
    /// An option with a value, which may be there several times.
    Many(ValueKind<'a>),
    /// An option that has to be there, with a value.
    Needed(ValueKind<'a>),
    /// An option with a value, and the value where it is not there.
    Else(ValueKind<'a>, &'a str),
    /// A word that is no option and has to be there.
    NeededPlace(ValueKind<'a>),
    /// Words that are no options, of which one has to be there; options may stand between them. Nothing comes after them: `clap` would take the last one
    /// before an option for what comes.
    NeededPlaces(ValueKind<'a>),
}

impl<'a> WordKind<'a> {
    /// What becomes of a value.
    fn action(self) -> ArgAction {
        match self {
            WordKind::Many(_) | WordKind::NeededPlaces(_) => ArgAction::Append,
            _ => ArgAction::Set,
        }
    }

    fn is_needed(self) -> bool {
        match self {
            WordKind::Needed(_) | WordKind::NeededPlace(_) | WordKind::NeededPlaces(_) => true,
            _ => false,
        }
    }
}

/// A word of a command line.
#[derive(Clone, Copy)]
pub struct Word<'a> {
    pub name: &'a str,
    pub kind: WordKind<'a>,
    pub help: &'a str,
}

/// A subcommand.
#[derive(Clone, Copy)]
pub struct Subcommand<'a> {
    pub name: &'a str,
    pub about: &'a str,
    /// How it is written, where that is not what `clap` makes of its words.
    pub usage: Option<&'a str>,
    pub help: &'a str,
    /// The words that it alone has.
    pub words: &'a [Word<'a>],
}

/// A subcommand with its words, and behind them options that others have too.
pub fn subcommand_of<'a>(
    alloc: Global,
    subcommand: Subcommand<'a>,
    options: &'a [Word<'a>],
) -> Result<Command<'a>, AllocError> {
    let mut args = Vec::new(alloc);
    put_args(alloc, &mut args, subcommand.words)?;
    put_args(alloc, &mut args, options)?;
    let command = Command::new(alloc, subcommand.name)
        .about(subcommand.about)
        .after_help(subcommand.help);
    match subcommand.usage {
        Some(usage) => command.override_usage(usage).args(args),
        None => command.args(args),
    }
}

/// Puts what `clap` makes of words behind those before.
fn put_args<'a>(
    alloc: Global,
    args: &mut Vec<Arg<'a>>,
    words: &'a [Word<'a>],
) -> Result<(), AllocError> {
    for word in words {
        args.push(arg_of(alloc, *word))?;
    }
    Ok(())
}

/// What `clap` makes of a word.
fn arg_of<'a>(alloc: Global, word: Word<'a>) -> Arg<'a> {
    match word.kind {
        WordKind::Flag => flag(alloc, word),
        WordKind::Letter(letter) => flag(alloc, word).short(letter),
        WordKind::Given(value) | WordKind::Many(value) | WordKind::Needed(value) => option(
            alloc, word, value,
        ),
        WordKind::Else(value, other) => option(alloc, word, value).default_value(other),
        WordKind::NeededPlace(value) => value_arg(alloc, word, value),
        WordKind::NeededPlaces(value) => {
            value_arg(alloc, word, value).num_args(ValueRange::from(1usize..))
        }
    }
}

/// An option without a value.
fn flag<'a>(alloc: Global, word: Word<'a>) -> Arg<'a> {
    Arg::new(alloc, word.name)
        .help(word.help)
        .long(word.name)
        .action(ArgAction::SetTrue)
}

/// An option with a value.
fn option<'a>(alloc: Global, word: Word<'a>, value: ValueKind<'a>) -> Arg<'a> {
    value_arg(alloc, word, value).long(word.name)
}

/// A word with a value, which is no option yet.
fn value_arg<'a>(alloc: Global, word: Word<'a>, value: ValueKind<'a>) -> Arg<'a> {
    Arg::new(alloc, word.name)
        .help(word.help)
        .value_name(value.name())
        .value_parser(value.parser())
        .action(word.kind.action())
        .required(word.kind.is_needed())
}

/// The first where an option without a value is there, and else the second.
pub fn chosen<T: Copy>(matches: &ArgMatches<'_>, option: &str, given: T, other: T) -> T
    // Witness: equations; `edits/an_option_that_is_given_is_not_heeded`.
    ensures given { one_text (found_of matches.now) option.now ≡ Some (codes "true") → result ≡ given }
    ensures other { one_text (found_of matches.now) option.now ≡ None → result ≡ other }
{
    if matches.get_flag(option) {
        given
    } else {
        other
    }
}

/// What of standard error is told by the subcommand of a command line: all, where it has no `--quiet`.
pub fn told_of(matches: &ArgMatches<'_>) -> Verbosity {
    match matches.subcommand() {
        Some((_, words)) => chosen(words, "quiet", Verbosity::Errors, Verbosity::All),
        None => Verbosity::All,
    }
}

/// The text that an option has; empty where it is not there.
pub fn text_in<'a>(matches: &'a ArgMatches<'_>, option: &str) -> &'a str
    // Witness: equations; `edits/no_option_has_a_text`.
    ensures some { (text : List ℕ) → first_value (found_of matches.now) option.now ≡ Some text
        → result.now ≡ text }
    ensures none { first_value (found_of matches.now) option.now ≡ None → result.now ≡ [] }
{
    match matches.get_str(option) {
        Some(text) => text,
        None => "",
    }
}

/// The number that an option has.
pub fn number_in(matches: &ArgMatches<'_>, option: &str) -> Option<u32> {
    number_of(text_in(matches, option))
}

/// The seconds of `--timeout`; refused where they are no number.
pub fn timeout_in<'a>(matches: &'a ArgMatches<'_>) -> Result<u32, UsageError<'a>> {
    timeout_by(text_in(matches, "timeout"))
}

/// Until when all is to be done, as `--max-time` says from now on, in milliseconds of the monotonic clock; none where it says none.
pub fn until_in<'a>(matches: &'a ArgMatches<'_>) -> Result<Option<u64>, UsageError<'a>> {
    let Some(seconds) = max_time_by(matches.get_str("max-time"))? else {
        return Ok(None);
    };
    let millis = u64::from(seconds) * 1_000;
    Ok(Some(monotonic_millis().saturating_add(millis)))
}

/// How many control connections there are at once, as `--parallel` says, and one where it is none of the options.
pub fn at_once_in<'a>(matches: &'a ArgMatches<'_>) -> Result<u32, UsageError<'a>> {
    match number_or(matches.get_str("parallel"), 1) {
        Some(count) => Ok(count),
        None => Err(UsageError::Number),
    }
}

/// How a transfer of this representation goes; by which commands its data connection is asked for is said by `openings_of`.
pub fn how_of(matches: &ArgMatches<'_>, representation: Representation) -> How {
    How {
        representation,
        marks: false,
        active: matches.get_flag("active"),
        extended: false,
    }
}

/// By which commands data connections are asked for.
pub fn openings_of(matches: &ArgMatches<'_>) -> Openings {
    let other = chosen(
        matches,
        "no-extended",
        Opening::Plain,
        Opening::ExtendedFirst,
    );
    Openings::new(chosen(matches, "extended", Opening::Extended, other))
}

/// The most octets that a file may have, as `--limit` says, and any number where it is not there; refused where they are no number.
pub fn limit_in<'a>(matches: &'a ArgMatches<'_>) -> Result<u64, UsageError<'a>>
    // Witness: equations; `edits/a_limit_of_octets_is_one_less`.
    ensures some { IfOk result (λ most.
        SaysOctetLimit (first_value (found_of matches.now) (codes "limit")) most) }
    ensures none { OnErr result ((most : ℕ)
        → ¬ SaysOctetLimit (first_value (found_of matches.now) (codes "limit")) most) }
{
    octet_limit_by(matches.get_str("limit"))
}

/// The most octets a second, as `--limit-rate` says, and 0 where it is not there; refused where they are no number.
pub fn rate_in<'a>(matches: &'a ArgMatches<'_>) -> Result<u64, UsageError<'a>>
    // Witness: equations; `edits/a_rate_that_is_said_is_not_heeded`.
    ensures some { IfOk result (λ rate.
        SaysRate (first_value (found_of matches.now) (codes "limit-rate")) rate) }
    ensures none { OnErr result ((rate : ℕ)
        → ¬ SaysRate (first_value (found_of matches.now) (codes "limit-rate")) rate) }
{
    rate_by(matches.get_str("limit-rate"))
}

/// Type, structure and mode, each by its letter.
pub fn representation_in(matches: &ArgMatches<'_>) -> Option<Representation> {
    representation_of(
        text_in(matches, "type"),
        text_in(matches, "stru"),
        text_in(matches, "mode"),
    )
}
