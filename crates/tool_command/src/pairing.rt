// The subcommand `pair`: its words.
use crate::help;
use crate::words::{MOST, Subcommand, ValueKind, Word, WordKind, number_in};
use clap::ArgMatches;
use tool_pair::PairSettings;

/// The words of `pair`.
pub const PAIR: Subcommand<'static> = Subcommand {
    name: "pair",
    about: "plays a script of operations between a client and a server over memory",
    usage: None,
    help: help::PAIR,
    words: &[
        Word {
            name: "piece",
            kind: WordKind::Else(ValueKind::Number("N", 0, MOST), "0"),
            help: "octets that go each way of each connection in a round, or 0 for all",
        },
        Word {
            name: "transcript",
            kind: WordKind::Flag,
            help: "writes the lines of the control connection before the reports",
        },
        Word {
            name: "roots",
            kind: WordKind::Flag,
            help: "guest is at /guest and anonymous at /pub, which are made at the start",
        },
    ],
};

/// How the script is played; none where a value is none of its option.
pub fn settings_of(words: &ArgMatches<'_>) -> Option<PairSettings> {
    Some(PairSettings {
        piece: number_in(words, "piece")?,
        transcript: words.get_flag("transcript"),
        roots: words.get_flag("roots"),
    })
}
