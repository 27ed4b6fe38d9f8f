// The subcommand `serve`: its words.
use crate::help;
use crate::refusal::UsageError;
use crate::serve_values::{LimitWords, Scope, ServeWords, WaitWords, serving_by};
use crate::words::{MOST, Subcommand, ValueKind, Word, WordKind, chosen, text_in};
use clap::ArgMatches;
use tool_serve::{Input, Log, Others, Serving, Unserved};

/// How long something is waited for.
const SECONDS: ValueKind<'static> = ValueKind::Number("SECONDS", 0, MOST);

/// How much of something is served.
const AMOUNT: ValueKind<'static> = ValueKind::Text("N|any");

/// The words of `serve`.
pub const SERVE: Subcommand<'static> = Subcommand {
    name: "serve",
    about: "serves a folder to FTP clients",
    usage: None,
    help: help::SERVE,
    words: &[
        Word {
            name: "port",
            kind: WordKind::Needed(ValueKind::Number("N", 0, 65_535)),
            help: "the port to listen at, or 0 for one that the system chooses",
        },
        Word {
            name: "dir",
            kind: WordKind::Needed(ValueKind::Text("D")),
            help: "the folder",
        },
        Word {
            name: "sessions",
            kind: WordKind::Else(ValueKind::Text("K|forever"), "1"),
            help: "how many control connections are served; who is told that all places are taken is none",
        },
        Word {
            name: "host",
            kind: WordKind::Else(ValueKind::Text("A"), "127.0.0.1"),
            help: "the address to listen at, one of the loopback where --accounts is not given",
        },
        Word {
            name: "accounts",
            kind: WordKind::Given(ValueKind::Text("FILE")),
            help: "who may log in: a file of lines user:password:root or user:password:root:rights, its owner's alone",
        },
    ],
};

/// Its options behind them.
pub fn serve_options() -> &'static [Word<'static>] {
    OPTIONS
}

const OPTIONS: &[Word<'static>] = &[
    Word {
        name: "at-once",
        kind: WordKind::Given(ValueKind::Number("N", 1, 64)),
        help: "how many of them at once; else 1 where --sessions is a number, 32 where it is forever",
    },
    Word {
        name: "at-once-per-host",
        kind: WordKind::Given(ValueKind::Number("M", 1, 64)),
        help: "how many of these from one address; else one less, but one at least",
    },
    Word {
        name: "until-input-ends",
        kind: WordKind::Flag,
        help: "stops where standard input ends: nobody more is taken, and transfers are finished",
    },
    Word {
        name: "stop-file",
        kind: WordKind::Given(ValueKind::Text("PATH")),
        help: "stops once something stands at PATH, which is looked for each second: nobody more is taken, and transfers are finished",
    },
    Word {
        name: "finish",
        kind: WordKind::Else(SECONDS, "30"),
        help: "how long transfers may go on then",
    },
    Word {
        name: "log",
        kind: WordKind::Flag,
        help: "tells on standard error what sessions do, a line each",
    },
    Word {
        name: "log-format",
        kind: WordKind::Else(
            ValueKind::One("text|json|xferlog", &["text", "json", "xferlog"]),
            "text",
        ),
        help: "how --log tells it: in words, as JSON, or transfers of files alone, as the xferlog of wu-ftpd and vsftpd",
    },
    Word {
        name: "keep",
        kind: WordKind::Flag,
        help: "nobody else changes the folder: it is not looked at again before each command",
    },
    Word {
        name: "login",
        kind: WordKind::Given(SECONDS),
        help: "ends a control connection on which nobody logged in for so long; 0: never, also where --sessions is a number; else 30",
    },
    Word {
        name: "idle",
        kind: WordKind::Given(SECONDS),
        help: "ends one without a command and without an octet of a transfer for so long; 0: never, also where --sessions is a number; else 300",
    },
    Word {
        name: "idle-while-waited",
        kind: WordKind::Given(SECONDS),
        help: "the same while another client waits to be served; where --sessions is a number never, else 15",
    },
    Word {
        name: "session-while-waited",
        kind: WordKind::Given(SECONDS),
        help: "ends one, whatever its client does, once another client waits for so long; 0: never, also where --sessions is a number; else 60",
    },
    Word {
        name: "login-while-waited",
        kind: WordKind::Given(SECONDS),
        help: "the same where nobody logged in; else 10",
    },
    Word {
        name: "passive-ports",
        kind: WordKind::Else(ValueKind::Text("A-B"), "49152-65535"),
        help: "the ports of passive data connections, each tried in turn",
    },
    Word {
        name: "passive-address",
        kind: WordKind::Given(ValueKind::Text("A")),
        help: "the address that PASV names, of a server that clients reach by another one than its own",
    },
    Word {
        name: "skip",
        kind: WordKind::Flag,
        help: "leaves out at the start too what of the folder can't be served, and tells it",
    },
    Word {
        name: "most-octets",
        kind: WordKind::Given(AMOUNT),
        help: "the most octets of all files below an account's root together; K, M, G and T are powers of 1,024; else 64M",
    },
    Word {
        name: "most-of-a-file",
        kind: WordKind::Given(AMOUNT),
        help: "the most octets of a file; else 64M",
    },
    Word {
        name: "most-files",
        kind: WordKind::Given(AMOUNT),
        help: "the most files and directories below an account's root; else 16K",
    },
    Word {
        name: "any",
        kind: WordKind::Flag,
        help: "serves all that can be served: --skip, and any for each of these three that is not given",
    },
];

/// What is to be served; refused where a value is none of its option.
pub fn serving_of<'a>(words: &'a ArgMatches<'_>) -> Result<Serving<'a>, UsageError<'a>> {
    serving_by(ServeWords {
        host: text_in(words, "host"),
        port: text_in(words, "port"),
        dir: text_in(words, "dir"),
        sessions: text_in(words, "sessions"),
        at_once: words.get_str("at-once"),
        per_host: words.get_str("at-once-per-host"),
        input: chosen(words, "until-input-ends", Input::Stops, Input::Unread),
        stop_file: words.get_str("stop-file"),
        finish: text_in(words, "finish"),
        accounts: words.get_str("accounts"),
        log: chosen(words, "log", Log::Told, Log::Silent),
        log_format: text_in(words, "log-format"),
        others: chosen(words, "keep", Others::Keep, Others::Change),
        passive: text_in(words, "passive-ports"),
        passive_address: words.get_str("passive-address"),
        unserved: chosen(words, "skip", Unserved::LeaveOut, Unserved::Refuse),
        scope: chosen(words, "any", Scope::Any, Scope::Usual),
        waits: wait_words(words),
        limits: limit_words(words),
    })
}

/// The words that say for how long something is waited for.
fn wait_words<'a>(words: &'a ArgMatches<'_>) -> WaitWords<'a> {
    WaitWords {
        login: words.get_str("login"),
        idle: words.get_str("idle"),
        idle_while_waited: words.get_str("idle-while-waited"),
        session_while_waited: words.get_str("session-while-waited"),
        login_while_waited: words.get_str("login-while-waited"),
    }
}

/// The words that say how much is served.
fn limit_words<'a>(words: &'a ArgMatches<'_>) -> LimitWords<'a> {
    LimitWords {
        octets: words.get_str("most-octets"),
        of_a_file: words.get_str("most-of-a-file"),
        files: words.get_str("most-files"),
    }
}
