// The subcommand `run`: its words.
use crate::help;
use crate::host::is_address;
use crate::numbers::server_port_of;
use crate::refusal::UsageError;
use crate::words::{
    PASSWORD_FILE, Subcommand, TIMEOUT, ValueKind, Word, WordKind, text_in, timeout_in,
};
use clap::ArgMatches;
use tool_login::User;
use tool_session::ServerAddress;

/// The words of `run`.
pub const RUN: Subcommand<'static> = Subcommand {
    name: "run",
    about: "does the script of operations of standard input at a server",
    usage: None,
    help: help::RUN,
    words: &[
        Word {
            name: "host",
            kind: WordKind::Needed(ValueKind::Name("A")),
            help: "the address of the server: four numbers with points between them, or IPv6",
        },
        Word {
            name: "port",
            kind: WordKind::Needed(ValueKind::Number("N", 1, 65_535)),
            help: "the port that it listens at, 1 to 65535",
        },
        Word {
            name: "user",
            kind: WordKind::Given(ValueKind::Text("U")),
            help: "who logs in; the script then has no line of a login",
        },
        PASSWORD_FILE,
        TIMEOUT,
    ],
};

/// The server that is asked; refused where a value is none of its option.
pub fn script_server_of<'a>(
    words: &'a ArgMatches<'_>,
) -> Result<ServerAddress<'a>, UsageError<'a>> {
    let host = text_in(words, "host");
    if !is_address(host) {
        return Err(UsageError::of(
            "--host <A>",
            host,
            "an address is wanted: four numbers from 0 to 255 with points between them, or IPv6 without a dotted tail",
        ));
    }
    let Some(port) = server_port_of(text_in(words, "port")) else {
        return Err(UsageError::Number);
    };
    Ok(ServerAddress {
        host,
        port,
        timeout: timeout_in(words)?,
        until: None,
        progress: false,
        rate: 0,
        at_once: 1,
    })
}

/// Who logs in, where the script does not say it; a file of a password wants a user whose it is.
pub fn script_user_of<'a>(words: &'a ArgMatches<'_>) -> Result<Option<User<'a>>, UsageError<'a>> {
    let password_file = words.get_str("password-file");
    match (words.get_str("user"), password_file) {
        (None, None) => Ok(None),
        (None, Some(file)) => Err(UsageError::of(
            "--password-file <F>",
            file,
            "--user is wanted too, which names whose password it is",
        )),
        (name, password_file) => Ok(Some(User {
            name,
            password_file,
            password: None,
            is_of_url: false,
        })),
    }
}
