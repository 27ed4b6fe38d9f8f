// What goes between the standard streams.
use crate::words::{number_in, representation_in};
use clap::ArgMatches;
use tool_codec::{Direction, Representation};

/// What a command line asks for.
#[derive(Clone, Copy)]
pub enum CommandTask {
    /// Answers the octets of a control connection, at most `piece` at a time.
    Dialogue {
        piece: u32,
    },
    /// Writes the entry of each line, or its fault.
    Facts,
    /// Writes a file as the octets of a data connection, or reads it from them.
    Frame {
        form: Representation,
        direction: Direction,
    },
}

/// The task of words that the program knows; none where a value is none of its option.
pub fn task_of(matches: &ArgMatches<'_>) -> Option<CommandTask> {
    let (name, inner) = matches.subcommand()?;
    match name {
        "dialogue" => dialogue_of(inner),
        "facts" => Some(CommandTask::Facts),
        "frame" => frame_of(inner),
        _ => None,
    }
}

/// A dialogue, with the octets of a read as `--piece` says.
fn dialogue_of(words: &ArgMatches<'_>) -> Option<CommandTask> {
    let piece = number_in(words, "piece")?;
    Some(CommandTask::Dialogue { piece })
}

/// A file to its octets on a data connection or back, as its three letters and `--read` say.
fn frame_of(words: &ArgMatches<'_>) -> Option<CommandTask> {
    let form = representation_in(words)?;
    let direction = Direction::new(words.get_flag("read"), words.get_flag("marks"));
    Some(CommandTask::Frame { form, direction })
}
