// Why a command line asks for nothing.
use std::alloc::AllocError;
use std::io;
use std::io::Eprint;
use tool_command::{BadValue, UsageError};
use tool_terminal::{Shown, Status};

/// Tells why the words of a command line ask for nothing.
pub(crate) fn refuse<R: Eprint>(rt: &R, refusal: UsageError<'_>) -> io::Result<u8> {
    match refusal {
        UsageError::Memory => return Err(AllocError.into()),
        UsageError::Value(bad) => tell_value(rt, bad)?,
        UsageError::Number => rt.eprintln("error: a number is decimal digits alone")?,
    }
    Ok(Status::BadWords.number())
}

/// Tells which value is none of its option.
fn tell_value<R: Eprint>(rt: &R, bad: BadValue<'_>) -> io::Result<()> {
    eprintln!(rt;
        "error: invalid value '{}' for '{}': {}\n\nFor more information, try '--help'.",
        Shown(bad.value.as_bytes()),
        bad.option,
        bad.wanted
    )
}
