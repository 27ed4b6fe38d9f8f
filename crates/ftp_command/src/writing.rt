// Writing a command line.
ghost use Rattle.std.specs.Prelude.{◌≡◌, ◌⊎◌, ◌↔◌, ◌+◌, ◌*◌, ◌≤◌, ◌++◌, ◌==◌, IfErr, IsTrue, OnOk, Option, count_by, decimal, length};
ghost use Rattle.std.specs.List.{list_all};
ghost use Rattle.ftp_command.specs.Argument.{begins_with, trimmed};
ghost use Rattle.ftp_path.specs.Path.{IsPathText};
ghost use Rattle.ftp_command.specs.Line.{IsStatedValue, IfGiven, IfShort, IsListed, IsStated, IsWords, is_no_feed, line_of as line_text};
ghost use Rattle.ftp_endpoint.specs.Written.{IsV4};

use crate::argument::{begins_option, is_name, is_password, trim};
use crate::command::Command;
use crate::fault::CommandFault;
use crate::line::{LINE_LIMIT, line_of};
use crate::text::{Argument, LentText};
use crate::value::Value;
use crate::verb::parts;
use ftp_endpoint::{Host, NUMBER_LIMIT};
use ftp_path::is_path_text;
use std::alloc::Allocator;

/// Writes a command as a line without its end: the verb in capitals, and SP and the argument where there is one.
///
/// BadArgument: no line stands for the value, as a path of no octet, or a host of IPv6 in PORT. Memory: a growth was
/// refused. After either, `out` is as it was.
pub fn write<A: Allocator + Copy, B: Allocator + Copy>(
    command: &Command<Argument<A>>,
    out: &mut Vec<u8, B>,
) -> Result<(), CommandFault>
    // Witness of ok: equation: what is appended is `line_of`.
    ensures ok { OnOk result (IsStated command.now × (out.new.items ≡ out.old.items ++ line_text command.now)) }
    // Witness of refused, memory, kept: equation; laws `only_stated` and `round_trip`, carried: a command has a line just where it is stated.
    ensures refused { (¬ IsStated command.now) → result ≡ Err CommandFault.BadArgument }
    ensures memory { IsStated command.now → IfErr result (λ fault. fault ≡ CommandFault.Memory) }
    ensures kept { IfErr result (λ _. out.new.items ≡ out.old.items) }
{
    let (verb, value) = parts(command);
    if !is_stated_value(&value) {
        return Err(CommandFault::BadArgument);
    }
    let line = line_of(verb, &value);
    match out.extend_from_slice(line.as_slice()) {
        Ok(()) => Ok(()),
        Err(_) => Err(CommandFault::Memory),
    }
}

// Whether a line stands for a value.
fn is_stated_value(value: &Value<LentText<'_>>) -> bool
    ensures { IsTrue result ↔ IsStatedValue value.now }
{
    match value {
        Value::Name(name) => is_name(name.octets()),
        Value::Password(password) => is_password(password.octets()),
        Value::Words(words) => are_words(words.octets()),
        Value::WordsOrNone(Some(words)) => are_words(words.octets()),
        Value::Path(path) => is_path_text(path.octets()),
        Value::PathOrNone(Some(path)) => is_path_text(path.octets()),
        Value::Listed(Some(path)) => is_listed(path.octets()),
        Value::Six(endpoint) => matches!(endpoint.host, Host::V4(_)),
        Value::Extended(endpoint) => endpoint.port > 0,
        Value::Number(number) => *number < NUMBER_LIMIT,
        Value::Sizes(octets, None) => *octets < NUMBER_LIMIT,
        Value::Sizes(octets, Some(longest)) => *octets < NUMBER_LIMIT && *longest < NUMBER_LIMIT,
        _ => true,
    }
}

// Whether a path is one that LIST would not take for an option.
fn is_listed(path: &[u8]) -> bool
    ensures { IsTrue result ↔ IsListed path.now }
{
    is_path_text(path) && !begins_option(path)
}

// Whether words fit a line of 1,024 octets behind a verb of four letters and SP.
fn are_words(words: &[u8]) -> bool
    ensures { IsTrue result ↔ IsWords words.now }
{
    if words.is_empty() || words.len() > LINE_LIMIT {
        return false;
    }
    is_trimmed(words) && has_no_feed(words) && words.len() + returns(words) + 7 <= LINE_LIMIT
}

// Whether words do not end with SP.
fn is_trimmed(words: &[u8]) -> bool
    ensures { IsTrue result ↔ (trimmed words.now ≡ words.now) }
{
    let front = trim(words);
    front.len() == words.len()
}

fn has_no_feed(words: &[u8]) -> bool
    ensures { result ≡ list_all is_no_feed words.now }
{
    words.iter().all(|c| *c != b'\n')
}

fn returns(words: &[u8]) -> usize
    ensures count { result ≡ count_by (λ c. c == 13) words.now }
    ensures within { result ≤ length words.now }
{
    words.iter().filter(|c| **c == b'\r').count()
}
