// How long the line is that a command is written as (RFC 959, section 5.3).
ghost use Rattle.std.specs.Prelude.{◌≡◌, ◌≤◌, ◌^◌, decimal, length};
ghost use Rattle.ftp_command.specs.Line.{line_of, longest_text, passive_text, spaced, spaced_if, tail};
ghost use Rattle.ftp_endpoint.specs.Written.{six_text};

use ftp_command::{Argument, Command, LentText, Passive, Value, parts};
use ftp_endpoint::{Endpoint, write_extended, write_six};
use itoa::Buffer;
use std::alloc::Allocator;

/// How many octets the line of a command has, without its end. Takes no memory.
pub fn line_len<A: Allocator + Copy>(command: &Command<Argument<A>>) -> usize
    ensures { result ≡ length (line_of command.now) }
{
    let (verb, value) = parts(command);
    verb.letters().len() + tail_len(&value)
}

/// What is behind the verb.
fn tail_len(value: &Value<LentText<'_>>) -> usize
    ensures len { result ≡ length (tail value.now) }
    ensures short { result ≤ 2 ^ 63 }
{
    match value {
        Value::Name(text) | Value::Password(text) | Value::Words(text) | Value::Path(text) =>
            spaced_len(text),
        Value::WordsOrNone(text) | Value::PathOrNone(text) | Value::Listed(text) => given_len(text),
        Value::Nothing => 0,
        Value::Six(endpoint) => 1 + six_len(*endpoint),
        Value::Extended(endpoint) => 1 + write_extended(*endpoint).len(),
        Value::Family(family) => passive_len(*family),
        Value::Kind(_) | Value::Structure(_) | Value::Mode(_) => 2,
        Value::Number(number) => 1 + decimal_len(*number),
        Value::Sizes(octets, longest) => 1 + decimal_len(*octets) + longest_len(*longest),
    }
}

/// SP and a text, or nothing where it is empty.
fn spaced_len(text: &LentText<'_>) -> usize
    ensures len { result ≡ length (spaced text.now) }
    ensures short { result ≤ 2 ^ 63 }
{
    let count = text.octets().len();
    if count == 0 { 0 } else { count + 1 }
}

fn given_len(text: &Option<LentText<'_>>) -> usize
    ensures len { result ≡ length (spaced_if text.now) }
    ensures short { result ≤ 2 ^ 63 }
{
    match text {
        Some(text) => spaced_len(text),
        None => 0,
    }
}

/// The six numbers of an endpoint, or nothing for a host of IPv6.
fn six_len(endpoint: Endpoint) -> usize
    ensures len { result ≡ length (six_text endpoint) }
    ensures short { result ≤ 128 }
{
    match write_six(endpoint) {
        Some(text) => text.len(),
        None => 0,
    }
}

fn passive_len(family: Passive) -> usize
    ensures len { result ≡ length (passive_text family) }
    ensures short { result ≤ 4 }
{
    match family {
        Passive::Any => 0,
        Passive::Ipv4 | Passive::Ipv6 => 2,
        Passive::Only => 4,
    }
}

fn longest_len(longest: Option<u64>) -> usize
    ensures len { result ≡ length (longest_text longest) }
    ensures short { result ≤ 23 }
{
    match longest {
        Some(longest) => 3 + decimal_len(longest),
        None => 0,
    }
}

fn decimal_len(number: u64) -> usize
    ensures len { result ≡ length (decimal number) }
    ensures short { result ≤ 20 }
{
    let mut buffer = Buffer::new();
    buffer.format(number).as_bytes().len()
}
