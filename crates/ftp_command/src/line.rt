// The line of a command, made on the stack: a line that is written has at most 1,024 octets.
ghost use Rattle.std.specs.Prelude.{◌≡◌, ◌+◌, ◌*◌, ◌/◌, ◌%◌, ◌^◌, ◌<◌, ◌≤◌, ◌++◌, ℕ, List, [], ◌∷◌, codes, decimal, length};
ghost use Rattle.ftp_command.specs.Line.{IsStatedValue, line_limit, longest_text, passive_text as passive_words, spaced, tail};
ghost use Rattle.ftp_command.specs.Verb.{letters};
ghost use Rattle.ftp_path.specs.Path.{IsPathText};
ghost use Rattle.ftp_endpoint.specs.Written.{IsV4, extended_text, six_text};

use crate::command::Passive;
use crate::text::LentText;
use crate::value::Value;
use crate::verb::Verb;
use arrayvec::ArrayVec;
use ftp_endpoint::{Endpoint, write_extended, write_six};
use ftp_settings::{Kind, Mode, Structure};
use itoa::Buffer;

/// The most octets that a line has on a control connection, its end included (own choice).
pub const LINE_LIMIT: usize = 1024;

type Line = ArrayVec<u8, LINE_LIMIT>;

/// The line of a verb and a value that one stands for.
pub(crate) fn line_of(verb: Verb, value: &Value<LentText<'_>>) -> Line
    requires { IsStatedValue value.now }
    ensures { result.items ≡ letters verb ++ tail value.now }
{
    let mut line = Line::new();
    put(verb.letters(), &mut line);
    put_tail(value, &mut line);
    line
}

// What is behind the verb: nothing, or SP and the argument.
fn put_tail(value: &Value<LentText<'_>>, line: &mut Line)
    requires stated { IsStatedValue value.now }
    requires room { length line.old.items ≤ 4 }
    ensures { line.new.items ≡ line.old.items ++ tail value.now }
{
    match value {
        Value::Name(text) => put_spaced(text.octets(), line),
        Value::Password(text) => put_spaced(text.octets(), line),
        Value::Words(text) => put_spaced(text.octets(), line),
        Value::WordsOrNone(Some(text)) => put_spaced(text.octets(), line),
        Value::Path(path) => put_path(path.octets(), line),
        Value::PathOrNone(Some(path)) => put_path(path.octets(), line),
        Value::Listed(Some(path)) => put_path(path.octets(), line),
        Value::Six(endpoint) => put_six(*endpoint, line),
        Value::Extended(endpoint) => put_extended(*endpoint, line),
        Value::Family(family) => put(passive_text(*family), line),
        Value::Kind(Kind::Ascii) => put(b" A", line),
        Value::Kind(Kind::Image) => put(b" I", line),
        Value::Structure(Structure::File) => put(b" F", line),
        Value::Structure(Structure::Record) => put(b" R", line),
        Value::Mode(Mode::Stream) => put(b" S", line),
        Value::Mode(Mode::Block) => put(b" B", line),
        Value::Number(number) => {
            put(b" ", line);
            put_decimal(*number, line);
        }
        Value::Sizes(octets, longest) => put_sizes(*octets, *longest, line),
        Value::WordsOrNone(None) | Value::PathOrNone(None) | Value::Listed(None) => {}
        Value::Nothing => {}
    }
}

fn passive_text(passive: Passive) -> &'static [u8]
    ensures text { result.now ≡ passive_words passive }
    ensures short { length result.now ≤ 4 }
{
    match passive {
        Passive::Any => b"",
        Passive::Ipv4 => b" 1",
        Passive::Ipv6 => b" 2",
        Passive::Only => b" ALL",
    }
}

fn put_sizes(octets: u64, longest: Option<u64>, line: &mut Line)
    requires { length line.old.items ≤ 4 }
    ensures { line.new.items ≡ line.old.items ++ (codes " " ++ (decimal octets ++ longest_text longest)) }
{
    put(b" ", line);
    put_decimal(octets, line);
    if let Some(longest) = longest {
        put(b" R ", line);
        put_decimal(longest, line);
    }
}

// SP and a path.
fn put_path(path: &[u8], line: &mut Line)
    requires path { IsPathText path.now }
    requires room { length line.old.items ≤ 4 }
    ensures { line.new.items ≡ line.old.items ++ spaced path.now }
{
    put_spaced(path, line)
}

// SP and a text, or nothing where it is empty.
fn put_spaced(text: &[u8], line: &mut Line)
    requires { length line.old.items + length text.now + 1 ≤ line_limit }
    ensures { line.new.items ≡ line.old.items ++ spaced text.now }
{
    if !text.is_empty() {
        put(b" ", line);
        put(text, line);
    }
}

fn put(text: &[u8], line: &mut Line)
    requires { length line.old.items + length text.now ≤ line_limit }
    ensures { line.new.items ≡ line.old.items ++ text.now }
{
    line.try_extend_from_slice(text).unwrap()
}

fn put_decimal(number: u64, line: &mut Line)
    requires { length line.old.items + 20 ≤ line_limit }
    ensures text { line.new.items ≡ line.old.items ++ decimal number }
    ensures bound { length line.new.items ≤ length line.old.items + 20 }
{
    let mut buffer = Buffer::new();
    put(buffer.format(number).as_bytes(), line)
}

// SP and six numbers.
fn put_six(endpoint: Endpoint, line: &mut Line)
    requires v4 { IsV4 endpoint.host }
    requires room { length line.old.items ≤ 4 }
    ensures { line.new.items ≡ line.old.items ++ (codes " " ++ six_text endpoint) }
{
    put(b" ", line);
    if let Some(text) = write_six(endpoint) {
        put(text.as_slice(), line);
    }
}

// SP, a protocol, an address and a port.
fn put_extended(endpoint: Endpoint, line: &mut Line)
    requires { length line.old.items ≤ 4 }
    ensures { line.new.items ≡ line.old.items ++ (codes " " ++ extended_text endpoint) }
{
    put(b" ", line);
    put(write_extended(endpoint).as_slice(), line);
}
