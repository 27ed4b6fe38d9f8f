// Which operations can be sent at all.
ghost use Rattle.std.specs.Prelude.{◌≡◌, ◌↔◌, IsTrue};
ghost use Rattle.ftp_path.specs.Path.{is_path_text};
ghost use Rattle.ftp_operation.specs.Operation.{can_be_sent, is_number, is_option, is_optional_text, may_be_listed};

use crate::op::{ListVerb, Op};
use ftp_endpoint::NUMBER_LIMIT;
use ftp_facts::Text;
use std::alloc::Allocator;

/// Whether an operation can be sent: its path texts are path texts (where one may be left out, none too), its number has at
/// most 18 digits, and the text that LIST and NLST get does not begin with `-`.
pub fn can_be_sent<A: Allocator + Copy>(op: &Op<Text<A>>) -> bool
    ensures { result ≡ can_be_sent op.now }
{
    match op {
        Op::Where | Op::Up => true,
        Op::ChangeDir(path)
        | Op::MakeDir(path)
        | Op::RemoveDir(path)
        | Op::Delete(path)
        | Op::Modified(path) => is_path_text(path.as_slice()),
        Op::Rename(from, to) => is_path_text(from.as_slice()) && is_path_text(to.as_slice()),
        Op::Put(path, _, _) | Op::Append(path, _, _) | Op::Get(path, _) | Op::Size(path, _) =>
            is_path_text(path.as_slice()),
        Op::PutFrom(path, number, _, _)
        | Op::GetFrom(path, number, _)
        | Op::Peek(path, number, _) => is_path_text(path.as_slice()) && is_number(*number),
        Op::Facts(path) | Op::List(path, _) => is_optional_text(path.as_slice()),
        Op::Names(path, _) => is_optional_text(path.as_slice()) && !is_option(path.as_slice()),
        Op::Text(verb, path, _) => may_be_listed(*verb, path.as_slice()),
    }
}

/// Whether a listing of a text can be asked for by a command.
fn may_be_listed(verb: ListVerb, text: &[u8]) -> bool
    ensures { result ≡ may_be_listed verb text.now }
{
    match verb {
        ListVerb::Mlsd => is_optional_text(text),
        ListVerb::List | ListVerb::Nlst => is_optional_text(text) && !is_option(text),
    }
}

fn is_path_text(text: &[u8]) -> bool
    ensures { result ≡ is_path_text text.now }
{
    ftp_path::is_path_text(text)
}

fn is_optional_text(text: &[u8]) -> bool
    ensures { result ≡ is_optional_text text.now }
{
    text.is_empty() || is_path_text(text)
}

fn is_option(text: &[u8]) -> bool
    ensures { result ≡ is_option text.now }
{
    text.starts_with(b"-")
}

/// Whether a number has at most 18 digits.
pub fn is_number(number: u64) -> bool
    ensures { result ≡ is_number number }
{
    number < NUMBER_LIMIT
}
