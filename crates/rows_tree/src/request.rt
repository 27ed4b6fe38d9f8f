// The line of an operation.
use crate::accounts::text;
use crate::verb::TreeVerb;
use crate::words::split;
use ftp_facts::Text;
use ftp_operation::{How, ListVerb, Op};
use ftp_settings::{Kind, Mode, Representation, Structure};
use rows_base::number;
use std::alloc::Allocator;

/// What stands behind a verb: a path, a number, a second text, and how octets go.
#[derive(Clone, Copy)]
struct VerbArguments<'a> {
    path: &'a [u8],
    number: u64,
    other: &'a [u8],
    how: How,
}

fn request_of(verb: TreeVerb, words: &[u8]) -> VerbArguments<'_> {
    let (path, rest) = split(words);
    let (count, rest) = if has_number(verb) {
        split(rest)
    } else {
        (words, rest)
    };
    let (other, rest) = if has_other(verb) {
        split(rest)
    } else {
        (b"".as_slice(), rest)
    };
    VerbArguments {
        path,
        number: number(count),
        other,
        how: how_of(rest),
    }
}

fn has_number(verb: TreeVerb) -> bool {
    matches!(verb, TreeVerb::PutFrom | TreeVerb::GetFrom | TreeVerb::Peek)
}

fn has_other(verb: TreeVerb) -> bool {
    matches!(
        verb,
        TreeVerb::Rename | TreeVerb::Put | TreeVerb::Append | TreeVerb::PutFrom
    )
}

/// By its letter: `A` is type A and `B` the same in block mode, `R` is image in records; any other is image in a file. All but `B` are in stream mode.
fn how_of(letter: &[u8]) -> How {
    let is_block = is(letter, b"B");
    How {
        representation: Representation {
            kind: if is_block || is(letter, b"A") {
                Kind::Ascii
            } else {
                Kind::Image
            },
            structure: if is(letter, b"R") {
                Structure::Record
            } else {
                Structure::File
            },
            mode: if is_block { Mode::Block } else { Mode::Stream },
        },
        marks: false,
        active: false,
        extended: false,
    }
}

fn is(word: &[u8], other: &[u8]) -> bool {
    word == other
}

/// The operation of a verb with the words behind it.
pub fn operation<A: Allocator + Copy>(alloc: A, verb: TreeVerb, words: &[u8]) -> Op<Text<A>> {
    let asked = request_of(verb, words);
    let path = asked.path;
    match verb {
        TreeVerb::Where => Op::Where,
        TreeVerb::ChangeDir => Op::ChangeDir(text(alloc, path)),
        TreeVerb::Up => Op::Up,
        TreeVerb::MakeDir => Op::MakeDir(text(alloc, path)),
        TreeVerb::RemoveDir => Op::RemoveDir(text(alloc, path)),
        TreeVerb::Delete => Op::Delete(text(alloc, path)),
        TreeVerb::Rename => Op::Rename(text(alloc, path), text(alloc, asked.other)),
        TreeVerb::Put => Op::Put(text(alloc, path), text(alloc, asked.other), asked.how),
        TreeVerb::Append => Op::Append(text(alloc, path), text(alloc, asked.other), asked.how),
        TreeVerb::PutFrom => Op::PutFrom(
            text(alloc, path),
            asked.number,
            text(alloc, asked.other),
            asked.how,
        ),
        TreeVerb::Get => Op::Get(text(alloc, path), asked.how),
        TreeVerb::GetFrom => Op::GetFrom(text(alloc, path), asked.number, asked.how),
        TreeVerb::Peek => Op::Peek(text(alloc, path), asked.number, asked.how),
        TreeVerb::Size => Op::Size(text(alloc, path), asked.how),
        TreeVerb::Modified => Op::Modified(text(alloc, path)),
        TreeVerb::Facts => Op::Facts(text(alloc, path)),
        TreeVerb::List => Op::List(text(alloc, path), asked.how),
        TreeVerb::Names => Op::Names(text(alloc, path), asked.how),
        TreeVerb::Mlsd => Op::Text(ListVerb::Mlsd, text(alloc, path), asked.how),
        TreeVerb::Lines => Op::Text(ListVerb::List, text(alloc, path), asked.how),
        TreeVerb::Nlst => Op::Text(ListVerb::Nlst, text(alloc, path), asked.how),
    }
}
