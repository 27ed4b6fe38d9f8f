// What an operation asks for (RFC 959, sections 3.1 to 3.5).
ghost use Rattle.std.specs.Prelude.{◌≡◌};
ghost use Rattle.ftp_client_model.specs.Plan.{asked_settings, count_of, how_of, listing_settings, offset_of};

use ftp_facts::Text;
use ftp_operation::{How, Op};
use ftp_settings::{Kind, Mode, Representation, Structure};
use std::alloc::Allocator;

/// How the octets of an operation go, where it has a transfer.
pub fn how_of<A: Allocator + Copy>(op: &Op<Text<A>>) -> Option<How>
    ensures { result ≡ how_of op.now }
{
    match op {
        Op::Put(_, _, how) | Op::Append(_, _, how) | Op::PutFrom(_, _, _, how) => Some(*how),
        Op::Get(_, how) | Op::GetFrom(_, _, how) | Op::Peek(_, _, how) => Some(*how),
        Op::List(_, how) | Op::Names(_, how) | Op::Text(_, _, how) => Some(*how),
        _ => None,
    }
}

/// The settings of a listing, in a mode: type A and file structure.
pub fn listing_settings(mode: Mode) -> Representation
    ensures { result ≡ listing_settings mode }
{
    Representation {
        kind: Kind::Ascii,
        structure: Structure::File,
        mode,
    }
}

/// The settings that an operation asks for, where it does. SIZE depends on the type, and is asked in file structure and stream
/// mode (RFC 3659, section 4).
pub fn asked_settings<A: Allocator + Copy>(op: &Op<Text<A>>) -> Option<Representation>
    ensures { result ≡ asked_settings op.now }
{
    match op {
        Op::List(_, how) | Op::Names(_, how) | Op::Text(_, _, how) => Some(listing_settings(
            how.representation.mode,
        )),
        Op::Size(_, how) => Some(Representation {
            kind: how.representation.kind,
            structure: Structure::File,
            mode: Mode::Stream,
        }),
        Op::Put(_, _, how) | Op::Append(_, _, how) | Op::PutFrom(_, _, _, how) => Some(
            how.representation,
        ),
        Op::Get(_, how) | Op::GetFrom(_, _, how) | Op::Peek(_, _, how) => Some(how.representation),
        _ => None,
    }
}

/// The offset of a transfer, where it has one.
pub fn offset_of<A: Allocator + Copy>(op: &Op<Text<A>>) -> Option<u64>
    ensures { result ≡ offset_of op.now }
{
    match op {
        Op::PutFrom(_, offset, _, _) | Op::GetFrom(_, offset, _) => Some(*offset),
        _ => None,
    }
}

/// How many first octets a Peek asks for.
pub fn count_of<A: Allocator + Copy>(op: &Op<Text<A>>) -> Option<u64>
    ensures { result ≡ count_of op.now }
{
    match op {
        Op::Peek(_, count, _) => Some(*count),
        _ => None,
    }
}
