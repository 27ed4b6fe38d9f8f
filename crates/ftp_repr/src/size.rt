ghost use Rattle.std.specs.Prelude.{◌≡◌, ◌+◌, ◌≤◌, length, take, drop, if◌then◌else◌};
ghost use Rattle.ftp_repr.specs.Ascii.{asc, ascii_octet};
ghost use Rattle.ftp_repr.specs.Signs.{wire_row};

use crate::run::LANES;
use ftp_settings::Kind;
use std::simd::prelude::*;

/// How many octets these octets of a file are on the wire, in file structure and stream mode (RFC 959, section
/// 3.1.1.1). It takes no memory.
pub fn wire_size(kind: Kind, piece: &[u8]) -> u64
    // Witness: an equation; `edits/wire_size_counts_a_return_once`, `lanes_forget_the_rest`.
    ensures size { result ≡ length (wire_row kind piece.now) }
{
    match kind {
        Kind::Ascii => piece.len() as u64 + pairs(piece),
        Kind::Image => piece.len() as u64,
    }
}

/// How many of these octets go as two in type A.
fn pairs(piece: &[u8]) -> u64
    ensures count { length (asc piece.now) ≡ length piece.now + result }
    ensures within { result ≤ length piece.now }
{
    let mut count = 0u64;
    let mut at = 0;
    while piece.len() - at >= LANES {
        count += pairs_in_lanes(piece, at);
        at += LANES;
    }
    let (_, rest) = piece.split_at(at);
    count + pairs_one_by_one(rest)
}

/// The same of the octets of one vector.
fn pairs_in_lanes(piece: &[u8], at: usize) -> u64
    requires { at + LANES ≤ length piece.now }
    ensures count { length (asc (take LANES (drop at piece.now))) ≡ LANES + result }
    ensures within { result ≤ LANES }
{
    let lanes = u8x32::from_slice(&piece[at..]);
    let line_feeds = lanes.simd_eq(u8x32::splat(10)).to_bitmask();
    let returns = lanes.simd_eq(u8x32::splat(13)).to_bitmask();
    u64::from(line_feeds.count_ones()) + u64::from(returns.count_ones())
}

/// The same of a few octets.
fn pairs_one_by_one(piece: &[u8]) -> u64
    ensures count { length (asc piece.now) ≡ length piece.now + result }
    ensures within { result ≤ length piece.now }
{
    let mut count = 0u64;
    for at in 0..piece.len() {
        count += u64::from(is_pair(piece[at]));
    }
    count
}

/// Whether an octet goes as two in type A.
fn is_pair(octet: u8) -> bool
    ensures count { length (ascii_octet octet) ≡ (if result then 2 else 1) }
{
    matches!(octet, 10 | 13)
}
