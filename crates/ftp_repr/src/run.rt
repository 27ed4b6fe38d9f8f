ghost use Rattle.std.specs.Prelude.{◌==◌, ◌≤◌, length, take};
ghost use Rattle.ftp_repr.specs.Runs.{IsRun, is_changed};

use ftp_settings::{Kind, Structure};
use memchr::{memchr, memchr2};
use std::simd::prelude::*;

/// How many octets are looked at at once.
pub(crate) const LANES: usize = 32;

/// How many octets of a file stand before the first that does not go over the wire as itself, or all.
///
/// CR and LF change in type A, LF in records, and none else (RFC 959, sections 3.1.1.1 and 3.1.2.2).
pub fn plain_run(kind: Kind, structure: Structure, piece: &[u8]) -> usize
    // Witness: the law `laws::runs`; `edits/plain_run_goes_past_the_end_of_a_record`, `lanes_miss_a_return`, `first_escape_octet_is_missed`.
    ensures run { IsRun (is_changed kind structure) piece.now result }
{
    match (kind, structure) {
        (Kind::Ascii, _) => before_pair(piece),
        (Kind::Image, Structure::Record) => before_feed(piece),
        (Kind::Image, Structure::File) => piece.len(),
    }
}

/// How many octets stand before the first CR or LF, or all.
fn before_pair(piece: &[u8]) -> usize
    ensures run { IsRun (is_changed Kind.Ascii Structure.File) piece.now result }
{
    let mut at = 0;
    while piece.len() - at >= LANES {
        let (_, rest) = piece.split_at(at);
        let run = run_in_lanes(rest);
        if run < LANES {
            return at + run;
        }
        at += LANES;
    }
    let (_, rest) = piece.split_at(at);
    at + run_one_by_one(rest)
}

/// The same of the octets of one vector.
fn run_in_lanes(piece: &[u8]) -> usize
    requires { LANES ≤ length piece.now }
    ensures run { IsRun (is_changed Kind.Ascii Structure.File) (take LANES piece.now) result }
{
    let lanes = u8x32::from_slice(piece);
    let feed = lanes.simd_eq(u8x32::splat(10)).to_bitmask();
    let back = lanes.simd_eq(u8x32::splat(13)).to_bitmask();
    let first = feed.trailing_zeros().min(back.trailing_zeros());
    (first as usize).min(LANES)
}

/// The same of a few octets.
fn run_one_by_one(piece: &[u8]) -> usize
    ensures run { IsRun (is_changed Kind.Ascii Structure.File) piece.now result }
{
    match memchr2(10, 13, piece) {
        Some(place) => place,
        None => piece.len(),
    }
}

/// How many octets stand before the first LF, or all.
fn before_feed(piece: &[u8]) -> usize
    ensures run { IsRun (is_changed Kind.Image Structure.Record) piece.now result }
{
    match memchr(10, piece) {
        Some(place) => place,
        None => piece.len(),
    }
}

/// How many octets stand before the first CR, or all.
pub(crate) fn before_return(piece: &[u8]) -> usize
    ensures run { IsRun (λ c. c == 13) piece.now result }
{
    match memchr(13, piece) {
        Some(place) => place,
        None => piece.len(),
    }
}

/// How many octets stand before the first escape octet, 255, or all (RFC 959, section 3.4.1).
pub fn first_ff(piece: &[u8]) -> usize
    // Witness: as of `plain_run`.
    ensures run { IsRun (λ c. c == 255) piece.now result }
{
    match memchr(255, piece) {
        Some(place) => place,
        None => piece.len(),
    }
}
