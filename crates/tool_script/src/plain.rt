// Octets that stand for themselves.
ghost use Rattle.std.specs.Prelude.{◌≡◌, ◌==◌, ◌&&◌, length};
ghost use Rattle.std.specs.List.{list_all};
ghost use Rattle.tool_script.specs.Field.{is_plain};

use std::simd::prelude::*;

/// How many octets are looked at at once.
pub(crate) const LANES: usize = 32;

/// Whether an octet stands for itself.
pub(crate) fn is_plain(octet: u8) -> bool
    ensures { result ≡ is_plain octet }
{
    33 <= octet && octet <= 126 && octet != b'\\'
}

/// Whether each octet does.
#[tactic(auto, using(crate::proofs::LaneLemmas::all_behind, crate::proofs::LaneLemmas::none_behind))]
pub(crate) fn are_plain(octets: &[u8]) -> bool
    ensures { result ≡ list_all is_plain octets.now }
{
    let mut rest = octets;
    while rest.len() >= LANES {
        let (front, behind) = rest.split_at(LANES);
        if !are_plain_in_lanes(front) {
            return false;
        }
        rest = behind;
    }
    are_plain_in_turn(rest)
}

/// The same of the octets of one vector.
pub(crate) fn are_plain_in_lanes(octets: &[u8]) -> bool
    requires { length octets.now ≡ LANES }
    ensures { result ≡ list_all is_plain octets.now }
{
    let lanes = u8x32::from_slice(octets);
    let low = lanes.simd_lt(u8x32::splat(33)).to_bitmask();
    let high = lanes.simd_gt(u8x32::splat(126)).to_bitmask();
    let slash = lanes.simd_eq(u8x32::splat(92)).to_bitmask();
    are_unmarked(low, high, slash)
}

/// Whether no lane is marked in any of three masks.
fn are_unmarked(low: u64, high: u64, slash: u64) -> bool
    ensures { result ≡ (low == 0 && high == 0 && slash == 0) }
{
    low == 0 && high == 0 && slash == 0
}

/// The same of a few octets.
fn are_plain_in_turn(octets: &[u8]) -> bool
    ensures { result ≡ list_all is_plain octets.now }
{
    octets.iter().all(|octet| is_plain(*octet))
}
