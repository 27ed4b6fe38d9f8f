ghost use Rattle.std.specs.Prelude.{◌≡◌, ◌<◌, ◌≤◌, ◌⊎◌, ℕ, length, slice_index, true, false};
ghost use Rattle.memchr.specs.Find.{is_byte2, is_byte3};

use crate::line::{CR, LF};
use crate::telnet::IAC;

/// How many octets stand in front of the first LF, CR or IAC, or in all.
pub(crate) fn plain_run(piece: &[u8]) -> usize
    ensures within { result ≤ length piece.now }
    ensures plain { (k : ℕ) → k < result → is_byte3 LF CR IAC (slice_index piece.now k) ≡ false }
    ensures stops { result < length piece.now → is_byte3 LF CR IAC (slice_index piece.now result) ≡ true }
{
    memchr::memchr3(LF, CR, IAC, piece).unwrap_or(piece.len())
}

/// How many octets stand in front of the first LF or IAC, or in all.
pub(crate) fn skipped_run(piece: &[u8]) -> usize
    ensures within { result ≤ length piece.now }
    ensures plain { (k : ℕ) → k < result → is_byte2 LF IAC (slice_index piece.now k) ≡ false }
    ensures stops { result < length piece.now
        → (slice_index piece.now result ≡ LF) ⊎ (slice_index piece.now result ≡ IAC) }
{
    memchr::memchr2(LF, IAC, piece).unwrap_or(piece.len())
}

/// How many octets stand in front of the first IAC, or in all.
pub(crate) fn run_before_command(piece: &[u8]) -> usize
    ensures within { result ≤ length piece.now }
    ensures plain { (k : ℕ) → k < result → slice_index piece.now k ≡ IAC → ⊥ }
    ensures stops { result < length piece.now → slice_index piece.now result ≡ IAC }
{
    memchr::memchr(IAC, piece).unwrap_or(piece.len())
}
