// A text, cut at an octet.
ghost use Rattle.std.specs.Prelude.{◌≡◌, ◌<◌, ◌==◌, ◌∷◌, [], map, length, MatchOption, IfOk, IfSome};
ghost use Rattle.std.specs.List.{slice_split};

use memchr::memchr;
use std::alloc::{AllocError, Allocator};

/// What stands before, between and behind the octets of a text that are this one.
pub(crate) fn pieces_at<A: Allocator + Copy>(
    alloc: A,
    octet: u8,
    text: &[u8],
) -> Result<Vec<&[u8], A>, AllocError>
    ensures { IfOk result (λ pieces. map (λ piece. piece.now) pieces.items ≡ slice_split (λ other. other == octet) text.now) }
{
    let mut pieces = Vec::new(alloc);
    let mut rest = text;
    while let Some((piece, behind)) = first_piece(octet, rest) {
        pieces.push(piece)?;
        rest = behind;
    }
    pieces.push(rest)?;
    Ok(pieces)
}

/// What stands before the first octet of a text that is this one, and what stands behind it, where there is one.
fn first_piece(octet: u8, text: &[u8]) -> Option<(&[u8], &[u8])>
    ensures parts { MatchOption result (slice_split (λ other. other == octet) text.now ≡ text.now ∷ []) (λ parts. slice_split (λ other. other == octet) text.now ≡ parts.0.now ∷ slice_split (λ other. other == octet) parts.1.now) }
    ensures less { IfSome result (λ parts. length parts.1.now < length text.now) }
{
    let Some(at) = memchr(octet, text) else {
        return None;
    };
    let (piece, rest) = text.split_at(at);
    let (_, behind) = rest.split_at(1);
    Some((piece, behind))
}
