//! The path between double quotes.
ghost use Rattle.std.specs.Prelude.{◌≡◌, ◌<◌, ◌⊎◌, ◌↔◌, List, ℕ, Some, None, option_map, length, IfOk, IfErr, IfSome, IfNone, IsErrOf};
ghost use Rattle.ftp_reply.specs.Lines.{joined};
ghost use Rattle.ftp_reply.specs.Values.{Closes, IsQuotedFront, path_value};

use crate::fault::ReplyFault;
use crate::reply::Reply;
use arrayvec::ArrayVec;
use ftp_facts::cut_at;
use ftp_path::{TEXT_LIMIT, is_path_text};
use std::alloc::Allocator;

/// What stands in front of a quoted text.
#[derive(Clone, Copy)]
enum Front<'a> {
    /// An octet of the path, and what is behind it.
    Octet(u8, &'a [u8]),
    /// The double quote that ends the path.
    End,
    /// Nothing: the path has no end.
    Nothing,
}

/// The path that the reply names: from the first double quote to the next that isn't doubled, a doubled one as one
/// (RFC 959, section 4.1.3 and appendix II), where that is a path text.
///
/// `NoPath` where nothing is quoted, or no path text is.
pub fn quoted_of<A: Allocator + Copy, B: Allocator + Copy>(
    alloc: B,
    reply: &Reply<A>,
) -> Result<Vec<u8, B>, ReplyFault>
    // Witness of ok, no_path: equation, equivalence.
    ensures ok { IfOk result (λ path. path_value (joined reply.now.lines) ≡ Some path.items) }
    ensures no_path { IsErrOf result ReplyFault.NoPath ↔ (path_value (joined reply.now.lines) ≡ None) }
    // Witness of faults: edit: `calls_want_of_memory_no_path`.
    ensures faults { IfErr result (λ fault. (fault ≡ ReplyFault.NoPath) ⊎ (fault ≡ ReplyFault.Memory)) }
{
    let Some(path) = path_text_in(reply.text()) else {
        return Err(ReplyFault::NoPath);
    };
    match Vec::from_slice(alloc, path.as_slice()) {
        Ok(path) => Ok(path),
        Err(_) => Err(ReplyFault::Memory),
    }
}

/// The path that a text names.
fn path_text_in(text: &[u8]) -> Option<ArrayVec<u8, TEXT_LIMIT>>
    ensures { option_map (λ path. path.items) result ≡ path_value text.now }
{
    let Some((_, inside)) = cut_at(text, b'"') else {
        return None;
    };
    let Some(path) = path_in(inside) else {
        return None;
    };
    if !is_path_text(path.as_slice()) {
        return None;
    }
    Some(path)
}

/// The path of a quoted text, up to its end; `None` where it has none, or none within the octets of a path text.
fn path_in(text: &[u8]) -> Option<ArrayVec<u8, TEXT_LIMIT>>
    ensures some { IfSome result (λ path. (behind : List ℕ) × Closes text.now path.items behind) }
    ensures none { IfNone result ((path behind : List ℕ) → Closes text.now path behind → TEXT_LIMIT < length path) }
{
    let mut path = ArrayVec::new();
    let mut rest = text;
    loop {
        match front_of(rest) {
            Front::Octet(octet, behind) => {
                if path.is_full() {
                    return None;
                }
                path.push(octet);
                rest = behind;
            }
            Front::End => return Some(path),
            Front::Nothing => return None,
        }
    }
}

/// The next octet of a path, or its end.
fn front_of(text: &[u8]) -> Front<'_>
    ensures { IsQuotedFront text.now result }
{
    match text {
        [b'"', b'"', behind @ ..] => Front::Octet(b'"', behind),
        [b'"', ..] => Front::End,
        [octet, behind @ ..] => Front::Octet(*octet, behind),
        [] => Front::Nothing,
    }
}
