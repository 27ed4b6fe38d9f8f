//! The numbers and moments that replies carry.
ghost use Rattle.std.specs.Prelude.{◌≡◌, ◌++◌, ◌∷◌, List, ℕ, option_map, IfErr, IfSome, IfNone, ◌≢◌, codes};
ghost use Rattle.std.specs.List.{list_all};
ghost use Rattle.std.specs.Result.{result_ok};
ghost use Rattle.ftp_settings.specs.Marker as marker;
ghost use Rattle.ftp_facts.specs.Moment.{moment_value};
ghost use Rattle.ftp_facts.specs.Value.{number_value};
ghost use Rattle.ftp_reply.specs.Lines.{joined};
ghost use Rattle.ftp_reply.specs.Values.{SaysMark, mark_value};
ghost use Rattle.ftp_reply.specs.Values as values;

use crate::fault::ReplyFault;
use crate::reply::Reply;
use ftp_endpoint::number;
use ftp_facts::{Moment, cut_at, moment_of_text};
use ftp_settings::{MARKER_LIMIT, is_marker_octet};
use std::alloc::Allocator;

/// The number that the text of a 213 reply is, 1 to 18 digits: octets of the transfer (RFC 3659, section 4).
///
/// `NoNumber` where the text is none. Takes no memory.
pub fn size_of<A: Allocator + Copy>(reply: &Reply<A>) -> Result<u64, ReplyFault>
    // Witness of value: equations (`laws::values` says what they are).
    ensures value { result_ok result ≡ number_value (joined reply.now.lines) }
    ensures fault { IfErr result (λ fault. fault ≡ ReplyFault.NoNumber) }
{
    match number(reply.text()) {
        Some(size) => Ok(size),
        None => Err(ReplyFault::NoNumber),
    }
}

/// The mmmm of `MARK yyyy = mmmm`, the text of a 110 reply, 1 to 18 digits (RFC 959, section 4.2).
///
/// `NoNumber` where the text has none. Takes no memory.
pub fn mark_of<A: Allocator + Copy>(reply: &Reply<A>) -> Result<u64, ReplyFault>
    // Witness of value: equations (`laws::values` says what they are).
    ensures value { result_ok result ≡ mark_value (joined reply.now.lines) }
    ensures fault { IfErr result (λ fault. fault ≡ ReplyFault.NoNumber) }
{
    match mark_in(reply.text()) {
        Some(mark) => Ok(mark),
        None => Err(ReplyFault::NoNumber),
    }
}

/// The moment that the text of a 213 reply is (RFC 3659, section 3).
///
/// `NoNumber` where the text is none. Takes no memory.
pub fn moment_of<A: Allocator + Copy>(reply: &Reply<A>) -> Result<Moment, ReplyFault>
    // Witness of value: equations (`laws::values` says what they are).
    ensures value { option_map (λ moment. moment.seconds) (result_ok result) ≡ moment_value (joined reply.now.lines) }
    ensures fault { IfErr result (λ fault. fault ≡ ReplyFault.NoNumber) }
{
    match moment_of_text(reply.text()) {
        Ok(moment) => Ok(moment),
        Err(_) => Err(ReplyFault::NoNumber),
    }
}

/// The mark that a text says.
fn mark_in(text: &[u8]) -> Option<u64>
    ensures some { IfSome result (λ mark. SaysMark text.now mark) }
    ensures none { IfNone result ((mark : ℕ) → ¬ SaysMark text.now mark) }
{
    let Some(rest) = behind_mark(text) else {
        return None;
    };
    let Some((theirs, behind)) = cut_at(rest, b' ') else {
        return None;
    };
    if !is_marker(theirs) {
        return None;
    }
    let Some(digits) = behind_sign(behind) else {
        return None;
    };
    match number(digits) {
        Some(mark) => Some(mark),
        None => None,
    }
}

/// What stands behind the word MARK and SP.
fn behind_mark(text: &[u8]) -> Option<&[u8]>
    ensures some { IfSome result (λ rest. text.now ≡ codes "MARK " ++ rest.now) }
    ensures none { IfNone result ((rest : List ℕ) → text.now ≢ codes "MARK " ++ rest) }
{
    match text {
        [b'M', b'A', b'R', b'K', b' ', rest @ ..] => Some(rest),
        _ => None,
    }
}

/// What stands behind '=' and SP.
fn behind_sign(text: &[u8]) -> Option<&[u8]>
    ensures some { IfSome result (λ rest. text.now ≡ codes "= " ++ rest.now) }
    ensures none { IfNone result ((rest : List ℕ) → text.now ≢ codes "= " ++ rest) }
{
    match text {
        [b'=', b' ', rest @ ..] => Some(rest),
        _ => None,
    }
}

/// Whether a text is a restart marker: 1 to 255 octets 33 to 126.
fn is_marker(text: &[u8]) -> bool
    ensures { result ≡ values.is_marker text.now }
{
    1 <= text.len() && text.len() <= MARKER_LIMIT && are_visible(text)
}

fn are_visible(text: &[u8]) -> bool
    ensures { result ≡ list_all marker.is_marker_octet text.now }
{
    text.iter().all(|octet| is_marker_octet(*octet))
}
