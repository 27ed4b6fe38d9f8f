//! The endpoints that replies name.
ghost use Rattle.std.specs.Prelude.{◌≡◌, ◌≤◌, ℕ, IfErr, IfSome, IfNone, length};
ghost use Rattle.std.specs.Result.{result_ok};
ghost use Rattle.ftp_endpoint.specs.declared.endpoint.Endpoint.{Endpoint};
ghost use Rattle.ftp_reply.specs.Lines.{joined};
ghost use Rattle.ftp_reply.specs.Values.{HasPortAt, HasSixAt, extended_value, passive_value};

use crate::fault::ReplyFault;
use crate::reply::Reply;
use ftp_endpoint::{Endpoint, port_in_front, six_in_front};
use std::alloc::Allocator;

/// The endpoint that a 227 reply names: the first six numbers of 0 to 255 that stand joined by commas, each a whole
/// run of one to three digits, in parentheses or not (RFC 959, section 4.1.2; RFC 1123, section 4.1.2.6).
///
/// `NoEndpoint` where there are none. Takes no memory.
pub fn passive_of<A: Allocator + Copy>(reply: &Reply<A>) -> Result<Endpoint, ReplyFault>
    // Witness of value: equations (`laws::values` says what they are).
    ensures value { result_ok result ≡ passive_value (joined reply.now.lines) }
    ensures fault { IfErr result (λ fault. fault ≡ ReplyFault.NoEndpoint) }
{
    match six_in(reply.text()) {
        Some(endpoint) => Ok(endpoint),
        None => Err(ReplyFault::NoEndpoint),
    }
}

/// The port that a 229 reply names: that of the first `(<d><d><d>port<d>)` (RFC 2428, section 3).
///
/// `NoEndpoint` where there is none. Takes no memory.
pub fn extended_of<A: Allocator + Copy>(reply: &Reply<A>) -> Result<u16, ReplyFault>
    // Witness of value: equations (`laws::values` says what they are).
    ensures value { result_ok result ≡ extended_value (joined reply.now.lines) }
    ensures fault { IfErr result (λ fault. fault ≡ ReplyFault.NoEndpoint) }
{
    match port_in(reply.text()) {
        Some(port) => Ok(port),
        None => Err(ReplyFault::NoEndpoint),
    }
}

/// The endpoint of the first six numbers in a text.
fn six_in(text: &[u8]) -> Option<Endpoint>
    ensures { result ≡ passive_value text.now }
{
    for place in 0..text.len() + 1 {
        if let Some(endpoint) = six_at(text, place) {
            return Some(endpoint);
        }
    }
    None
}

/// The port of the first `(<d><d><d>port<d>)` in a text.
fn port_in(text: &[u8]) -> Option<u16>
    ensures { result ≡ extended_value text.now }
{
    for place in 0..text.len() + 1 {
        if let Some(port) = port_at(text, place) {
            return Some(port);
        }
    }
    None
}

/// The endpoint whose six numbers stand at the place.
fn six_at(text: &[u8], place: usize) -> Option<Endpoint>
    requires { place ≤ length text.now }
    ensures some { IfSome result (λ endpoint. HasSixAt text.now place endpoint) }
    ensures none { IfNone result ((endpoint : Endpoint) → ¬ HasSixAt text.now place endpoint) }
{
    if place > 0 && text[place - 1].is_ascii_digit() {
        return None;
    }
    let (_, rest) = text.split_at(place);
    match six_in_front(rest) {
        Some((endpoint, _)) => Some(endpoint),
        None => None,
    }
}

/// The port of `(<d><d><d>port<d>)` at the place.
fn port_at(text: &[u8], place: usize) -> Option<u16>
    requires { place ≤ length text.now }
    ensures some { IfSome result (λ port. HasPortAt text.now place port) }
    ensures none { IfNone result ((port : ℕ) → ¬ HasPortAt text.now place port) }
{
    let (_, rest) = text.split_at(place);
    match port_in_front(rest) {
        Some(port) => Some(port),
        None => None,
    }
}
