// Extended addresses (RFC 2428, section 2).
ghost use Rattle.std.specs.Prelude.{◌≡◌, ◌≢◌, ◌-◌, ◌<◌, ◌≤◌, ◌⊎◌, ℕ, List, [], ◌∷◌, ◌++◌, IfErr, IfNone, IfOk, IfSome, MatchBool, drop, false, length, slice_index};
ghost use Rattle.std.specs.Char.{is_ascii_digit};
ghost use Rattle.std.specs.Str.Parse.{AllDigits};
ghost use Rattle.ftp_endpoint.specs.Endpoint.{EndsWithPort, HasShape, IsDelimiter};
ghost use Rattle.ftp_endpoint.specs.Host.{RefusesExtended, SaysExtended, SaysHost, SaysV4};

use crate::decimal::{number, octet_in_front, port, split_digits};
use crate::endpoint::{Endpoint, after, is_delimiter, octet_before};
use crate::fault::EndpointFault;
use crate::host::{Host, v6};

/// Reads `<d>proto<d>address<d>port<d>`, the argument of EPRT: its shape first, then its protocol, then its address.
pub fn extended_endpoint(text: &[u8]) -> Result<Endpoint, EndpointFault>
    // Witness of ok: law `endpoints_have_one_meaning`, extended.
    ensures ok { IfOk result (λ endpoint. SaysExtended text.now endpoint) }
    // Witness of err: law `endpoints_have_one_meaning`, protocol: no two outcomes meet one text.
    ensures err { IfErr result (λ fault. RefusesExtended text.now fault) }
{
    let Some((proto, address, port)) = shape(text) else {
        return Err(EndpointFault::BadText);
    };
    if !is_known(proto) {
        return Err(EndpointFault::Protocol);
    }
    match host(proto, address) {
        Some(host) => Ok(Endpoint { host, port }),
        None => Err(EndpointFault::BadText),
    }
}

fn is_known(proto: u64) -> bool
    ensures { MatchBool result ((proto ≡ 1) ⊎ (proto ≡ 2)) ((proto ≢ 1) × (proto ≢ 2)) }
{
    proto == 1 || proto == 2
}

// The host that an address of this protocol is.
fn host(proto: u64, address: &[u8]) -> Option<Host>
    requires { (proto ≡ 1) ⊎ (proto ≡ 2) }
    ensures some { IfSome result (λ host. SaysHost proto address.now host) }
    ensures none { IfNone result ((host : Host) → ¬ SaysHost proto address.now host) }
{
    if proto == 1 {
        match v4(address) {
            Some(octets) => Some(Host::V4(octets)),
            None => None,
        }
    } else {
        match v6(address) {
            Some(octets) => Some(Host::V6(octets)),
            None => None,
        }
    }
}

// Four numbers joined by points.
fn v4(text: &[u8]) -> Option<[u8; 4]>
    ensures some { IfSome result (λ octets. SaysV4 text.now octets) }
    ensures none { IfNone result ((octets : List ℕ) → ¬ SaysV4 text.now octets) }
{
    let (a, text) = octet_before(b'.', text)?;
    let (b, text) = octet_before(b'.', text)?;
    let (c, text) = octet_before(b'.', text)?;
    let (d, rest) = octet_in_front(text)?;
    if rest.is_empty() {
        Some([a, b, c, d])
    } else {
        None
    }
}

// The protocol's number, the address and the port of an extended address.
fn shape(text: &[u8]) -> Option<(u64, &[u8], u16)>
    ensures some { IfSome result (λ r. HasShape text.now r.0 r.1.now r.2) }
    ensures none { IfNone result ((proto : ℕ) (address : List ℕ) (port : ℕ) → ¬ HasShape text.now proto address port) }
{
    let (d, rest) = first(text)?;
    if !is_delimiter(d) {
        return None;
    }
    let (digits, rest) = split_digits(rest);
    let proto = number(digits)?;
    let more = after(d, rest)?;
    let (address, port) = port_behind(d, more)?;
    Some((proto, address, port))
}

// The first octet, and what is behind it.
fn first(text: &[u8]) -> Option<(u8, &[u8])>
    ensures some { IfSome result (λ r. text.now ≡ r.0 ∷ r.1.now) }
    ensures none { IfNone result (text.now ≡ []) }
{
    match text {
        [first, rest @ ..] => Some((*first, rest)),
        [] => None,
    }
}

// The address, and the port between the last two delimiters.
fn port_behind(d: u8, text: &[u8]) -> Option<(&[u8], u16)>
    requires { IsDelimiter d }
    ensures some { IfSome result (λ r. EndsWithPort d text.now r.0.now r.1) }
    ensures none { IfNone result ((address : List ℕ) (port : ℕ) → ¬ EndsWithPort d text.now address port) }
{
    let front = before_last(d, text)?;
    let at = digits_behind(front);
    let (before, digits) = front.split_at(at);
    let address = before_last(d, before)?;
    let port = port(digits)?;
    Some((address, port))
}

// What is before the octet that a text has to end with.
fn before_last(octet: u8, text: &[u8]) -> Option<&[u8]>
    ensures some { IfSome result (λ front. text.now ≡ front.now ++ octet ∷ []) }
    ensures none { IfNone result ((front : List ℕ) → ¬ (text.now ≡ front ++ octet ∷ [])) }
{
    if text.is_empty() {
        return None;
    }
    let end = text.len() - 1;
    if text[end] != octet {
        return None;
    }
    let (front, _) = text.split_at(end);
    Some(front)
}

// Where the decimal digits at the end of a text begin.
fn digits_behind(text: &[u8]) -> usize
    ensures within { result ≤ length text.now }
    ensures all { AllDigits 10 (drop result text.now) }
    ensures stop { 0 < result → is_ascii_digit (slice_index text.now (result - 1)) ≡ false }
{
    let mut at = text.len();
    while 0 < at && text[at - 1].is_ascii_digit() {
        at -= 1;
    }
    at
}
