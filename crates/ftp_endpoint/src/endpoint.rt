// Where a data connection goes, and the texts of it that commands and replies share.
ghost use Rattle.std.specs.Prelude.{◌≡◌, ◌↔◌, ℕ, List, [], ◌∷◌, IfSome, IfNone, IsTrue, MatchOption, Option, length};
ghost use Rattle.ftp_endpoint.specs.Endpoint.{BeginsWithPort, BeginsWithSix, ClosesWithPort, IsDelimiter, SaysSix};
ghost use Rattle.ftp_endpoint.specs.Number.{IsOctet, SaysOctet, behind_digits, front_digits};

use crate::decimal::{octet_in_front, port, split_digits};
use crate::host::Host;

/// Where a data connection goes: a host and a port there.
#[derive(Clone, Copy, Debug, PartialEq, Eq)]
pub struct Endpoint {
    pub host: Host,
    pub port: u16,
}

/// Reads `h1,h2,h3,h4,p1,p2` from the front of a text, and gives what is behind it (RFC 959, section 4.1.2).
/// Each number is a whole run of one to three digits, 0 to 255.
pub fn six_in_front(text: &[u8]) -> Option<(Endpoint, &[u8])>
    // Witness: law `endpoints_have_one_meaning`, six.
    ensures some { IfSome result (λ r. BeginsWithSix text.now r.0 r.1.now) }
    ensures none { IfNone result ((endpoint : Endpoint) (rest : List ℕ) → ¬ BeginsWithSix text.now endpoint rest) }
{
    let (h1, text) = octet_before(b',', text)?;
    let (h2, text) = octet_before(b',', text)?;
    let (h3, text) = octet_before(b',', text)?;
    let (h4, text) = octet_before(b',', text)?;
    let (p1, text) = octet_before(b',', text)?;
    let (p2, text) = octet_in_front(text)?;
    let endpoint = Endpoint {
        host: Host::V4([h1, h2, h3, h4]),
        port: 256 * u16::from(p1) + u16::from(p2),
    };
    Some((endpoint, text))
}

/// Reads the octet's number in front of a separator, and gives what is behind that.
pub(crate) fn octet_before(separator: u8, text: &[u8]) -> Option<(u8, &[u8])>
    ensures some { IfSome result (λ r. SaysOctet (front_digits text.now) r.0 × (behind_digits text.now ≡ separator ∷ r.1.now)) }
    ensures none { IfNone result ((next : List ℕ) → IsOctet (front_digits text.now) → ¬ (behind_digits text.now ≡ separator ∷ next)) }
{
    let (number, behind) = octet_in_front(text)?;
    let next = after(separator, behind)?;
    Some((number, next))
}

/// Reads six numbers, and nothing behind them: the argument of PORT.
pub fn six_numbers(text: &[u8]) -> Option<Endpoint>
    // Witness: law `endpoints_have_one_meaning`, six.
    ensures some { IfSome result (λ endpoint. SaysSix text.now endpoint) }
    ensures none { IfNone result ((endpoint : Endpoint) → ¬ SaysSix text.now endpoint) }
{
    let (endpoint, rest) = six_in_front(text)?;
    if rest.is_empty() {
        Some(endpoint)
    } else {
        None
    }
}

/// Whether an octet may stand between the parts of an extended address: 33 to 126, and no digit.
pub fn is_delimiter(octet: u8) -> bool
    // Witness: equation (a test, both ways).
    ensures { IsTrue result ↔ IsDelimiter octet }
{
    octet.is_ascii_graphic() && !octet.is_ascii_digit()
}

/// Reads the port of `(<d><d><d>port<d>)` from the front of a text (RFC 2428, section 3).
pub fn port_in_front(text: &[u8]) -> Option<u16>
    // Witness: law `endpoints_have_one_meaning`, port.
    ensures some { IfSome result (λ port. BeginsWithPort text.now port) }
    ensures none { IfNone result ((port : ℕ) → ¬ BeginsWithPort text.now port) }
{
    let text = after(b'(', text)?;
    let [d, ..] = text else {
        return None;
    };
    let d = *d;
    if !is_delimiter(d) {
        return None;
    }
    let text = after(d, text)?;
    let text = after(d, text)?;
    let text = after(d, text)?;
    closed_port(d, text)
}

// Reads the port in front of a delimiter and `)`.
fn closed_port(d: u8, text: &[u8]) -> Option<u16>
    requires { IsDelimiter d }
    ensures some { IfSome result (λ port. ClosesWithPort d text.now port) }
    ensures none { IfNone result ((port : ℕ) → ¬ ClosesWithPort d text.now port) }
{
    let (digits, behind) = split_digits(text);
    let behind = after(d, behind)?;
    after(b')', behind)?;
    port(digits)
}

/// What is behind the octet that a text has to begin with.
pub fn after(octet: u8, text: &[u8]) -> Option<&[u8]>
    // Witness: equation: the text is the octet and the rest.
    ensures some { IfSome result (λ rest. text.now ≡ octet ∷ rest.now) }
    ensures none { IfNone result ((rest : List ℕ) → ¬ (text.now ≡ octet ∷ rest)) }
{
    match text {
        [first, rest @ ..] if *first == octet => Some(rest),
        _ => None,
    }
}
