// A text as a host, a port and a path.
ghost use Rattle.std.specs.Prelude.{◌≡◌, ◌<◌, ◌∷◌, ◌++◌, ℕ, List, IfSome, IfNone};
ghost use Rattle.ftp_facts.specs.Fact.{Lacks};
ghost use Rattle.tool_location.specs.Location.{IsBareHost, IsBracketed, IsHostAndPort, Names, SaysPortBehind, SaysServer, left_bracket};
ghost use Rattle.tool_location.specs.Placing.{last_part};

use crate::placing::last_part;
use ftp_endpoint::port;

/// The port of a control connection where none is written (RFC 959, section 8).
const CONTROL_PORT: u16 = 21;

/// A file or a directory of a server.
#[derive(Clone, Copy)]
pub struct Location<'a> {
    /// An address or a name; not empty.
    pub host: &'a str,
    pub port: u16,
    /// What is sent to the server: all behind the first slash.
    pub path: &'a str,
}

impl<'a> Location<'a> {
    /// What the path ends in.
    pub fn name(&self) -> &'a str
        ensures { result.now ≡ last_part self.now.path.now }
    {
        last_part(self.path)
    }
}

/// The place that a text names: HOST/PATH or HOST:PORT/PATH, an IPv6 address in brackets; `None` where it names none.
pub fn place_of(text: &str) -> Option<Location<'_>>
    // Witness: law: `one_place`.
    ensures some { IfSome result (λ place. Names text.now place.host.now place.port place.path.now) }
    ensures none { IfNone result ((host : List ℕ) (port : ℕ) (path : List ℕ) → ¬ Names text.now host port path) }
{
    let (server, path) = cut_at(text, '/')?;
    let (host, port) = server_of(server)?;
    Some(Location { host, port, path })
}

/// The host and the port of a server's text.
fn server_of(text: &str) -> Option<(&str, u16)>
    ensures some { IfSome result (λ server. SaysServer text.now server.0.now server.1) }
    ensures none { IfNone result ((host : List ℕ) (port : ℕ) → ¬ SaysServer text.now host port) }
{
    let (host, port) = host_and_port(text)?;
    if host.is_empty() {
        return None;
    }
    Some((host, port))
}

/// The same, of a host that may be empty.
fn host_and_port(text: &str) -> Option<(&str, u16)>
    ensures some { IfSome result (λ server. IsHostAndPort text.now server.0.now server.1) }
    ensures none { IfNone result ((host : List ℕ) (port : ℕ) → ¬ IsHostAndPort text.now host port) }
{
    match text.strip_prefix('[') {
        Some(inside) => bracketed(inside),
        None => bare(text),
    }
}

/// The host that ends at the first closing bracket, and the port behind it.
fn bracketed(inside: &str) -> Option<(&str, u16)>
    ensures some { IfSome result (λ server. IsBracketed (left_bracket ∷ inside.now) server.0.now server.1) }
    ensures none { IfNone result ((host : List ℕ) (port : ℕ) → ¬ IsBracketed (left_bracket ∷ inside.now) host port) }
{
    let (host, behind) = cut_at(inside, ']')?;
    Some((host, port_behind(behind)?))
}

/// The port behind a host in brackets.
fn port_behind(text: &str) -> Option<u16>
    ensures some { IfSome result (λ port. SaysPortBehind text.now port) }
    ensures none { IfNone result ((port : ℕ) → ¬ SaysPortBehind text.now port) }
{
    match text.as_bytes() {
        [] => Some(CONTROL_PORT),
        [b':', digits @ ..] => port(digits),
        _ => None,
    }
}

/// The host that ends at the first colon, if there is one, and the port behind it.
fn bare(text: &str) -> Option<(&str, u16)>
    ensures some { IfSome result (λ server. IsBareHost text.now server.0.now server.1) }
    ensures none { IfNone result ((host : List ℕ) (port : ℕ) → ¬ IsBareHost text.now host port) }
{
    match cut_at(text, ':') {
        None => Some((text, CONTROL_PORT)),
        Some((host, digits)) => Some((host, port(digits.as_bytes())?)),
    }
}

/// What stands before the first such octet, and what follows it; `None` where it stands nowhere.
fn cut_at(text: &str, octet: char) -> Option<(&str, &str)>
    requires { octet < 128 }
    ensures some { IfSome result (λ parts. text.now ≡ parts.0.now ++ octet ∷ parts.1.now) }
    ensures first { IfSome result (λ parts. Lacks parts.0.now octet) }
    ensures none { IfNone result (Lacks text.now octet) }
{
    text.split_once(octet)
}
