// The parameters of TYPE, STRU, MODE, EPRT, EPSV and ALLO.
ghost use Rattle.std.specs.Prelude.{◌≡◌, ◌≢◌, ◌↔◌, ℕ, List, IfErr, IfNone, IfOk, IfSome, IsTrue, Option};
ghost use Rattle.ftp_command.specs.Argument.{IsOtherFamily, IsOtherKind, IsOtherMode, IsOtherName, IsOtherStructure, SaysEbcdic, SaysKind, SaysLocal, SaysLongest, SaysMode, SaysPassive, SaysSizes, SaysStructure};
ghost use Rattle.ftp_command.specs.Decline.{Declines, DeclinesFamily};
ghost use Rattle.ftp_endpoint.specs.Host.{IsOtherProtocol, SaysExtended};
ghost use Rattle.ftp_command.specs.declared.command.Passive.{Passive};

use crate::command::Passive;
use crate::fault::CommandFault;
use ftp_endpoint::{Endpoint, EndpointFault, after, extended_endpoint, number, split_digits};
use ftp_settings::{Kind, Mode, Structure};

/// Reads the parameter of TYPE (RFC 959, section 4.1.2).
pub(crate) fn kind(text: &[u8]) -> Result<Kind, CommandFault>
    ensures ok { IfOk result (λ kind. SaysKind text.now kind) }
    ensures err { IfErr result (λ fault. Declines (SaysKind text.now) (IsOtherKind text.now) fault) }
{
    if is_ascii_name(text) {
        return Ok(Kind::Ascii);
    }
    if text.eq_ignore_ascii_case(b"I") {
        return Ok(Kind::Image);
    }
    match local_bits(text) {
        Some(8) => Ok(Kind::Image),
        Some(_) => Err(CommandFault::BadParameter),
        None if is_other_name(text) => Err(CommandFault::BadParameter),
        None => Err(CommandFault::BadArgument),
    }
}

fn is_ascii_name(text: &[u8]) -> bool
    ensures { IsTrue result ↔ SaysKind text.now Kind.Ascii }
{
    text.eq_ignore_ascii_case(b"A")
        || text.eq_ignore_ascii_case(b"A N")
        || text.eq_ignore_ascii_case(b"A T")
}

fn is_other_name(text: &[u8]) -> bool
    ensures { IsTrue result ↔ IsOtherName text.now }
{
    text.eq_ignore_ascii_case(b"A C") || text.eq_ignore_ascii_case(b"E") || is_ebcdic(text)
}

// The number behind L and SP.
fn local_bits(text: &[u8]) -> Option<u64>
    ensures some { IfSome result (λ bits. SaysLocal text.now bits) }
    ensures none { IfNone result ((bits : ℕ) → ¬ SaysLocal text.now bits) }
{
    let [letter, rest @ ..] = text else {
        return None;
    };
    if letter.to_ascii_lowercase() != b'l' {
        return None;
    }
    let digits = after(b' ', rest)?;
    number(digits)
}

// Whether a text is E, SP and a letter.
fn is_ebcdic(text: &[u8]) -> bool
    ensures { IsTrue result ↔ SaysEbcdic text.now }
{
    let [letter, rest @ ..] = text else {
        return false;
    };
    match after(b' ', rest) {
        Some([format]) => letter.to_ascii_lowercase() == b'e' && format.is_ascii_alphabetic(),
        _ => false,
    }
}

/// Reads the parameter of STRU.
pub(crate) fn structure(text: &[u8]) -> Result<Structure, CommandFault>
    ensures ok { IfOk result (λ structure. SaysStructure text.now structure) }
    ensures err { IfErr result (λ fault. Declines (SaysStructure text.now) (IsOtherStructure text.now) fault) }
{
    if text.eq_ignore_ascii_case(b"F") {
        Ok(Structure::File)
    } else if text.eq_ignore_ascii_case(b"R") {
        Ok(Structure::Record)
    } else if text.eq_ignore_ascii_case(b"P") {
        Err(CommandFault::BadParameter)
    } else {
        Err(CommandFault::BadArgument)
    }
}

/// Reads the parameter of MODE.
pub(crate) fn mode(text: &[u8]) -> Result<Mode, CommandFault>
    ensures ok { IfOk result (λ mode. SaysMode text.now mode) }
    ensures err { IfErr result (λ fault. Declines (SaysMode text.now) (IsOtherMode text.now) fault) }
{
    if text.eq_ignore_ascii_case(b"S") {
        Ok(Mode::Stream)
    } else if text.eq_ignore_ascii_case(b"B") {
        Ok(Mode::Block)
    } else if text.eq_ignore_ascii_case(b"C") {
        Err(CommandFault::BadParameter)
    } else {
        Err(CommandFault::BadArgument)
    }
}

/// Reads an extended address, the argument of EPRT (RFC 2428, section 2).
pub(crate) fn extended(text: &[u8]) -> Result<Endpoint, CommandFault>
    ensures ok { IfOk result (λ endpoint. SaysExtended text.now endpoint) }
    ensures err { IfErr result (λ fault. DeclinesFamily (SaysExtended text.now) (IsOtherProtocol text.now) fault) }
{
    match extended_endpoint(text) {
        Ok(endpoint) => Ok(endpoint),
        Err(EndpointFault::BadText) => Err(CommandFault::BadArgument),
        Err(EndpointFault::Protocol) => Err(CommandFault::Protocol),
    }
}

/// Reads the parameter of EPSV (RFC 2428, section 3).
pub(crate) fn passive(text: &[u8]) -> Result<Passive, CommandFault>
    ensures ok { IfOk result (λ passive. SaysPassive text.now passive) }
    ensures err { IfErr result (λ fault. DeclinesFamily (SaysPassive text.now) (IsOtherFamily text.now) fault) }
{
    if text.is_empty() {
        return Ok(Passive::Any);
    }
    if text.eq_ignore_ascii_case(b"ALL") {
        return Ok(Passive::Only);
    }
    match number(text) {
        Some(1) => Ok(Passive::Ipv4),
        Some(2) => Ok(Passive::Ipv6),
        Some(_) => Err(CommandFault::Protocol),
        None => Err(CommandFault::BadArgument),
    }
}

/// Reads the argument of ALLO: the octets, and perhaps the longest record.
pub(crate) fn sizes(text: &[u8]) -> Option<(u64, Option<u64>)>
    ensures some { IfSome result (λ r. SaysSizes text.now r.0 r.1) }
    ensures none { IfNone result ((octets : ℕ) (longest : Option ℕ) → ¬ SaysSizes text.now octets longest) }
{
    let (digits, rest) = split_digits(text);
    let octets = number(digits)?;
    if rest.is_empty() {
        return Some((octets, None));
    }
    let longest = longest(rest)?;
    Some((octets, Some(longest)))
}

// The number behind SP, R and SP.
fn longest(text: &[u8]) -> Option<u64>
    ensures some { IfSome result (λ n. SaysLongest text.now n) }
    ensures none { IfNone result ((n : ℕ) → ¬ SaysLongest text.now n) }
{
    let [letter, rest @ ..] = after(b' ', text)? else {
        return None;
    };
    if letter.to_ascii_lowercase() != b'r' {
        return None;
    }
    let digits = after(b' ', rest)?;
    number(digits)
}
