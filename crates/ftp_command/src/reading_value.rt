// Reading the argument of a command, by its shape.
ghost use Rattle.std.specs.Prelude.{◌≡◌, ◌≤◌, ℕ, IfErr, IfOk, OnOk, Option, length};
ghost use Rattle.ftp_command.specs.Argument.{IsBlank, IsName, IsPassword, SaysPathOrNone, SaysSizes, SaysTextOrNone};
ghost use Rattle.ftp_command.specs.Decline.{NotCopied, PathNotCopied};
ghost use Rattle.ftp_endpoint.specs.Endpoint.{SaysSix};
ghost use Rattle.ftp_endpoint.specs.Number.{SaysNumber};
ghost use Rattle.ftp_path.specs.Path.{IsPathText};

use crate::argument::{is_blank, is_name, is_password};
use crate::fault::CommandFault;
use crate::setting::sizes;
use crate::text::Argument;
use ftp_endpoint::{Endpoint, number, six_numbers};
use ftp_path::is_path_text;
use std::alloc::Allocator;

/// No argument, but for spaces.
pub(crate) fn blank(argument: &[u8]) -> Result<(), CommandFault>
    ensures ok { OnOk result (IsBlank argument.now) }
    ensures err { IfErr result (λ fault. (fault ≡ CommandFault.BadArgument) × (¬ IsBlank argument.now)) }
{
    if is_blank(argument) {
        Ok(())
    } else {
        Err(CommandFault::BadArgument)
    }
}

/// Six numbers.
pub(crate) fn six(text: &[u8]) -> Result<Endpoint, CommandFault>
    ensures ok { IfOk result (λ endpoint. SaysSix text.now endpoint) }
    ensures err { IfErr result (λ fault. (fault ≡ CommandFault.BadArgument) × ((endpoint : Endpoint) → ¬ SaysSix text.now endpoint)) }
{
    six_numbers(text).ok_or(CommandFault::BadArgument)
}

/// A place to restart at.
pub(crate) fn place(text: &[u8]) -> Result<u64, CommandFault>
    ensures ok { IfOk result (λ n. SaysNumber text.now n) }
    ensures err { IfErr result (λ fault. (fault ≡ CommandFault.BadArgument) × ((n : ℕ) → ¬ SaysNumber text.now n)) }
{
    number(text).ok_or(CommandFault::BadArgument)
}

/// What ALLO asks for.
pub(crate) fn space(text: &[u8]) -> Result<(u64, Option<u64>), CommandFault>
    ensures ok { IfOk result (λ r. SaysSizes text.now r.0 r.1) }
    ensures err { IfErr result (λ fault. (fault ≡ CommandFault.BadArgument) × ((octets : ℕ) (longest : Option ℕ) → ¬ SaysSizes text.now octets longest)) }
{
    sizes(text).ok_or(CommandFault::BadArgument)
}

/// A path text.
pub(crate) fn path<A: Allocator + Copy>(
    alloc: A,
    argument: &[u8],
) -> Result<Argument<A>, CommandFault>
    ensures ok { IfOk result (λ text. (argument.now ≡ text) × IsPathText text) }
    ensures err { IfErr result (λ fault. NotCopied (IsPathText argument.now) fault) }
{
    if !is_path_text(argument) {
        return Err(CommandFault::BadArgument);
    }
    own(alloc, argument)
}

/// A user name.
pub(crate) fn name<A: Allocator + Copy>(
    alloc: A,
    argument: &[u8],
) -> Result<Argument<A>, CommandFault>
    ensures ok { IfOk result (λ text. (argument.now ≡ text) × IsName text) }
    ensures err { IfErr result (λ fault. NotCopied (IsName argument.now) fault) }
{
    if !is_name(argument) {
        return Err(CommandFault::BadArgument);
    }
    own(alloc, argument)
}

/// A password.
pub(crate) fn password<A: Allocator + Copy>(
    alloc: A,
    argument: &[u8],
) -> Result<Argument<A>, CommandFault>
    ensures ok { IfOk result (λ text. (argument.now ≡ text) × IsPassword text) }
    ensures err { IfErr result (λ fault. NotCopied (IsPassword argument.now) fault) }
{
    if !is_password(argument) {
        return Err(CommandFault::BadArgument);
    }
    own(alloc, argument)
}

/// Words, of one octet or more.
pub(crate) fn words<A: Allocator + Copy>(alloc: A, text: &[u8]) -> Result<Argument<A>, CommandFault>
    ensures ok { IfOk result (λ words. (text.now ≡ words) × (1 ≤ length words)) }
    ensures err { IfErr result (λ fault. NotCopied (1 ≤ length text.now) fault) }
{
    if text.is_empty() {
        return Err(CommandFault::BadArgument);
    }
    own(alloc, text)
}

/// Words, or nothing.
pub(crate) fn words_or_none<A: Allocator + Copy>(
    alloc: A,
    text: &[u8],
) -> Result<Option<Argument<A>>, CommandFault>
    ensures ok { IfOk result (λ words. SaysTextOrNone text.now words) }
    ensures err { IfErr result (λ fault. (fault ≡ CommandFault.Memory) × (1 ≤ length text.now)) }
{
    if text.is_empty() {
        return Ok(None);
    }
    match own(alloc, text) {
        Ok(words) => Ok(Some(words)),
        Err(fault) => Err(fault),
    }
}

/// A path text, or nothing.
pub(crate) fn path_or_none<A: Allocator + Copy>(
    alloc: A,
    text: &[u8],
) -> Result<Option<Argument<A>>, CommandFault>
    ensures ok { IfOk result (λ path. SaysPathOrNone text.now path) }
    ensures err { IfErr result (λ fault. PathNotCopied text.now fault) }
{
    if text.is_empty() {
        return Ok(None);
    }
    if !is_path_text(text) {
        return Err(CommandFault::BadArgument);
    }
    match own(alloc, text) {
        Ok(path) => Ok(Some(path)),
        Err(fault) => Err(fault),
    }
}

// A copy of an argument.
fn own<A: Allocator + Copy>(alloc: A, octets: &[u8]) -> Result<Argument<A>, CommandFault>
    ensures ok { IfOk result (λ text. octets.now ≡ text) }
    ensures err { IfErr result (λ fault. fault ≡ CommandFault.Memory) }
{
    match Argument::new(alloc, octets) {
        Ok(text) => Ok(text),
        Err(_) => Err(CommandFault::Memory),
    }
}
