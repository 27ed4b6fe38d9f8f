// The command of each step (RFC 959, section 4.1; RFC 2428; RFC 3659).
ghost use Rattle.std.specs.Prelude.{◌≡◌, IfOk};
ghost use Rattle.ftp_client_model.specs.Plan.{list_command, optional, own_command, passive_command, port_command, restart_command, set_command, setting_command, source_command};

use ftp_client_model::client::Step;
use ftp_command::{Argument, Command, Passive};
use ftp_endpoint::Endpoint;
use ftp_facts::Text;
use ftp_operation::{ListVerb, Op};
use ftp_settings::Representation;
use std::alloc::{AllocError, Allocator};

/// An operation's own command, which ends it.
pub fn own_command<A: Allocator + Copy>(
    op: &Op<Text<A>>,
    alloc: &A,
) -> Result<Command<Argument<A>>, AllocError>
    // Witness: equations, of what is made where memory was not refused.
    ensures { IfOk result (λ command. command ≡ own_command op.now) }
{
    let command = match op {
        Op::Where => Command::Pwd,
        Op::ChangeDir(path) => Command::Cwd(copied(path, alloc)?),
        Op::Up => Command::Cdup,
        Op::MakeDir(path) => Command::Mkd(copied(path, alloc)?),
        Op::RemoveDir(path) => Command::Rmd(copied(path, alloc)?),
        Op::Delete(path) => Command::Dele(copied(path, alloc)?),
        Op::Rename(_, to) => Command::Rnto(copied(to, alloc)?),
        Op::Put(path, _, _) => Command::Stor(copied(path, alloc)?),
        Op::Append(path, _, _) => Command::Appe(copied(path, alloc)?),
        Op::PutFrom(path, _, _, _) => Command::Stor(copied(path, alloc)?),
        Op::Get(path, _) => Command::Retr(copied(path, alloc)?),
        Op::GetFrom(path, _, _) => Command::Retr(copied(path, alloc)?),
        Op::Peek(path, _, _) => Command::Retr(copied(path, alloc)?),
        Op::Size(path, _) => Command::Size(copied(path, alloc)?),
        Op::Modified(path) => Command::Mdtm(copied(path, alloc)?),
        Op::Facts(path) => Command::Mlst(optional(path, alloc)?),
        Op::List(path, _) => Command::Mlsd(optional(path, alloc)?),
        Op::Names(path, _) => Command::Nlst(optional(path, alloc)?),
        Op::Text(verb, path, _) => list_command(*verb, optional(path, alloc)?),
    };
    Ok(command)
}

/// The command that gives a listing.
fn list_command<A: Allocator + Copy>(
    verb: ListVerb,
    path: Option<Argument<A>>,
) -> Command<Argument<A>>
    ensures { result ≡ list_command verb path }
{
    match verb {
        ListVerb::List => Command::List(path),
        ListVerb::Nlst => Command::Nlst(path),
        ListVerb::Mlsd => Command::Mlsd(path),
    }
}

/// RNFR, of a rename.
pub fn source_command<A: Allocator + Copy>(
    op: &Op<Text<A>>,
    alloc: &A,
) -> Result<Option<Command<Argument<A>>>, AllocError>
    // Witness: equations, of what is made where memory was not refused.
    ensures { IfOk result (λ command. command ≡ source_command op.now) }
{
    match op {
        Op::Rename(from, _) => Ok(Some(Command::Rnfr(copied(from, alloc)?))),
        _ => Ok(None),
    }
}

/// TYPE, STRU or MODE, of an operation that asks for settings.
pub fn set_command<A: Allocator + Copy>(
    step: Step,
    wanted: Option<Representation>,
) -> Option<Command<Argument<A>>>
    ensures { result ≡ set_command step wanted }
{
    match wanted {
        None => None,
        Some(wanted) => setting_command(step, wanted),
    }
}

/// TYPE, STRU or MODE, of the settings wanted.
fn setting_command<A: Allocator + Copy>(
    step: Step,
    wanted: Representation,
) -> Option<Command<Argument<A>>>
    ensures { result ≡ setting_command step wanted }
{
    match step {
        Step::Kind => Some(Command::Repr(wanted.kind)),
        Step::Structure => Some(Command::Stru(wanted.structure)),
        Step::Mode => Some(Command::Mode(wanted.mode)),
        _ => None,
    }
}

/// REST, where there is an offset.
pub fn restart_command<A: Allocator + Copy>(offset: Option<u64>) -> Option<Command<Argument<A>>>
    ensures { result ≡ restart_command offset }
{
    match offset {
        None => None,
        Some(offset) => Some(Command::Rest(offset)),
    }
}

/// PORT, or EPRT (RFC 2428, section 2).
pub fn port_command<A: Allocator + Copy>(extended: bool, endpoint: Endpoint) -> Command<Argument<A>>
    ensures { result ≡ port_command extended endpoint }
{
    if extended {
        Command::Eprt(endpoint)
    } else {
        Command::Port(endpoint)
    }
}

/// PASV, or EPSV of any family (RFC 2428, section 3).
pub fn passive_command<A: Allocator + Copy>(extended: bool) -> Command<Argument<A>>
    ensures { result ≡ passive_command extended }
{
    if extended {
        Command::Epsv(Passive::Any)
    } else {
        Command::Pasv
    }
}

/// A text as an argument.
fn copied<A: Allocator + Copy>(text: &Text<A>, alloc: &A) -> Result<Argument<A>, AllocError>
    ensures { IfOk result (λ argument. argument ≡ text.now) }
{
    Argument::new(*alloc, text.as_slice())
}

/// A text as an argument that may be left out: an empty one is none.
fn optional<A: Allocator + Copy>(
    text: &Text<A>,
    alloc: &A,
) -> Result<Option<Argument<A>>, AllocError>
    ensures { IfOk result (λ argument. argument ≡ optional text.now) }
{
    if text.as_slice().is_empty() {
        return Ok(None);
    }
    Ok(Some(copied(text, alloc)?))
}
