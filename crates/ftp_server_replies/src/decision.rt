// What is decided on a line before it is acted on (own choice).
ghost use Rattle.std.specs.Prelude.{◌≡◌};
ghost use Rattle.ftp_server_model.specs.Act.{fault_text, is_free, is_in, is_transfer};

use ftp_command::{Argument, Command, CommandFault, role_of};
use ftp_path::Path;
use ftp_server_model::{Access, FixedReply, Pending};
use std::alloc::Allocator;
use std::mem;

/// What was pending for this line alone: nothing is pending behind it.
pub fn pending_for<A: Allocator + Copy>(pending: &mut Pending<Path<A>>) -> Pending<Path<A>>
    // Witness: equations; `edits/a_restart_is_kept_over_another_line`.
    ensures had { result ≡ pending.old }
    ensures nothing { pending.new ≡ Pending.Nothing }
{
    mem::replace(pending, Pending::Nothing)
}

/// Whether somebody is logged in.
pub fn is_in<A: Allocator + Copy>(access: &Access<Argument<A>>) -> bool
    ensures { result ≡ is_in access.now }
{
    matches!(access, Access::Known)
}

/// Whether a command needs a data connection (RFC 959, section 4.1.3; RFC 3659, section 7).
pub fn is_transfer<A: Allocator + Copy>(command: &Command<Argument<A>>) -> bool
    ensures { result ≡ is_transfer command.now }
{
    role_of(command).is_transfer()
}

/// Whether a command is done before a login too.
pub fn is_free<A: Allocator + Copy>(command: &Command<Argument<A>>) -> bool
    ensures { result ≡ is_free command.now }
{
    role_of(command).is_free()
}

/// The reply to a line that says no command.
pub fn fault_text(fault: CommandFault) -> FixedReply
    ensures { result ≡ fault_text fault }
{
    match fault {
        CommandFault::Unknown => FixedReply::Unknown,
        CommandFault::BadArgument => FixedReply::BadArgument,
        CommandFault::NotDone => FixedReply::NotImplemented,
        CommandFault::BadParameter => FixedReply::BadParameter,
        CommandFault::Protocol => FixedReply::Protocol,
        CommandFault::Memory => FixedReply::LocalFault,
    }
}
