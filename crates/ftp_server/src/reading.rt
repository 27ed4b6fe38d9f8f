// A line of the control connection is read (RFC 959, section 5.3).
ghost use Rattle.std.specs.Prelude.{◌≡◌, ◌≤◌, length};
ghost use Rattle.ftp_command.specs.Line.{line_limit};
ghost use Rattle.ftp_server_model.specs.Machine.{IsReading, Reading};
ghost use Rattle.ftp_server.specs.Busy.{MayWait};
ghost use Rattle.ftp_server.specs.Reading.{IsReadAs};

use ftp_command::{Argument, CommandFault, read};
use ftp_server_model::HeardLine;
use std::alloc::Allocator;

/// What a line says, or `None` where the memory for its text was refused.
pub(crate) fn read_line<A: Allocator + Copy>(
    alloc: A,
    text: &[u8],
) -> Option<HeardLine<Argument<A>>>
    requires { length text.now ≤ line_limit }
    ensures read { (read : Reading) → IsReading read → IsReadAs (read text.now) result }
    ensures waits { MayWait result }
{
    match read(alloc, text) {
        Ok(command) => Some(HeardLine::Asks(command)),
        Err(CommandFault::Memory) => None,
        Err(fault) => Some(HeardLine::Bad(fault)),
    }
}
