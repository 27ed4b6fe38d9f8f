// Reading a command line.
ghost use Rattle.std.specs.Prelude.{Ok, Err, ◌≡◌, ◌⊎◌, ℕ, List, IfErr, IfOk};
ghost use Rattle.ftp_command.specs.Command.{HoldsText, Refuses, Says};
ghost use Rattle.ftp_command.specs.Decline.{SaysText};
ghost use Rattle.ftp_command.specs.declared.command.Command.{Command};
ghost use Rattle.ftp_command.specs.declared.fault.CommandFault.{CommandFault};

use crate::argument::split_line;
use crate::command::Command;
use crate::fault::CommandFault;
use crate::text::Argument;
use crate::verb::{command_of, verb_of};
use std::alloc::Allocator;

/// Reads a line without its end as a command (RFC 959, sections 4.1 and 5.3).
///
/// The word before the first SP names the verb, in capitals or small letters; all octets behind that SP are the
/// argument. Each fault stands for one reply: see `CommandFault`. Memory is asked for last, and only for the text that a
/// command holds.
pub fn read<A: Allocator + Copy>(
    alloc: A,
    line: &[u8],
) -> Result<Command<Argument<A>>, CommandFault>
    // Witness of says, said: law `one_meaning`, command.
    ensures says { IfOk result (λ command. Says line.now command) }
    // Witness of refuses, refused: equation; law `one_meaning`, apart and fault.
    ensures refuses { IfErr result (λ fault. (fault ≡ CommandFault.Memory) ⊎ Refuses line.now fault) }
    ensures refused { (fault : CommandFault) → Refuses line.now fault → result ≡ Err fault }
    ensures said { (command : Command (List ℕ)) → Says line.now command
        → (result ≡ Ok command) ⊎ (HoldsText command × (result ≡ Err CommandFault.Memory)) }
{
    read_line(alloc, line)
}

fn read_line<A: Allocator + Copy>(
    alloc: A,
    line: &[u8],
) -> Result<Command<Argument<A>>, CommandFault>
    ensures says { IfOk result (λ command. Says line.now command) }
    ensures refuses { IfErr result (λ fault. ((fault ≡ CommandFault.Memory) × SaysText line.now) ⊎ Refuses line.now fault) }
{
    let (word, argument) = split_line(line);
    let Some(verb) = verb_of(word) else {
        return Err(CommandFault::Unknown);
    };
    command_of(alloc, verb, argument)
}
