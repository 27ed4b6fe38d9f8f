// A password is read, and its field is written.
ghost use Rattle.std.specs.Prelude.{◌≡◌};
ghost use Rattle.tool_accounts.specs.field.Making.{Ends};
ghost use Rattle.tool_terminal.specs.declared.status.Status.TheVariants.{BadWords};

use crate::field::fault::PasswordFault;
use crate::field::field::field_of;
use crate::field::reading::read_all;
use ftp_ports::put;
use std::io::{Read, Write};
use tool_terminal::Status;

/// Writes the field of the password that a reader gives, and LF, and gives the exit status.
///
/// The password is a line, with LF, CR LF or nothing after it, and nothing comes after that. The field is made by SHA-512, with this salt of at most 16
/// octets of `./0-9A-Za-z`, and with so many rounds, 1,000 to 1,000,000, or 5,000 where none are said. `Done`: it was written. `BadWords`: there is no such
/// password, salt or number of rounds, nothing was written, and `faults` is told why. `Failed`: a read or a write failed.
#[tactic(auto, using(crate::proofs::field::Ending::ends_unread))]
pub fn make<R, W, F>(
    rounds: Option<u32>,
    salt: &[u8],
    reader: &mut R,
    writer: &mut W,
    faults: &mut F,
) -> Status
where
    R: Read,
    W: Write,
    F: Write,
    // Witness: its field is an equation; `edits/a_field_is_written_for_an_input_that_goes_on.edit`,
    // `edits/the_first_line_of_several_is_the_password.edit`.
    ensures { Ends rounds salt.now (R.remaining reader.old) (R.remaining reader.new) (W.contents writer.old) (W.contents writer.new) result }
{
    let Ok(input) = read_all(reader) else {
        return Status::Failed;
    };
    let mut line = match field_of(rounds, salt, input.as_slice()) {
        Ok(field) => field,
        Err(fault) => return refused(fault, faults),
    };
    line.push(b'\n');
    match put(writer, line.as_slice()) {
        Ok(()) => Status::Done,
        Err(_) => Status::Failed,
    }
}

/// Tells why no field is made.
fn refused<F: Write>(fault: PasswordFault, faults: &mut F) -> Status
    ensures { result ≡ BadWords }
{
    let _told = writeln!(faults, "error: {fault}");
    Status::BadWords
}
