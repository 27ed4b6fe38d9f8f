// The octets of an input, as many as tell whether a password is too long.
ghost use Rattle.std.specs.Prelude.{◌≡◌, ◌≤◌, IfOk, length};
ghost use Rattle.tool_accounts.specs.field.Making.{ReadAdds, IsOver, Reads};

use arrayvec::ArrayVec;
use ftp_ports::{Failed, get};
use std::io::Read;

/// The most octets that are read: those of a password, CR LF, and one by which it is too long.
const READ_LIMIT: usize = 258;

/// What was read.
pub(crate) type InputBuffer = ArrayVec<u8, READ_LIMIT>;

/// Reads to the end of the input, and so many octets at most.
pub(crate) fn read_all<R: Read>(reader: &mut R) -> Result<InputBuffer, Failed>
    ensures { IfOk result (λ input. Reads (R.remaining reader.old) (R.remaining reader.new) input.items) }
{
    let mut input = InputBuffer::new();
    'reads: for i in 0..READ_LIMIT {
        let count = read_more(reader, &mut input)?;
        if count == 0 || input.is_full() {
            return Ok(input);
        }
    }
    Ok(input)
}

/// Puts what one read gives after what was read before, and gives how many octets; none at the end.
fn read_more<R: Read>(reader: &mut R, input: &mut InputBuffer) -> Result<usize, Failed>
    ensures fits { length input.new.items ≤ 258 }
    ensures adds { IfOk result (λ count. ReadAdds (R.remaining reader.old) (R.remaining reader.new) input.old.items input.new.items count) }
    ensures over { IfOk result (λ count. count ≡ 0 → IsOver (R.remaining reader.new) input.new.items) }
{
    let mut room = [0u8; READ_LIMIT];
    let (free, _) = room.split_at_mut(READ_LIMIT - input.len());
    let count = get(reader, free)?;
    let (octets, _) = free.split_at(count);
    input.try_extend_from_slice(octets).unwrap();
    Ok(count)
}
