// The control octets that a client owes, in the order in which they go out (RFC 959, section 5.3).
ghost use Rattle.std.specs.Prelude.{◌≡◌, ◌++◌, [], IfOk, OnErr, OnOk, length, take, drop, min};
ghost use Rattle.ftp_command.specs.Line.{line_of};
ghost use Rattle.ftp_nvt.specs.Lines.{written_line};

use circular_buffer::HeapCircularBuffer;
use ftp_command::{Argument, Command, write};
use ftp_nvt::put_line;
use std::alloc::{AllocError, Allocator};
use std::marker::Model;

/// The room for control octets, reserved at the start (own choice).
pub const OUTPUT_ROOM: usize = 8192;

/// The control octets that are owed. What has no room is answered as want of memory.
#[derive(Drop)]
pub struct Output<A: Allocator + Copy> {
    octets: HeapCircularBuffer<u8, A>,
}

impl<A: Allocator + Copy> Model for Output<A> {
    ghost use Rattle.std.specs.Prelude.{ℕ, List, ◌≡◌};
    ghost use Rattle.ftp_client_steps.specs.declared.output.TheConstants.{OUTPUT_ROOM};

    ghost Value = { List ℕ };

    ghost view = { λ output. output.octets.items };

    ghost invariant = { λ output. output.octets.capacity ≡ OUTPUT_ROOM };
}

impl<A: Allocator + Copy> Output<A> {
    /// No octets are owed.
    pub fn new(alloc: A) -> Result<Output<A>, AllocError>
        ensures { IfOk result (λ output. output ≡ []) }
    {
        Ok(Output {
            octets: HeapCircularBuffer::with_capacity(alloc, OUTPUT_ROOM)?,
        })
    }

    /// How many octets are owed.
    pub fn len(&self) -> usize
        ensures { result ≡ length self.now }
    {
        self.octets.len()
    }

    /// Gives octets, the first that are owed first, and says how many.
    pub fn give(&mut self, room: &mut [u8]) -> usize
        ensures count { result ≡ min (length room.old) (length self.old) }
        // Witness of gave: bounds, and equations.
        ensures gave { room.new ≡ take result self.old ++ drop result room.old }
        ensures rest { self.new ≡ drop result self.old }
    {
        self.octets.read_into(room)
    }

    /// Owes nothing any more.
    pub fn clear(&mut self)
        ensures { self.new ≡ [] }
    {
        self.octets.clear();
    }

    /// Owes these octets as they are.
    pub fn put(&mut self, octets: &[u8]) -> Result<(), AllocError>
        // Witness: equations, of what is left.
        ensures ok { OnOk result (self.new ≡ self.old ++ octets.now) }
        ensures err { OnErr result (self.new ≡ self.old) }
    {
        if octets.len() > OUTPUT_ROOM - self.octets.len() {
            return Err(AllocError);
        }
        self.octets.fill_from_slice(octets);
        Ok(())
    }

    /// Owes the line of a command, as Telnet has it. A command for which no line stands is answered as want of memory.
    pub fn put_command(
        &mut self,
        command: &Command<Argument<A>>,
        alloc: &A,
    ) -> Result<(), AllocError>
    where
        A: Copy,
        // Witness: equations, of what is left.
        ensures ok { OnOk result (self.new ≡ self.old ++ written_line (line_of command.now)) }
        ensures err { OnErr result (self.new ≡ self.old) }
    {
        let line = written(command, alloc)?;
        self.put(line.as_slice())
    }
}

/// The line of a command as it goes over the control connection.
fn written<A: Allocator + Copy>(
    command: &Command<Argument<A>>,
    alloc: &A,
) -> Result<Vec<u8, A>, AllocError>
    ensures { IfOk result (λ line. line.items ≡ written_line (line_of command.now)) }
{
    let mut text = Vec::new(*alloc);
    if write(command, &mut text).is_err() {
        return Err(AllocError);
    }
    let mut line = Vec::new(*alloc);
    if put_line(text.as_slice(), &mut line).is_err() {
        return Err(AllocError);
    }
    Ok(line)
}
