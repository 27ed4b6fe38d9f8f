// The reader of the control connection, seen as the fold of its octets (RFC 854; RFC 959, section 4).
ghost use Rattle.std.specs.Prelude.{◌≡◌, ◌≤◌, IfOk, length};
ghost use Rattle.ftp_command.specs.Line.{line_limit};
ghost use Rattle.ftp_nvt.specs.Ear.{limit_of};
ghost use Rattle.ftp_server.specs.Hearing.{HasHeardSome};

use ftp_command::LINE_LIMIT;
use ftp_nvt::{Ear, Event};
use std::alloc::{AllocError, Allocator};

/// An ear for lines of the limit of commands, which has heard octets from the start of its connection on.
#[derive(Drop)]
pub struct Reader<A: Allocator + Copy> {
    ear: Ear<A>,
    ghost limit: { limit_of ear ≡ line_limit },
    ghost heard: { ∥ HasHeardSome ear ∥₁ },
}

impl<A: Allocator + Copy> Reader<A> {
    ghost use Rattle.ftp_nvt.specs.Fold.{ear_of, ear_out, ear_step, quiet};
    ghost use Rattle.ftp_nvt.specs.Ear.{event_list, lent_line};

    /// A reader between two lines. It takes the room of the longest line.
    pub fn new(alloc: A) -> Result<Reader<A>, AllocError>
        // Witness: an equation, of the reader of lines.
        ensures { IfOk result (λ reader. ear_of reader.ear ≡ quiet) }
    {
        let Ok(ear) = Ear::new(alloc, LINE_LIMIT) else {
            return Err(AllocError);
        };
        Ok(Reader { ear })
    }

    /// Takes an octet, and says what it settles. Takes no memory.
    pub fn hear(&mut self, octet: u8) -> Event
        // Witness of step, out: equations, of the reader of lines.
        ensures step { ear_of self.new.ear ≡ ear_step line_limit (ear_of self.old.ear) octet }
        ensures out { event_list result (lent_line self.new.ear) ≡ ear_out line_limit (ear_of self.old.ear) octet }
        // Witness of short: of the reader of lines; `held` needs it.
        ensures short { result ≡ Event.Line → length (lent_line self.new.ear) ≤ line_limit }
    {
        self.ear.feed(&[octet]).event
    }

    /// How many octets of text the line that is being read has so far, at most 1,024.
    pub fn unfinished(&self) -> usize
        // Witness of len: an equation, of the reader of lines.
        ensures len { result ≡ length (ear_of self.now.ear).line.text }
        // Witness of short: `held` needs it.
        ensures short { result ≤ line_limit }
    {
        self.ear.unfinished()
    }

    /// The text of the line that the last octet ended.
    pub fn line(&self) -> &[u8]
        ensures { result.now ≡ lent_line self.now.ear }
    {
        self.ear.line()
    }
}
