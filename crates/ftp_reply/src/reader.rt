//! Lines to replies.
ghost use Rattle.std.specs.Prelude.{◌≡◌};

use crate::fault::ReplyFault;
use crate::lines::Lines;
use crate::place::{Stage, place_of};
use crate::reply::Reply;
use std::alloc::Allocator;
use std::marker::Model;

/// Reads replies line by line. Contracts see it as between replies, as the code and the texts of the reply that has begun
/// and not ended, or as stopped.
#[derive(Drop)]
pub struct Reader<A: Allocator + Copy> {
    stage: Stage,
    lines: Lines<A>,
}

impl<A: Allocator + Copy> Model for Reader<A> {
    ghost use Rattle.ftp_reply.specs.Reader.{Standing, reader_standing, AreKept};

    ghost Value = { Standing };

    ghost view = { λ reader. reader_standing reader.stage reader.lines };

    ghost invariant = { λ reader. AreKept reader.stage reader.lines };
}

impl<A: Allocator + Copy> Reader<A> {
    ghost use Rattle.ftp_reply.specs.Reader.{Between, Reading};

    /// No line heard yet. Takes no memory.
    pub fn new(alloc: A) -> Reader<A>
        ensures { result ≡ Reading Between }
    {
        Reader {
            stage: Stage::Between,
            lines: Lines::new(alloc),
        }
    }
}

impl<A: Allocator + Copy> Reader<A> {
    ghost use Rattle.ftp_reply.specs.Reader.{Answers, heard_at};

    /// Takes a line without its end. Answers a reply with its last line, until then nothing.
    ///
    /// A reply of several lines ends at the first later line that begins with its own code and SP.
    /// Faults: `BadCode` where no reply begins with the line, `TooMany` where it passes the limits; then, and from
    /// then on, nothing is read any more and each call answers `Failed`. `Memory` leaves all as before.
    pub fn line(&mut self, line: &[u8]) -> Result<Option<Reply<A>>, ReplyFault>
        // Witness: equations: one answer and one standing to each line, memory aside (`laws::line_is_heard`, `so_far` say what they are); edits:
        // `ends_at_any_code`, `goes_on_after_too_many`.
        ensures { Answers (heard_at self.old line.now) result self.old self.new }
    {
        let place = match place_of(self.stage, line) {
            Ok(place) => place,
            Err(fault) => {
                self.stage = Stage::Failed;
                return Err(fault);
            }
        };
        if !self.lines.has_room(place.text) {
            self.stage = Stage::Failed;
            return Err(ReplyFault::TooMany);
        }
        if place.ends {
            let Ok(lines) = self.lines.finish(place.text) else {
                return Err(ReplyFault::Memory);
            };
            self.stage = Stage::Between;
            return Ok(Some(Reply {
                code: place.code,
                lines,
            }));
        }
        if self.lines.push(place.text).is_err() {
            return Err(ReplyFault::Memory);
        }
        self.stage = Stage::Begun(place.code);
        Ok(None)
    }
}
