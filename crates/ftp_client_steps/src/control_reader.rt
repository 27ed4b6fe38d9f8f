// The reader of the control connection of a client.
ghost use Rattle.std.specs.Prelude.{◌≡◌, IfOk, length};
ghost use Rattle.ftp_nvt.specs.Fold.{quiet};
ghost use Rattle.ftp_reply.specs.Reader.{Between};
ghost use Rattle.ftp_ends.specs.Reply.{reply_limit};
ghost use Rattle.ftp_client_model.specs.Held.{gathered_len};

use crate::last::LastLine;
use crate::line::{Spoken, take_line};
use ftp_ends::REPLY_LIMIT;
use ftp_nvt::{Ear, Event};
use ftp_reply::Reader;
use std::alloc::{AllocError, Allocator};
use std::marker::Model;

/// The unfinished line and the unfinished reply that a client hears. Contracts see it as both.
#[derive(Drop)]
pub struct Hearing<A: Allocator + Copy> {
    alloc: A,
    ear: Ear<A>,
    reader: Reader<A>,
    /// How many octets the texts of the reply that has begun have.
    gathered: Option<usize>,
}

impl<A: Allocator + Copy> Model for Hearing<A> {
    ghost use Rattle.ftp_nvt.specs.Fold.{ear_of};
    ghost use Rattle.ftp_client_steps.specs.Reader.{UnfinishedReply, CanBeHeld, gathered_in};

    ghost Value = { UnfinishedReply };

    ghost view = { λ hearing. record { ear = ear_of hearing.ear; gathered = gathered_in hearing.reader } };

    ghost invariant = { λ hearing. CanBeHeld hearing.ear hearing.reader hearing.gathered };
}

impl<A: Allocator + Copy> Hearing<A> {
    ghost use Rattle.ftp_client_model.specs.Telling.{line_with};
    ghost use Rattle.ftp_client_steps.specs.Comes.{OctetComes};

    /// Nothing was heard. All memory for lines is taken now.
    pub fn new(alloc: A) -> Result<Hearing<A>, AllocError>
        ensures ear { IfOk result (λ hearing. hearing.ear ≡ quiet) }
        ensures gathered { IfOk result (λ hearing. hearing.gathered ≡ Between) }
    {
        let Ok(ear) = Ear::new(alloc, REPLY_LIMIT) else {
            return Err(AllocError);
        };
        let reader = Reader::new(alloc);
        Ok(Hearing {
            alloc,
            ear,
            reader,
            gathered: None,
        })
    }

    /// Takes an octet of the control connection. The line that it ends is kept in `last`, where memory for it is refused too.
    pub fn octet(&mut self, octet: u8, last: &mut LastLine) -> Result<Spoken<A>, AllocError>
        // Witness of comes: for every client an equation of `hears_octet`: another answer would be another client. What was heard so far is in the
        // view; `edits/hearing_takes_nothing`.
        ensures comes { IfOk result (λ heard. OctetComes self.old octet heard self.new) }
        // Witness of told: an equation; `edits/the_end_of_a_long_line_is_kept`.
        ensures told { last.new ≡ line_with self.old.ear octet last.old }
    {
        let heard = self.ear.feed(&[octet]);
        match heard.event {
            Event::More => Ok(Spoken::Nothing),
            Event::Owed(answer) => Ok(Spoken::Owed(answer)),
            Event::TooLong => Ok(Spoken::Misplaced),
            Event::Line => {
                let line = self.ear.line();
                last.keep(line);
                take_line(&mut self.reader, &mut self.gathered, line, &self.alloc)
            }
        }
    }

    /// How many octets of text the line that is being read has so far.
    pub fn unfinished(&self) -> usize
        ensures { result ≡ length self.now.ear.line.text }
    {
        self.ear.unfinished()
    }

    /// How many octets the texts of the reply that has begun have: none between two replies.
    pub fn gathered(&self) -> usize
        ensures { result ≡ gathered_len self.now.gathered }
    {
        self.gathered.unwrap_or(0)
    }
}
