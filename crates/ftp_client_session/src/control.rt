// The octets of the control connection, and how far the client has come (RFC 959, sections 4.2 and 5.4).
ghost use Rattle.std.specs.Prelude.{◌≡◌, ◌<◌, ◌≤◌, IfOk, IfSome, IsTrue, OnErr, length, min, take};
ghost use Rattle.ftp_ends.specs.Octets.{has_octets};
ghost use Rattle.ftp_client_model.specs.Calls.{gives_control, hears_octet, is_sound, may_hear};
ghost use Rattle.ftp_client_model.specs.Telling.{line_with};

use crate::dialogue::Dialogue;
use crate::finishing::is_sound;
use crate::task::Task;
use ftp_client_model::client::Standing;
use ftp_client_steps::{ClientTransfer, LastLine, Spoken};
use ftp_endpoint::Host;
use ftp_reply::Reply;
use std::alloc::{AllocError, Allocator};

/// The most octets that are owed where an octet is taken.
const OWED_LIMIT: usize = 1024;

impl<A: Allocator + Copy, F: ClientTransfer<A>> Dialogue<A, F> {
    ghost use Rattle.ftp_client_session.specs.Calm.{is_under_way};
    ghost use Rattle.ftp_client_session.specs.Client.{shorted, view_of};
    ghost use Rattle.ftp_client_session.specs.Replies.{reply_answered};

    /// Takes an octet, and hands out the reply that ends with it, which is to be answered then. Refused memory, the client is short of it,
    /// as it was before the octet. The line that it ends is kept in `last` either way.
    pub(crate) fn hear(
        &mut self,
        octet: u8,
        last: &mut LastLine,
    ) -> Result<Option<Reply<A>>, AllocError>
        requires { IsTrue (is_sound (view_of F.flow self.old).standing) }
        ensures ok { IfOk result (λ reply. reply_answered reply (view_of F.flow self.new) ≡ hears_octet (view_of F.flow self.old) octet) }
        ensures calm { IfOk result (λ reply. IfSome reply (λ some. IsTrue (is_sound (view_of F.flow self.new).standing))) }
        ensures kept { IfOk result (λ reply. IfSome reply (λ some. shorted (view_of F.flow self.new) ≡ shorted (view_of F.flow self.old))) }
        ensures err { OnErr result (shorted (view_of F.flow self.new) ≡ shorted (view_of F.flow self.old)) }
        ensures sound { OnErr result (IsTrue (is_sound (view_of F.flow self.new).standing)) }
        ensures told { last.new ≡ line_with (view_of F.flow self.old).ear octet last.old }
    {
        let Ok(heard) = self.hearing.octet(octet, last) else {
            return Err(AllocError);
        };
        match heard {
            Spoken::Nothing => Ok(None),
            Spoken::Reply(reply) => Ok(Some(reply)),
            Spoken::Owed(answer) => match self.output.put(&answer) {
                Ok(()) => Ok(None),
                Err(error) => Err(error),
            },
            Spoken::Misplaced => {
                self.strange();
                Ok(None)
            }
        }
    }

    /// Whether an octet may be taken: while 1,024 octets are owed at most (own choice), and not after a failure.
    pub fn may_hear(&self) -> bool
        ensures { result ≡ may_hear (view_of F.flow self.now) }
    {
        is_sound(self.standing) && self.output.len() <= OWED_LIMIT
    }

    /// Whether octets are owed.
    pub fn owes(&self) -> bool
        ensures { result ≡ has_octets (view_of F.flow self.now).owed }
    {
        self.output.len() > 0
    }

    /// Gives octets of the control connection, and says how many.
    pub fn control_out(&mut self, room: &mut [u8]) -> usize
        // Witness of within, gave, some, most: bounds, and equations.
        ensures within { (result ≤ length room.old) × (result ≤ length (view_of F.flow self.old).owed) }
        ensures gave { take result room.new ≡ take result (view_of F.flow self.old).owed }
        // Witness of now: equations; `edits/upload_octets_are_given_before_the_1yz`.
        ensures now { view_of F.flow self.new ≡ gives_control result (view_of F.flow self.old) }
        ensures some { 0 < length room.old → 0 < length (view_of F.flow self.old).owed → 0 < result }

        // It gives all that is owed, or fills the room.
        ensures most { result ≡ min (length room.old) (length (view_of F.flow self.old).owed) }
    {
        self.output.give(room)
    }

    /// The host that it stands on.
    pub fn here(&self) -> Host
        ensures { result ≡ (view_of F.flow self.now).here }
    {
        self.here
    }

    /// How far it has come with the server.
    pub fn standing(&self) -> Standing
        ensures { result ≡ (view_of F.flow self.now).standing }
    {
        self.standing
    }

    /// The host of the server.
    pub fn peer(&self) -> Host
        ensures { result ≡ (view_of F.flow self.now).peer }
    {
        self.peer
    }

    /// How far the operation that was begun last has come.
    pub fn place(&self) -> &Task<A, F>
        ensures place { result.now ≡ self.now.place }
        // Witness of calm: `job_answered` of `replies`, which needs it at each step.
        ensures calm { IsTrue (is_under_way result.now) → IsTrue (is_sound (view_of F.flow self.now).standing) }
    {
        &self.place
    }
}
