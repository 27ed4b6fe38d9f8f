// What the replies to a transfer's command change (RFC 959, sections 4.2 and 5.4).
ghost use Rattle.std.specs.Prelude.{◌≡◌, IsTrue, OnErr, OnOk};
ghost use Rattle.ftp_client_model.specs.Calls.{is_sound};
ghost use Rattle.ftp_client_model.specs.Dialogue.{abort_answered, awaited, closes, transfer_opened, unless_open, with_reply};
ghost use Rattle.ftp_client_steps.specs.Verdict.{verdict_in};

use crate::dialogue::Dialogue;
use crate::finishing::stands;
use crate::task::Task;
use ftp_client_model::client::{Abort, ClientLink, Ending, Replied};
use ftp_client_steps::{ClientTransfer, Verdict};
use ftp_reply::code::MARK;
use std::alloc::{AllocError, Allocator};

impl<A: Allocator + Copy, F: ClientTransfer<A>> Dialogue<A, F> {
    ghost use Rattle.ftp_client_session.specs.Client.{in_transfer, job_noted, shorted, view_of};

    /// A 1yz opens the transfer, and the server is awaited at the port. A 110 doesn't (own choice).
    pub fn transfer_opened(&mut self, code: u16) -> Result<(), AllocError>
        ensures ok { OnOk result (view_of F.flow self.new ≡ in_transfer (transfer_opened code) (view_of F.flow self.old)) }
        ensures err { OnErr result (shorted (view_of F.flow self.new) ≡ shorted (view_of F.flow self.old)) }
        // Witness of sound: `sound` of `hear_octet`.
        ensures sound { OnErr result (IsTrue (is_sound self.new.standing)) }
    {
        let Task::Transferring(_) = &self.place else {
            return Ok(());
        };
        if code == MARK {
            return Ok(());
        }
        self.connection = awaited(self.connection);
        self.with_reply(Replied::Begun)
    }

    /// Notes the mmmm of a 110 reply to an upload.
    pub fn note(&mut self, mark: Option<u64>)
        ensures { view_of F.flow self.new ≡ record (view_of F.flow self.old) { job = job_noted mark (view_of F.flow self.old).job } }
    {
        self.place.note(&self.op, mark);
    }

    /// Behind the final reply comes that to an ABOR, a 2yz. Nobody waits for another.
    pub fn abort_answered(&mut self, verdict: Verdict) -> Result<(), AllocError>
        ensures ok { OnOk result (view_of F.flow self.new ≡ in_transfer (λ op transfer v.
            abort_answered transfer.abort (verdict_in verdict) op transfer v) (view_of F.flow self.old)) }
        ensures err { OnErr result (shorted (view_of F.flow self.new) ≡ shorted (view_of F.flow self.old)) }
        // Witness of sound: `sound` of `hear_octet`.
        ensures sound { OnErr result (IsTrue (is_sound self.new.standing)) }
    {
        let Task::Transferring(transfer) = &mut self.place else {
            return Ok(());
        };
        if let Abort::Sent = transfer.abort {
            if let Verdict::Completion = verdict {
                transfer.abort = Abort::Answered;
                return self.carry_on();
            }
        }
        self.strange();
        Ok(())
    }

    /// A transfer's replies change.
    pub fn with_reply(&mut self, replied: Replied) -> Result<(), AllocError>
        ensures ok { OnOk result (view_of F.flow self.new ≡ in_transfer (with_reply replied) (view_of F.flow self.old)) }
        ensures err { OnErr result (shorted (view_of F.flow self.new) ≡ shorted (view_of F.flow self.old)) }
        // Witness of sound: `sound` of `hear_octet`.
        ensures sound { OnErr result (IsTrue (is_sound self.new.standing)) }
    {
        let Task::Transferring(transfer) = &mut self.place else {
            return Ok(());
        };
        transfer.replied = replied;
        self.carry_on()
    }

    /// The client's own end of a link: what stands is to be closed.
    pub fn close(&mut self)
        ensures { view_of F.flow self.new ≡ closes (view_of F.flow self.old) }
    {
        self.closing = self.closing || stands(self.connection);
        self.connection = ClientLink::Over(Ending::Ours);
    }

    /// A refusal ends the wait for a link that never opened.
    pub fn close_unless_open(&mut self)
        ensures { view_of F.flow self.new ≡ unless_open (view_of F.flow self.old).connection (view_of F.flow self.old) }
    {
        match self.connection {
            ClientLink::Open | ClientLink::Over(_) => {}
            ClientLink::Free | ClientLink::ListenWanted => self.close(),
            ClientLink::Listening(_) | ClientLink::Accepting(_) => self.close(),
            ClientLink::Connecting(_) => self.close(),
        }
    }
}

/// After the 1yz the server is awaited at the port.
fn awaited(connection: ClientLink) -> ClientLink
    ensures { result ≡ awaited connection }
{
    match connection {
        ClientLink::Listening(port) => ClientLink::Accepting(port),
        other => other,
    }
}
