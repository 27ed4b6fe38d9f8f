// The octets of the data connection, and what is wanted of it (RFC 959, section 3.2).
ghost use Rattle.std.specs.Prelude.{◌≡◌, ◌<◌, ◌≤◌, [], IfErr, IfOk, IsTrue, OnErr, OnOk, false, length, min, take, true, if◌then◌else◌};
ghost use Rattle.ftp_ends.specs.Octets.{has_octets};
ghost use Rattle.ftp_client_model.specs.Calls.{data_wants, is_sound, may_receive, receives, to_give, transfer_over, wants};
ghost use Rattle.ftp_client_model.specs.declared.client.ClientLink.TheVariants as Data;

use crate::carrying::has_begun;
use crate::dialogue::Dialogue;
use crate::finishing::is_sound;
use crate::task::Task;
use ftp_client_model::client::ClientLink;
use ftp_client_steps::ClientTransfer;
use ftp_ends::Wants;
use std::alloc::Allocator;

impl<A: Allocator + Copy, F: ClientTransfer<A>> Dialogue<A, F> {
    ghost use Rattle.ftp_client_session.specs.Client.{octets_of_job, job_went, shorted, view_of};

    /// Whether octets may be taken: of a download whose command was sent, while its link is open.
    pub fn may_receive(&self) -> bool
        ensures { result ≡ may_receive (view_of F.flow self.now) }
    {
        if self.closing {
            return false;
        }
        let ClientLink::Open = self.connection else {
            return false;
        };
        let Task::Transferring(transfer) = &self.place else {
            return false;
        };
        transfer.flow.is_down(&self.op)
    }

    /// Takes octets of a download, all of them; none where none may be taken. `Err` says behind how many of them memory was refused.
    pub fn receive(&mut self, piece: &[u8]) -> Result<(), usize>
        ensures ok { may_receive (view_of F.flow self.old) ≡ true → OnOk result (view_of F.flow self.new ≡ receives (view_of F.flow self.old) piece.now) }
        // Witness of none: an equation: where no octet may be taken nothing changes.
        ensures none { may_receive (view_of F.flow self.old) ≡ false → view_of F.flow self.new ≡ view_of F.flow self.old }
        ensures err { OnErr result (shorted (view_of F.flow self.new) ≡ shorted (view_of F.flow self.old)) }
        // Witness of within, sound, was: `took` of `Client::data_hear`.
        ensures within { IfErr result (λ count. count < length piece.now) }
        ensures sound { OnErr result (IsTrue (is_sound (view_of F.flow self.new).standing)) }
        ensures was { OnErr result (IsTrue (is_sound (view_of F.flow self.old).standing)) }
    {
        if !self.may_receive() {
            return Ok(());
        }
        self.receive_all(piece)
    }

    /// Takes octets of a download that may be taken.
    fn receive_all(&mut self, piece: &[u8]) -> Result<(), usize>
        requires { may_receive (view_of F.flow self.old) ≡ true }
        ensures ok { OnOk result (view_of F.flow self.new ≡ receives (view_of F.flow self.old) piece.now) }
        ensures err { OnErr result (shorted (view_of F.flow self.new) ≡ shorted (view_of F.flow self.old)) }
        ensures within { IfErr result (λ count. count < length piece.now) }
        ensures sound { OnErr result (IsTrue (is_sound (view_of F.flow self.new).standing)) }
        ensures was { OnErr result (IsTrue (is_sound (view_of F.flow self.old).standing)) }
    {
        let mut at = 0;
        while at < piece.len() {
            let (_, rest) = piece.split_at(at);
            match self.receive_some(rest) {
                Ok(count) => at += count,
                Err(count) => return Err(at + count),
            }
        }
        Ok(())
    }

    /// Takes some octets of a download, and says how many.
    fn receive_some(&mut self, piece: &[u8]) -> Result<usize, usize>
        requires may { may_receive (view_of F.flow self.old) ≡ true }
        requires some { 0 < length piece.now }
        ensures ok { IfOk result (λ count. view_of F.flow self.new ≡ receives (view_of F.flow self.old) (take count piece.now)) }
        ensures within { IfOk result (λ count. (0 < count) × (count ≤ length piece.now)) }
        ensures err { OnErr result (shorted (view_of F.flow self.new) ≡ shorted (view_of F.flow self.old)) }
        ensures less { IfErr result (λ count. count < length piece.now) }
        ensures standing { self.new.standing ≡ self.old.standing }
        ensures was { IsTrue (is_sound self.old.standing) }
    {
        if !self.place.is_unsent(&self.op) {
            return Ok(piece.len());
        }
        let count = match self.place.hear(&self.op, piece) {
            Ok(count) => count,
            Err(count) => return Err(count),
        };
        match self.abort_once_enough() {
            Ok(()) => Ok(count),
            Err(_) => Err(count - 1),
        }
    }

    /// Gives octets of an upload, and says how many.
    pub fn give(&mut self, room: &mut [u8]) -> usize
        // Witness of within, gave, some, most: bounds, and equations.
        ensures within { (result ≤ length room.old) × (result ≤ length (to_give (view_of F.flow self.old))) }
        ensures gave { take result room.new ≡ take result (to_give (view_of F.flow self.old)) }
        // Witness of now: equations; `edits/upload_octets_are_given_before_the_1yz`.
        ensures now { view_of F.flow self.new ≡ record (view_of F.flow self.old) { job = job_went result (view_of F.flow self.old).job } }
        ensures some { 0 < length room.old → 0 < length (to_give (view_of F.flow self.old)) → 0 < result }

        // It gives all that is left, or fills the room.
        ensures most { result ≡ min (length room.old) (length (to_give (view_of F.flow self.old))) }
    {
        if !self.may_give() {
            return 0;
        }
        self.place.give(&self.op, room)
    }

    /// Whether octets of an upload are still to be given over the open link.
    pub fn has_data(&self) -> bool
        ensures { result ≡ has_octets (to_give (view_of F.flow self.now)) }
    {
        self.may_give() && self.place.has_left(&self.op)
    }

    /// Whether octets of an upload may be given: its transfer has begun, and its link is open.
    fn may_give(&self) -> bool
        ensures { to_give (view_of F.flow self.now) ≡ (if result then octets_of_job (view_of F.flow self.now).job else []) }
    {
        if self.closing {
            return false;
        }
        let ClientLink::Open = self.connection else {
            return false;
        };
        let Task::Transferring(transfer) = &self.place else {
            return false;
        };
        has_begun(transfer.replied)
    }

    /// What it wants of the connections: a close before all others; after a failure the control connection is done with (own choice).
    #[tactic(auto, unfolding(ftp_client_model::specs::Calls::wants))]
    pub fn wants(&self) -> Wants
        ensures { result ≡ wants (view_of F.flow self.now) }
    {
        if self.closing {
            return Wants::CloseData;
        }
        if !is_sound(self.standing) {
            return Wants::CloseAll;
        }
        match self.connection {
            ClientLink::ListenWanted => Wants::Listen,
            ClientLink::Connecting(endpoint) => Wants::Connect(endpoint),
            ClientLink::Accepting(_) => Wants::Accept,
            ClientLink::Open => self.data_wants(),
            ClientLink::Free | ClientLink::Listening(_) => Wants::Nothing,
            ClientLink::Over(_) => Wants::Nothing,
        }
    }

    /// What an open link is wanted for.
    fn data_wants(&self) -> Wants
        ensures { result ≡ data_wants (transfer_over Data.Open (view_of F.flow self.now).job) }
    {
        let Task::Transferring(transfer) = &self.place else {
            return Wants::Nothing;
        };
        if transfer.flow.is_down(&self.op) {
            Wants::Receive
        } else if has_begun(transfer.replied) {
            Wants::Send
        } else {
            Wants::Nothing
        }
    }
}
