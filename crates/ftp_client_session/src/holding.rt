// How many octets a client holds, beside the texts of an operation and what its report brings (own choice of the limits).
ghost use Rattle.std.specs.Prelude.{◌≡◌, ◌+◌, ◌≤◌, length};
ghost use Rattle.ftp_ends.specs.Limits.{held_limit};
ghost use Rattle.ftp_client_model.specs.Held.{gathered_len, block_stored_limit, talk_len};
ghost use Rattle.ftp_client_session.specs.Stored.{stored_in};

use crate::dialogue::Dialogue;
use crate::task::Task;
use ftp_client_model::client::Standing;
use ftp_client_steps::{ClientTransfer, CountedTransfer};
use std::alloc::Allocator;

impl<A: Allocator + Copy, F: ClientTransfer<A>> Dialogue<A, F> {
    ghost use Rattle.ftp_client_session.specs.Client.{view_of};

    /// The login, the line that is being read, the reply that it is of, and what is owed; after a failure nothing is read any more.
    pub fn talk_len(&self) -> usize
        requires { talk_len (view_of F.flow self.now) ≤ held_limit }
        ensures { result ≡ talk_len (view_of F.flow self.now) }
    {
        let login = self.login.user().len() + self.login.pass().len();
        login + (self.read() + self.output.len())
    }

    /// What was read of a reply that has not ended.
    fn read(&self) -> usize
        requires { talk_len (view_of F.flow self.now) ≤ held_limit }
        ensures { result ≡ length (view_of F.flow self.now).ear.line.text + gathered_len (view_of F.flow self.now).gathered }
    {
        match self.standing {
            Standing::Failed(_) => 0,
            Standing::Greeting | Standing::User | Standing::Pass | Standing::Entered => {
                self.hearing.unfinished() + self.hearing.gathered()
            }
        }
    }
}

impl<A: Allocator + Copy, F: CountedTransfer<A>> Dialogue<A, F> {
    /// What its transfer stores; nothing where none is under way.
    pub fn stored_len(&self) -> usize
        // Witness of sum: an equation, with what the impl of `CountedTransfer` says by its fields.
        ensures sum { result ≡ stored_in F.stored self.now.place }
        // Witness of few: `Client::held` of `ftp_client` needs it.
        ensures few { result ≤ block_stored_limit }
    {
        match &self.place {
            Task::Transferring(transfer) => transfer.flow.stored_len(),
            Task::Idle | Task::Waiting | Task::Doing(_) | Task::Told(_) => 0,
        }
    }
}
