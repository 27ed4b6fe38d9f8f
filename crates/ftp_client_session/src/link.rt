// How the data connection stands, and what changes of that (RFC 959, section 3.2).
ghost use Rattle.std.specs.Prelude.{◌≡◌, true};
ghost use Rattle.ftp_client_model.specs.Calls.{data_closed, ending_of};

use crate::dialogue::Dialogue;
use crate::task::Task;
use ftp_client_model::client::{ClientLink, Ending};
use ftp_client_steps::ClientTransfer;
use std::alloc::Allocator;

impl<A: Allocator + Copy, F: ClientTransfer<A>> Dialogue<A, F> {
    ghost use Rattle.ftp_client_session.specs.Client.{view_of};

    /// How the data connection stands.
    pub fn connection(&self) -> ClientLink
        ensures { result ≡ (view_of F.flow self.now).connection }
    {
        self.connection
    }

    /// Whether a link, or a port that is listened at, is to be closed.
    pub fn is_closing(&self) -> bool
        ensures { result ≡ (view_of F.flow self.now).closing }
    {
        self.closing
    }

    /// The data connection stands otherwise.
    pub fn put_connection(&mut self, connection: ClientLink)
        ensures op { self.new.op ≡ self.old.op }
        ensures view { view_of F.flow self.new ≡ record (view_of F.flow self.old) { connection = connection } }
    {
        self.connection = connection;
    }

    /// The link is to be closed.
    pub fn want_close(&mut self)
        ensures { view_of F.flow self.new ≡ record (view_of F.flow self.old) { closing = true } }
    {
        self.closing = true;
    }

    /// A close that was wanted is done.
    pub fn data_closed(&mut self)
        ensures { view_of F.flow self.new ≡ data_closed (view_of F.flow self.old) }
    {
        self.closing = false;
    }

    /// How a link ends that the server closes: a download is done. Before the transfer command, and of an upload that still has octets, it
    /// is a break (own choice).
    pub fn ending(&self) -> Ending
        ensures { result ≡ ending_of (view_of F.flow self.now).job }
    {
        let Task::Transferring(transfer) = &self.place else {
            return Ending::Broken;
        };
        if transfer.flow.is_down(&self.op) {
            Ending::Clean
        } else {
            Ending::Broken
        }
    }
}
