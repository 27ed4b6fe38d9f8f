// How much a server holds (own choice of the limits).
ghost use Rattle.std.specs.Prelude.{◌≡◌, ◌≤◌, ◌+◌, false};
ghost use Rattle.ftp_ends.specs.Limits.{held_limit};
ghost use Rattle.ftp_server.specs.Busy.{is_busy};
ghost use Rattle.ftp_server.specs.Whole.{IsWholeServer};
ghost use Rattle.ftp_server_model.specs.Heard.{heard_len};
ghost use Rattle.ftp_server_model.specs.Held.{connection_len, held, session_len, stored_limit};

use crate::server::Server;
use ftp_server_model::ServerLink;
use ftp_server_replies::{Counted, access_len, path_len, pending_len, waiting_len};
use ftp_tree::Tree;
use std::alloc::Allocator;

impl<A: Allocator + Copy, T: Tree<A>, J: Counted<A, T>> Server<A, T, J> {
    ghost use Rattle.ftp_server.specs.Server.{view_of};

    /// How many octets it holds beside the tree, the accounts, what came of an upload, and what a transfer has of the tree, which is an open
    /// file or what a directory showed: those that are owed, the line that is being read, the line that waits as it would be written, what
    /// the line that was acted on names, the names and paths of the session, and what its transfer stores; at most 24,576.
    pub fn held(&self) -> usize
        // Witness of len: an equation; `edits/a_line_that_waits_is_not_held`, `edits/a_transfer_that_opens_is_not_held`,
        // `edits/what_is_held_is_a_constant`.
        ensures len { let stored = connection_len J.stored self.now.session.connection in
            result ≡ heard_len self.now.heard + held stored (view_of T.table J.view self.now) }
        // Witness of little: a bound of the same number.
        ensures little { result ≤ held_limit }
        // Witness of whole: `edits/a_server_keeps_all_lines`.
        ensures whole { IsWholeServer self.now }
    {
        let waiting = waiting_len(&self.waiting);
        let held = self.output.len() + (self.reader.unfinished() + (waiting + self.session_len()));
        self.heard_len() + held
    }

    /// Those of what the line that was acted on names.
    fn heard_len(&self) -> usize
        ensures len { result ≡ heard_len self.now.heard }
        ensures short { result ≤ 512 }
    {
        match &self.heard {
            Some(line) => line.len(),
            None => 0,
        }
    }

    /// Those of the session: names, paths and the transfer.
    fn session_len(&self) -> usize
        ensures len { let stored = connection_len J.stored self.now.session.connection in
            result ≡ session_len stored (view_of T.table J.view self.now).session }
        ensures short { result ≤ 16307 }
        ensures free { is_busy self.now.session.connection ≡ false → result ≤ 2955 }
    {
        let session = &self.session;
        let paths = path_len(&session.cwd)
            + (pending_len(&session.pending) + self.connection_len());
        access_len(&session.access) + (path_len(&session.root) + paths)
    }

    /// Those of the transfer.
    fn connection_len(&self) -> usize
        ensures sum { result ≡ connection_len J.stored self.now.session.connection }
        ensures few { result ≤ stored_limit }
        ensures free { is_busy self.now.session.connection ≡ false → result ≡ 0 }
    {
        match &self.session.connection {
            ServerLink::Opening(transfer, _) => transfer.stored_len(),
            ServerLink::Transferring(transfer) => transfer.stored_len(),
            _ => 0,
        }
    }
}
