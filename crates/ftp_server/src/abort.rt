// ABOR during a transfer (RFC 959, section 4.1.3).
ghost use Rattle.std.specs.Prelude.{◌≡◌, ◌≤◌, ◌+◌, None, OnErr, OnOk, length, true, ◌-◌};
ghost use Rattle.ftp_server_model.specs.Counting.{TellsSome};
ghost use Rattle.ftp_server_model.specs.Endpoint.{forgotten};
ghost use Rattle.ftp_server_model.specs.Failing.{AbortFails};
ghost use Rattle.ftp_server_model.specs.Machine.{aborted, aborts, is_transferring, with_session};
ghost use Rattle.ftp_server.specs.Breaking.{InstallIsLost};
ghost use Rattle.ftp_server_session.specs.Session.{connection_seen};
ghost use Rattle.ftp_tree.specs.Change.{IsSteady};

use crate::hear::is_transferring;
use crate::line::Failed;
use crate::server::Server;
use ftp_server_model::{FREE_ROOM, FixedReply, OUTPUT_ROOM, ServerLink};
use ftp_server_session::ServerTransfer;
use ftp_tree::Tree;
use std::alloc::Allocator;
use std::mem;

impl<A: Allocator + Copy, T: Tree<A>, J: ServerTransfer<A, T>> Server<A, T, J> {
    ghost use Rattle.ftp_server.specs.Server.{OnCourse, counts_of, view_of};

    /// The transfer ends, and ABOR is answered; no line waits.
    pub(crate) fn abort(&mut self) -> Result<(), Failed>
        requires room { length self.old.output ≤ OUTPUT_ROOM - FREE_ROOM }
        requires none { self.old.waiting ≡ None }
        requires busy { is_transferring (view_of T.table J.view self.old).session.connection ≡ true }
        ensures done { OnOk result (OnCourse T.failures self.old self.new → view_of T.table J.view self.new ≡ aborted (view_of T.table J.view self.old)) }
        ensures steady { OnOk result (IsSteady (T.failures self.old.session.tree) (T.failures self.new.session.tree)) }
        ensures lost { OnErr result (OnCourse T.failures self.old self.new → AbortFails (view_of T.table J.view self.old).session.connection (view_of T.table J.view self.old) (view_of T.table J.view self.new)) }
        ensures refusals { self.new.refusals ≡ self.old.refusals }
        ensures few { TellsSome 1 (T.failures self.old.session.tree) (T.failures self.new.session.tree) }
    {
        let broken = self.break_off();
        self.output.put_fixed(FixedReply::AbortDone);
        broken
    }

    /// What stands of a transfer ends as by a break.
    fn break_off(&mut self) -> Result<(), Failed>
        requires room { length self.old.output ≤ OUTPUT_ROOM - FREE_ROOM }
        ensures done { OnOk result (OnCourse T.failures self.old self.new → view_of T.table J.view self.new ≡ aborts (view_of T.table J.view self.old).session.connection (view_of T.table J.view self.old)) }
        ensures steady { OnOk result (IsSteady (T.failures self.old.session.tree) (T.failures self.new.session.tree)) }
        ensures lost { OnErr result (OnCourse T.failures self.old self.new → InstallIsLost (view_of T.table J.view self.old).session.connection (forgotten (view_of T.table J.view self.old).session) (view_of T.table J.view self.old) (view_of T.table J.view self.new)) }
        ensures refusals { self.new.refusals ≡ self.old.refusals }
        ensures room { length self.new.output ≤ length self.old.output + 64 }
        ensures waiting { self.new.waiting ≡ self.old.waiting }
        ensures few { TellsSome 1 (T.failures self.old.session.tree) (T.failures self.new.session.tree) }
    {
        if !is_transferring(&self.session.connection) {
            return Ok(());
        }
        match self.take_connection() {
            ServerLink::Transferring(transfer) => {
                let (rights, moment) = (self.session.rights, self.context.moment);
                let session = &mut self.session;
                match transfer.at_break(&mut session.tree, &session.root, rights, moment) {
                    Ok(text) => {
                        self.output.put_fixed(text);
                        Ok(())
                    }
                    Err(_) => {
                        self.output.put_fixed(FixedReply::LocalFault);
                        Err(Failed)
                    }
                }
            }
            _ => {
                self.output.put_fixed(FixedReply::NoConnection);
                Ok(())
            }
        }
    }

    /// Takes the data connection out, with which the endpoint is forgotten.
    fn take_connection(&mut self) -> ServerLink<J>
        ensures view { view_of T.table J.view self.new ≡ with_session (forgotten (view_of T.table J.view self.old).session) (view_of T.table J.view self.old) }
        ensures connection { connection_seen J.view result ≡ (view_of T.table J.view self.old).session.connection }
        ensures steady { counts_of T.failures self.new ≡ counts_of T.failures self.old }
        ensures waiting { self.new.waiting ≡ self.old.waiting }
    {
        self.session.closing = self.session.closing || self.session.is_standing();
        mem::replace(&mut self.session.connection, ServerLink::Free)
    }
}
