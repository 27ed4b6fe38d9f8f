// The data connection ends or breaks (RFC 959, section 3.4).
ghost use Rattle.std.specs.Prelude.{◌≡◌, OnErr, OnOk};
ghost use Rattle.ftp_server_model.specs.Counting.{TellsSome};
ghost use Rattle.ftp_server_model.specs.Calls.{break_step, connection_of as connection_in, end_step};
ghost use Rattle.ftp_server_model.specs.Endpoint.{disconnected};
ghost use Rattle.ftp_server_model.specs.Machine.{with_session};
ghost use Rattle.ftp_server.specs.Breaking.{InstallIsLost};
ghost use Rattle.ftp_server.specs.Busy.{HasRoom};
ghost use Rattle.ftp_server_session.specs.Session.{connection_seen};
ghost use Rattle.ftp_tree.specs.Change.{IsSteady};

use crate::line::Failed;
use crate::server::Server;
use ftp_server_model::{FixedReply, ServerLink};
use ftp_server_session::ServerTransfer;
use ftp_tree::Tree;
use std::alloc::Allocator;
use std::mem;

impl<A: Allocator + Copy, T: Tree<A>, J: ServerTransfer<A, T>> Server<A, T, J> {
    ghost use Rattle.ftp_server.specs.Server.{OnCourse, counts_of, view_of};

    /// The client closed it: what came of an upload is installed.
    pub(crate) fn end_transfer(&mut self) -> Result<(), Failed>
        ensures done { OnOk result (OnCourse T.failures self.old self.new → view_of T.table J.view self.new ≡ end_step (view_of T.table J.view self.old)) }
        ensures steady { OnOk result (IsSteady (T.failures self.old.session.tree) (T.failures self.new.session.tree)) }
        ensures lost { let v = view_of T.table J.view self.old in OnErr result (OnCourse T.failures self.old self.new → InstallIsLost (connection_in v.session) (disconnected v.session) v (view_of T.table J.view self.new)) }
        ensures refusals { self.new.refusals ≡ self.old.refusals }
        ensures few { TellsSome 1 (T.failures self.old.session.tree) (T.failures self.new.session.tree) }
    {
        if self.session.closing {
            return Ok(());
        }
        match self.leave() {
            ServerLink::Ready => Ok(()),
            ServerLink::Transferring(transfer) => {
                let (rights, moment) = (self.session.rights, self.context.moment);
                let session = &mut self.session;
                match transfer.at_end(&mut session.tree, &session.root, rights, moment) {
                    Ok(text) => {
                        self.output.put_fixed(text);
                        Ok(())
                    }
                    Err(_) => {
                        self.output.put_fixed(FixedReply::LocalFault);
                        Err(Failed)
                    }
                }
            }
            other => {
                self.session.connection = other;
                Ok(())
            }
        }
    }

    /// It broke: what was settled of an upload is installed.
    pub(crate) fn break_transfer(&mut self) -> Result<(), Failed>
        ensures done { OnOk result (OnCourse T.failures self.old self.new → view_of T.table J.view self.new ≡ break_step (view_of T.table J.view self.old)) }
        ensures steady { OnOk result (IsSteady (T.failures self.old.session.tree) (T.failures self.new.session.tree)) }
        ensures lost { let v = view_of T.table J.view self.old in OnErr result (OnCourse T.failures self.old self.new → InstallIsLost (connection_in v.session) (disconnected v.session) v (view_of T.table J.view self.new)) }
        ensures refusals { self.new.refusals ≡ self.old.refusals }
        ensures few { TellsSome 1 (T.failures self.old.session.tree) (T.failures self.new.session.tree) }
    {
        if self.session.closing {
            return Ok(());
        }
        match self.leave() {
            ServerLink::Ready => Ok(()),
            ServerLink::Transferring(transfer) => {
                let (rights, moment) = (self.session.rights, self.context.moment);
                let session = &mut self.session;
                match transfer.at_break(&mut session.tree, &session.root, rights, moment) {
                    Ok(text) => {
                        self.output.put_fixed(text);
                        Ok(())
                    }
                    Err(_) => {
                        self.output.put_fixed(FixedReply::LocalFault);
                        Err(Failed)
                    }
                }
            }
            other => {
                self.session.connection = other;
                Ok(())
            }
        }
    }

    /// Takes the data connection out, with nothing left to close.
    fn leave(&mut self) -> ServerLink<J>
        ensures view { view_of T.table J.view self.new ≡ with_session (disconnected (view_of T.table J.view self.old).session) (view_of T.table J.view self.old) }
        ensures connection { connection_seen J.view result ≡ (view_of T.table J.view self.old).session.connection }
        ensures steady { counts_of T.failures self.new ≡ counts_of T.failures self.old }
        ensures room { HasRoom result self.new.output }
    {
        mem::replace(&mut self.session.connection, ServerLink::Free)
    }
}
