// A line is acted on, or waits (RFC 959, sections 4.1.3 and 5.4).
ghost use Rattle.std.specs.Prelude.{◌≡◌, ◌≤◌, OnErr, OnOk, Some, true, false};
ghost use Rattle.ftp_server_model.specs.Counting.{TellsSome};
ghost use Rattle.ftp_server_model.specs.Heard.{later_heard, latest, told_of};
ghost use Rattle.ftp_server_model.specs.Machine.{completed, is_idle, later, obeyed};
ghost use Rattle.ftp_server_model.specs.Failing.{LineFails, WaitingFails};
ghost use Rattle.ftp_path.specs.Login.{login_limit};
ghost use Rattle.ftp_server.specs.Busy.{heard_name_len};
ghost use Rattle.ftp_server_session.specs.Line.{HeardPaths};
ghost use Rattle.ftp_tree.specs.Change.{IsSteady};

use crate::say::say;
use crate::server::Server;
use ftp_command::Argument;
use ftp_server_model::{FixedReply, HeardLine, ServerLink};
use ftp_server_replies::{ActedLine, fixed_code, reply_code};
use ftp_server_session::ServerTransfer;
use ftp_tree::Tree;
use std::alloc::Allocator;
use std::mem;

/// A step could not be done, for want of memory or by the tree's device.
#[derive(Clone, Copy)]
pub(crate) struct Failed;

/// How many octets were taken or given, and whether the last of them failed.
#[derive(Drop)]
pub(crate) struct Moved {
    pub(crate) count: usize,
    pub(crate) outcome: Result<(), Failed>,
}

impl<A: Allocator + Copy, T: Tree<A>, J: ServerTransfer<A, T>> Server<A, T, J> {
    ghost use Rattle.ftp_server.specs.Server.{OnCourse, counts_of, view_of};

    /// A download or a listing whose last octet was given is over.
    pub(crate) fn complete(&mut self)
        ensures done { view_of T.table J.view self.new ≡ completed (view_of T.table J.view self.old) }
        ensures steady { counts_of T.failures self.new ≡ counts_of T.failures self.old }
    {
        let ServerLink::Transferring(_) = &self.session.connection else {
            return;
        };
        if self.session.give_out() {
            self.output.put_fixed(FixedReply::Complete);
        }
    }

    /// Acts on a line.
    #[tactic(auto, unfolding(ftp_server_model::specs::Machine::obeyed))]
    fn obey(&mut self, heard: HeardLine<Argument<A>>) -> Result<(), Failed>
        requires idle { is_idle (view_of T.table J.view self.old) ≡ true }
        requires paths { HeardPaths heard }
        requires named { heard_name_len heard ≤ login_limit }
        ensures done { OnOk result (OnCourse T.failures self.old self.new → view_of T.table J.view self.new ≡ obeyed heard (view_of T.table J.view self.old)) }
        ensures told { OnOk result (OnCourse T.failures self.old self.new → self.new.heard ≡ Some (told_of heard (view_of T.table J.view self.old))) }
        ensures steady { OnOk result (IsSteady (T.failures self.old.session.tree) (T.failures self.new.session.tree)) }
        ensures lost { OnErr result (OnCourse T.failures self.old self.new → LineFails heard (view_of T.table J.view self.old) (view_of T.table J.view self.new)) }
        ensures refusals { self.new.refusals ≡ self.old.refusals }
        ensures few { TellsSome 1 (T.failures self.old.session.tree) (T.failures self.new.session.tree) }
    {
        let told = ActedLine::of(&heard);
        match self.session.decide(&self.context, heard) {
            Ok(kind) => {
                say(&mut self.output, &kind, &self.session);
                self.complete();
                self.heard = Some(told.answered(reply_code(&kind)));
                Ok(())
            }
            Err(_) => {
                self.output.put_fixed(FixedReply::LocalFault);
                self.heard = Some(told.answered(Some(fixed_code(FixedReply::LocalFault))));
                Err(Failed)
            }
        }
    }

    /// Whether a line may be acted on.
    fn is_idle(&self) -> bool
        ensures { result ≡ is_idle (view_of T.table J.view self.now) }
    {
        !self.session.is_busy() && self.output.has_room()
    }

    /// Acts on the line that waits, where that may be.
    pub(crate) fn later(&mut self) -> Result<(), Failed>
        ensures done { OnOk result (OnCourse T.failures self.old self.new → view_of T.table J.view self.new ≡ later (view_of T.table J.view self.old)) }
        ensures told { OnOk result (OnCourse T.failures self.old self.new → self.new.heard ≡ later_heard (view_of T.table J.view self.old)) }
        ensures steady { OnOk result (IsSteady (T.failures self.old.session.tree) (T.failures self.new.session.tree)) }
        ensures lost { OnErr result (OnCourse T.failures self.old self.new → WaitingFails (view_of T.table J.view self.old).waiting (view_of T.table J.view self.old) (view_of T.table J.view self.new)) }
        ensures refusals { self.new.refusals ≡ self.old.refusals }
        ensures few { TellsSome 1 (T.failures self.old.session.tree) (T.failures self.new.session.tree) }
    {
        self.heard = None;
        if !self.is_idle() {
            return Ok(());
        }
        match mem::replace(&mut self.waiting, None) {
            Some(heard) => self.obey(heard),
            None => Ok(()),
        }
    }

    /// The same in the midst of a call: where no line is acted on, the one that this call acted on before is still the last.
    pub(crate) fn later_again(&mut self) -> Result<(), Failed>
        ensures done { OnOk result (OnCourse T.failures self.old self.new → view_of T.table J.view self.new ≡ later (view_of T.table J.view self.old)) }
        ensures told { OnOk result (OnCourse T.failures self.old self.new → self.new.heard ≡ latest self.old.heard (later_heard (view_of T.table J.view self.old))) }
        ensures steady { OnOk result (IsSteady (T.failures self.old.session.tree) (T.failures self.new.session.tree)) }
        ensures lost { OnErr result (OnCourse T.failures self.old self.new → WaitingFails (view_of T.table J.view self.old).waiting (view_of T.table J.view self.old) (view_of T.table J.view self.new)) }
        ensures refusals { self.new.refusals ≡ self.old.refusals }
        ensures few { TellsSome 1 (T.failures self.old.session.tree) (T.failures self.new.session.tree) }
    {
        let before = mem::replace(&mut self.heard, None);
        let settled = self.later();
        if self.heard.is_none() {
            self.heard = before;
        }
        settled
    }
}
