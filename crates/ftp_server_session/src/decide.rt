// The order of decisions on a line (own choice).
ghost use Rattle.std.specs.Prelude.{◌≡◌, false, true, if◌then◌else◌};
ghost use Rattle.ftp_server_model.specs.Endpoint.{forgotten};
ghost use Rattle.ftp_server_session.specs.Line.{HasPathTexts, HeardPaths};
ghost use Rattle.ftp_server_session.specs.Little.{KeepsName, LeavesLittle, SaysLittle, heard_name_len, is_busy, name_len};
ghost use Rattle.ftp_server_session.specs.Session.{has_transfer};

use crate::context::Context;
use crate::session::Session;
use ftp_command::{Argument, Command};
use ftp_path::Path;
use ftp_server_model::{FixedReply, HeardLine, Pending, ReplyKind, ServerLink};
use ftp_server_replies::{
    Fault, ServerTransfer, fault_text, is_free, is_in, is_transfer, pending_for,
};
use ftp_tree::Tree;
use std::alloc::Allocator;

impl<A: Allocator + Copy, T: Tree<A>, J: ServerTransfer<A, T>> Session<A, T, J> {
    ghost use Rattle.ftp_server_session.specs.Session.{context_of, session_of};
    ghost use Rattle.ftp_server_session.specs.Line.{DecidesCommand, Decides};

    /// Acts on a line: what was pending is taken, the order of decisions gone through, and the reply that is to be said answered. A server has
    /// its lines wait while a transfer is under way; one that comes here then is out of sequence, and nothing is done.
    pub fn decide(
        &mut self,
        context: &Context<A>,
        heard: HeardLine<Argument<A>>,
    ) -> Result<ReplyKind<Path<A>>, Fault>
        requires { HeardPaths heard }
        // Witness of idle: an equation of session and reply; where it could not be done, of the session.
        ensures idle { has_transfer self.old.connection ≡ false → Decides T.table T.failures J.view (context_of context.now) heard self.old self.new result }
        // Witness of busy: equations of session and reply.
        ensures busy { has_transfer self.old.connection ≡ true → (result ≡ Ok (ReplyKind.Fixed FixedReply.BadSequence)) × (self.new ≡ self.old) }

        // Whatever the tree's device gives.
        // Witness of little, named: bounds of the reply and of the name that waits.
        ensures little { is_busy self.old.connection ≡ false → SaysLittle self.new.connection result }
        ensures named { KeepsName (heard_name_len heard) self.old.access self.new.access }
    {
        if has_transfer(&self.connection) {
            return Ok(ReplyKind::Fixed(FixedReply::BadSequence));
        }
        self.decide_idle(context, heard)
    }

    /// The same where no transfer is under way.
    fn decide_idle(
        &mut self,
        context: &Context<A>,
        heard: HeardLine<Argument<A>>,
    ) -> Result<ReplyKind<Path<A>>, Fault>
        requires paths { HeardPaths heard }
        ensures decides { Decides T.table T.failures J.view (context_of context.now) heard self.old self.new result }
        ensures little { LeavesLittle (heard_name_len heard) self.old self.new result }
    {
        let pending = pending_for(&mut self.pending);
        match heard {
            HeardLine::TooLong => Ok(ReplyKind::Fixed(FixedReply::LineTooLong)),
            HeardLine::Bad(fault) => Ok(ReplyKind::Fixed(fault_text(fault))),
            HeardLine::Asks(command) => self.answer(context, command, &pending),
        }
    }

    /// A command has its own answer where somebody is logged in, or where it needs no login; else it is 530. A transfer command
    /// that is not begun has forgotten the endpoint.
    fn answer(
        &mut self,
        context: &Context<A>,
        command: Command<Argument<A>>,
        pending: &Pending<Path<A>>,
    ) -> Result<ReplyKind<Path<A>>, Fault>
        requires paths { HasPathTexts command }
        ensures asked { DecidesCommand T.table T.failures J.view (context_of context.now) command pending.now self.old self.new result }
        ensures little { LeavesLittle (name_len command) self.old self.new result }
    {
        let is_transfer = is_transfer(&command);
        if !is_in(&self.access) && !is_free(&command) {
            drop(command);
            self.forget_if(is_transfer);
            return Ok(ReplyKind::Fixed(FixedReply::NotLoggedIn));
        }
        match self.act(context, command, pending) {
            Ok(kind) => Ok(kind),
            Err(fault) => {
                self.forget_if(is_transfer);
                Err(fault)
            }
        }
    }

    /// A transfer command forgets the endpoint.
    fn forget_if(&mut self, is_transfer: bool)
        ensures view { session_of T.table J.view self.new ≡ (if is_transfer then forgotten (session_of T.table J.view self.old) else session_of T.table J.view self.old) }
        ensures tree { self.new.tree ≡ self.old.tree }
        ensures access { self.new.access ≡ self.old.access }
        ensures calm { is_busy self.old.connection ≡ false → is_busy self.new.connection ≡ false }
    {
        if !is_transfer {
            return;
        }
        self.forget();
    }
}

/// Whether a transfer is under way, its data connection open or still to come.
fn has_transfer<J>(connection: &ServerLink<J>) -> bool
    ensures { result ≡ has_transfer connection.now }
{
    matches!(
        connection,
        ServerLink::Opening(_, _) | ServerLink::Transferring(_)
    )
}
