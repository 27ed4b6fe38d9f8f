// What each command does, one arm a verb in the order of RFC 959, section 4.1.
ghost use Rattle.std.specs.Prelude.{◌≡◌, OnErr, true};
ghost use Rattle.ftp_server_model.specs.Act.{act};
ghost use Rattle.ftp_server_model.specs.Failing.{may_fail};
ghost use Rattle.ftp_server_session.specs.Line.{HasPathTexts};

use crate::context::Context;
use crate::session::Session;
use ftp_command::{Argument, Command};
use ftp_path::Path;
use ftp_server_model::{FixedReply, Pending, ReplyKind};
use ftp_server_replies::{Fault, ServerTransfer};
use ftp_tree::Tree;
use std::alloc::Allocator;

impl<A: Allocator + Copy, T: Tree<A>, J: ServerTransfer<A, T>> Session<A, T, J> {
    ghost use Rattle.ftp_server_session.specs.Little.{LeavesLittle, name_len};
    ghost use Rattle.ftp_server_session.specs.Session.{Turns, context_of};

    /// Does a command, after what the line before left pending for it. An ABOR during a transfer is not done here. Of the texts of commands
    /// the name of USER alone is kept.
    pub(crate) fn act(
        &mut self,
        context: &Context<A>,
        command: Command<Argument<A>>,
        pending: &Pending<Path<A>>,
    ) -> Result<ReplyKind<Path<A>>, Fault>
        requires paths { HasPathTexts command }
        ensures turn { Turns T.table T.failures J.view (act (context_of context.now) command pending.now) self.old self.new result }
        ensures little { LeavesLittle (name_len command) self.old self.new result }
        ensures may_fail { OnErr result (may_fail command ≡ true) }
    {
        match command {
            Command::User(name) => self.user(&context.accounts, name),
            Command::Pass(word) => self.pass(&context.accounts, word.octets()),
            Command::Acct(_) => Ok(ReplyKind::Fixed(FixedReply::NotNeeded)),
            Command::Cwd(text) => self.change_dir(text.octets()),
            Command::Cdup => Ok(self.go_up()),
            Command::Rein => Ok(self.rein()),
            Command::Quit => Ok(self.quit()),
            Command::Port(endpoint) => Ok(self.port(context, endpoint)),
            Command::Pasv => Ok(self.pasv(context)),
            Command::Eprt(endpoint) => Ok(self.port(context, endpoint)),
            Command::Epsv(family) => Ok(self.epsv(context, family)),
            Command::Repr(kind) => Ok(self.set_kind(kind)),
            Command::Stru(structure) => Ok(self.set_structure(structure)),
            Command::Mode(mode) => Ok(self.set_mode(mode)),
            Command::Retr(text) => self.retr(pending, text.octets()),
            Command::Stor(text) => self.stor(pending, text.octets()),
            Command::Appe(text) => self.appe(text.octets()),
            Command::Allo(_, _) => Ok(ReplyKind::Fixed(FixedReply::NotNeeded)),
            Command::Rest(offset) => Ok(self.rest(offset)),
            Command::Rnfr(text) => self.rename_from(text.octets()),
            Command::Rnto(text) => self.rename_to(pending, text.octets()),
            Command::Abor => Ok(ReplyKind::Fixed(FixedReply::AbortDone)),
            Command::Dele(text) => self.delete(text.octets()),
            Command::Rmd(text) => self.remove_dir(text.octets()),
            Command::Mkd(text) => self.make_dir(text.octets()),
            Command::Pwd => Ok(ReplyKind::Here),
            Command::List(text) => self.list(&text),
            Command::Nlst(text) => self.nlst(&text),
            Command::Mlst(text) => self.entry(&text),
            Command::Mlsd(text) => self.mlsd(&text),
            Command::Size(text) => self.size(text.octets()),
            Command::Mdtm(text) => self.modified(text.octets()),
            Command::Syst => Ok(ReplyKind::Fixed(FixedReply::System)),
            Command::Stat => Ok(ReplyKind::Fixed(FixedReply::Serving)),
            Command::Help(_) => Ok(ReplyKind::Fixed(FixedReply::Help)),
            Command::Noop => Ok(ReplyKind::Fixed(FixedReply::Fine)),
            Command::Feat => Ok(ReplyKind::Features),
            Command::Opts(text) => Ok(self.opts(text.octets())),
        }
    }
}
