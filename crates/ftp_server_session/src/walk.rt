// CWD, CDUP, MKD, RMD, DELE, RNFR and RNTO (RFC 959, section 4.1.3).
ghost use Rattle.std.specs.Prelude.{◌≡◌, IfOk, Ok, true};
ghost use Rattle.std.specs.Option.{option_map};
ghost use Rattle.ftp_path.specs.Path.{IsPathText, fits};
ghost use Rattle.ftp_server_model.specs.Walk.{cdup, cwd, dele, mkd, refusal_text, refused_source, rmd, rnfr, rnto};
ghost use Rattle.ftp_server_session.specs.Session.{RefusedAs, lost_as};

use crate::look::look;
use crate::session::Session;
use ftp_direct::{directory_fault, is_busy, is_held, move_to};
use ftp_path::Path;
use ftp_server_model::{FixedReply, Pending, ReplyKind};
use ftp_server_replies::{Fault, ServerTransfer};
use ftp_tree::{Sight, Tree, TreeFault};
use std::alloc::Allocator;

impl<A: Allocator + Copy, T: Tree<A>, J: ServerTransfer<A, T>> Session<A, T, J> {
    ghost use Rattle.ftp_server_session.specs.Little.{LeavesLittle};
    ghost use Rattle.ftp_server_session.specs.Session.{Looks, Turns, session_of};

    /// CWD.
    pub(crate) fn change_dir(&mut self, text: &[u8]) -> Result<ReplyKind<Path<A>>, Fault>
        requires { IsPathText text.now }
        ensures turn { Turns T.table T.failures J.view (cwd text.now) self.old self.new result }
        ensures little { LeavesLittle 0 self.old self.new result }
    {
        let Some(path) = self.see(text, Sight::Path)? else {
            return Ok(ReplyKind::Fixed(FixedReply::Refused));
        };
        if directory_fault(&self.tree, &self.root, &path).is_some() {
            return Ok(ReplyKind::Fixed(FixedReply::Refused));
        }
        self.cwd = path;
        Ok(ReplyKind::Fixed(FixedReply::Done))
    }

    /// CDUP. It takes no memory.
    pub(crate) fn go_up(&mut self) -> ReplyKind<Path<A>>
        ensures turn { (session_of T.table J.view self.new, result) ≡ cdup (session_of T.table J.view self.old) }
        ensures tree { self.new.tree ≡ self.old.tree }
        ensures little { LeavesLittle 0 self.old self.new (Ok result) }
    {
        self.cwd.up();
        ReplyKind::Fixed(FixedReply::Done)
    }

    /// MKD.
    pub(crate) fn make_dir(&mut self, text: &[u8]) -> Result<ReplyKind<Path<A>>, Fault>
        requires { IsPathText text.now }
        ensures turn { Turns T.table T.failures J.view (mkd text.now) self.old self.new result }
        ensures little { LeavesLittle 0 self.old self.new result }
    {
        if !self.rights.make_dir {
            return Ok(ReplyKind::Fixed(FixedReply::NotAllowed));
        }
        let Some(path) = self.see(text, Sight::Path)? else {
            return Ok(ReplyKind::Fixed(FixedReply::Refused));
        };
        match self.tree.make_dir(&self.root, &path) {
            Ok(()) => Ok(ReplyKind::Made(path)),
            Err(fault) => refused(fault, FixedReply::Refused),
        }
    }

    /// RMD.
    pub(crate) fn remove_dir(&mut self, text: &[u8]) -> Result<ReplyKind<Path<A>>, Fault>
        requires { IsPathText text.now }
        ensures turn { Turns T.table T.failures J.view (rmd text.now) self.old self.new result }
        ensures little { LeavesLittle 0 self.old self.new result }
    {
        if !self.rights.remove_dir {
            return Ok(ReplyKind::Fixed(FixedReply::NotAllowed));
        }
        let Some(path) = self.see(text, Sight::Path)? else {
            return Ok(ReplyKind::Fixed(FixedReply::Refused));
        };
        if is_busy(&path, &self.cwd) {
            return Ok(ReplyKind::Fixed(FixedReply::Refused));
        }
        match self.tree.remove_dir(&self.root, &path) {
            Ok(()) => Ok(ReplyKind::Fixed(FixedReply::Done)),
            Err(fault) => refused(fault, FixedReply::Refused),
        }
    }

    /// DELE.
    pub(crate) fn delete(&mut self, text: &[u8]) -> Result<ReplyKind<Path<A>>, Fault>
        requires { IsPathText text.now }
        ensures turn { Turns T.table T.failures J.view (dele text.now) self.old self.new result }
        ensures little { LeavesLittle 0 self.old self.new result }
    {
        if !self.rights.delete {
            return Ok(ReplyKind::Fixed(FixedReply::NotAllowed));
        }
        let Some(path) = self.see(text, Sight::Path)? else {
            return Ok(ReplyKind::Fixed(FixedReply::Refused));
        };
        match self.tree.delete(&self.root, &path) {
            Ok(()) => Ok(ReplyKind::Fixed(FixedReply::Done)),
            Err(fault) => refused(fault, FixedReply::Refused),
        }
    }

    /// RNFR.
    pub(crate) fn rename_from(&mut self, text: &[u8]) -> Result<ReplyKind<Path<A>>, Fault>
        requires { IsPathText text.now }
        ensures turn { Turns T.table T.failures J.view (rnfr text.now) self.old self.new result }
        ensures little { LeavesLittle 0 self.old self.new result }
    {
        if !self.rights.rename {
            return Ok(ReplyKind::Fixed(FixedReply::NotAllowed));
        }
        let Some(path) = self.see(text, Sight::Path)? else {
            return Ok(ReplyKind::Fixed(FixedReply::Refused));
        };
        if is_held(&self.tree, &self.root, &path, &self.cwd) {
            return Ok(ReplyKind::Fixed(FixedReply::Refused));
        }
        self.pending = Pending::Rename(path);
        Ok(ReplyKind::Fixed(FixedReply::NewName))
    }

    /// RNTO, after what was pending for it.
    pub(crate) fn rename_to(
        &mut self,
        pending: &Pending<Path<A>>,
        text: &[u8],
    ) -> Result<ReplyKind<Path<A>>, Fault>
        requires { IsPathText text.now }
        ensures turn { Turns T.table T.failures J.view (rnto pending.now text.now) self.old self.new result }
        ensures little { LeavesLittle 0 self.old self.new result }
    {
        let Pending::Rename(from) = pending else {
            return Ok(ReplyKind::Fixed(FixedReply::BadSequence));
        };
        if let Some(refusal) = self.source_text(from)? {
            return Ok(ReplyKind::Fixed(refusal));
        }
        let Some(to) = self.see(text, Sight::Path)? else {
            return Ok(ReplyKind::Fixed(FixedReply::NameRefused));
        };
        match move_to(&mut self.tree, self.rights.onto, &self.root, from, &to) {
            Ok(()) => Ok(ReplyKind::Fixed(FixedReply::Done)),
            Err(fault) => refused(fault, FixedReply::NameRefused),
        }
    }

    /// Why what RNFR named can't be renamed any more: the account may not, or it went since, or it is in use. It is looked at where the account may.
    fn source_text(&mut self, from: &Path<A>) -> Result<Option<FixedReply>, Fault>
        ensures why { IfOk result (λ why. why ≡ option_map refusal_text (refused_source (session_of T.table J.view self.new) from.now)) }
        ensures looked { Looks T.table T.failures self.old self.new result }
    {
        if !self.rights.rename {
            return Ok(Some(FixedReply::NotAllowed));
        }
        look(&mut self.tree, &self.root, from, Sight::Path)?;
        known_to_fit(from);
        if is_held(&self.tree, &self.root, from, &self.cwd) {
            return Ok(Some(FixedReply::Refused));
        }
        Ok(None)
    }
}

/// A path is within the limits of paths, since none is made past them.
fn known_to_fit<A: Allocator + Copy>(path: &Path<A>)
    ensures { fits path.now ≡ true }
{
    let _key = path.key();
}

/// What a call that the tree refused makes of a command: refused memory and a failed device are told as such, any other refusal by a
/// reply.
fn refused<A: Allocator + Copy>(
    fault: TreeFault,
    text: FixedReply,
) -> Result<ReplyKind<Path<A>>, Fault>
    ensures { RefusedAs fault text result }
{
    match fault {
        TreeFault::Memory => Err(Fault::Memory),
        TreeFault::Device => Err(Fault::Device),
        _ => Ok(ReplyKind::Fixed(text)),
    }
}

/// What a reading that the tree refused makes of a command: a failed device is told as such, and all else as want of memory, since a
/// reading is refused for no other reason.
pub(crate) fn lost(fault: TreeFault) -> Fault
    ensures { result ≡ lost_as fault }
{
    match fault {
        TreeFault::Device => Fault::Device,
        _ => Fault::Memory,
    }
}
