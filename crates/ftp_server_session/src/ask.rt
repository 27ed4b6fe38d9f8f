// REST, SIZE, MDTM and MLST (RFC 3659, sections 3, 4, 5 and 7).
ghost use Rattle.std.specs.Prelude.{◌≡◌, Ok};
ghost use Rattle.ftp_command.specs.Line.{IfGiven};
ghost use Rattle.ftp_path.specs.Path.{IsPathText};
ghost use Rattle.ftp_server_model.specs.Ask.{has_size, mdtm, mlst, size};
ghost use Rattle.ftp_server_model.specs.Transfer.{restart_asked};
ghost use Rattle.ftp_server_model.specs.View.{how_in_force};

use crate::session::Session;
use crate::walk::lost;
use ftp_command::Argument;
use ftp_direct::{absent_fault, is_counted, len_at, takes_offset, wire_len};
use ftp_facts::moment_text;
use ftp_operation::{How, is_number};
use ftp_path::Path;
use ftp_server_model::{FixedReply, Pending, ReplyKind};
use ftp_server_replies::{Fault, ServerTransfer};
use ftp_settings::{Mode, Representation, Structure};
use ftp_tree::{Sight, Tree};
use std::alloc::Allocator;

impl<A: Allocator + Copy, T: Tree<A>, J: ServerTransfer<A, T>> Session<A, T, J> {
    ghost use Rattle.ftp_server_session.specs.Little.{LeavesLittle};
    ghost use Rattle.ftp_server_session.specs.Session.{Turns, session_of};

    /// REST.
    pub(crate) fn rest(&mut self, offset: u64) -> ReplyKind<Path<A>>
        ensures turn { (session_of T.table J.view self.new, result) ≡ restart_asked offset (session_of T.table J.view self.old) }
        ensures tree { self.new.tree ≡ self.old.tree }
        ensures little { LeavesLittle 0 self.old self.new (Ok result) }
    {
        if !takes_offset(offset, how_in_force(self.settings)) {
            return ReplyKind::Fixed(FixedReply::BadParameter);
        }
        self.pending = Pending::Restart(offset);
        ReplyKind::Restarting(offset)
    }

    /// SIZE.
    pub(crate) fn size(&mut self, text: &[u8]) -> Result<ReplyKind<Path<A>>, Fault>
        requires { IsPathText text.now }
        ensures turn { Turns T.table T.failures J.view (size text.now) self.old self.new result }
        ensures little { LeavesLittle 0 self.old self.new result }
    {
        if !has_size(self.settings) {
            return Ok(ReplyKind::Fixed(FixedReply::Refused));
        }
        let Some(path) = self.see_file(text)? else {
            return Ok(ReplyKind::Fixed(FixedReply::Refused));
        };
        let kind = self.settings.kind;
        if !is_counted(kind, len_at(&self.tree, &self.root, &path)) {
            return Ok(ReplyKind::Fixed(FixedReply::Refused));
        }
        let size = match wire_len(&mut self.tree, &self.root, &path, kind) {
            Ok(size) => size,
            Err(fault) => return Err(lost(fault)),
        };
        if is_number(size) {
            Ok(ReplyKind::Size(size))
        } else {
            Ok(ReplyKind::Fixed(FixedReply::Refused))
        }
    }

    /// MDTM.
    pub(crate) fn modified(&mut self, text: &[u8]) -> Result<ReplyKind<Path<A>>, Fault>
        requires { IsPathText text.now }
        ensures turn { Turns T.table T.failures J.view (mdtm text.now) self.old self.new result }
        ensures little { LeavesLittle 0 self.old self.new result }
    {
        let Some(path) = self.see(text, Sight::Path)? else {
            return Ok(ReplyKind::Fixed(FixedReply::Refused));
        };
        match self.tree.stamp(&self.root, &path) {
            Some(moment) => Ok(ReplyKind::Stamp(moment_text(moment))),
            None => Ok(ReplyKind::Fixed(FixedReply::Refused)),
        }
    }

    /// MLST.
    pub(crate) fn entry(&mut self, text: &Option<Argument<A>>) -> Result<ReplyKind<Path<A>>, Fault>
        requires { IfGiven IsPathText text.now }
        ensures turn { Turns T.table T.failures J.view (mlst text.now) self.old self.new result }
        ensures little { LeavesLittle 0 self.old self.new result }
    {
        let Some(path) = self.see_here(text, Sight::Path)? else {
            return Ok(ReplyKind::Fixed(FixedReply::Refused));
        };
        if absent_fault(&self.tree, &self.root, &path).is_some() {
            return Ok(ReplyKind::Fixed(FixedReply::Refused));
        }
        Ok(ReplyKind::Entry(path))
    }
}

/// Whether a size is told in these settings.
fn has_size(settings: Representation) -> bool
    ensures { result ≡ has_size settings }
{
    matches!(settings.structure, Structure::File) && matches!(settings.mode, Mode::Stream)
}

/// The settings as an operation asks for them.
fn how_in_force(representation: Representation) -> How
    ensures { result ≡ how_in_force representation }
{
    How {
        representation,
        marks: false,
        active: false,
        extended: false,
    }
}
