// TYPE, STRU, MODE and OPTS (RFC 959, section 4.1.2; RFC 2389, section 4).
ghost use Rattle.std.specs.Prelude.{◌≡◌, Ok};
ghost use Rattle.ftp_server_model.specs.Setting.{opts, set_kind, set_mode, set_structure};

use crate::options::{is_utf8_on, option_facts};
use crate::session::Session;
use ftp_path::Path;
use ftp_server_model::{FixedReply, ReplyKind};
use ftp_server_replies::ServerTransfer;
use ftp_settings::{Kind, Mode, Structure};
use ftp_tree::Tree;
use std::alloc::Allocator;

impl<A: Allocator + Copy, T: Tree<A>, J: ServerTransfer<A, T>> Session<A, T, J> {
    ghost use Rattle.ftp_server_session.specs.Little.{LeavesLittle};
    ghost use Rattle.ftp_server_session.specs.Session.{session_of};

    /// TYPE.
    pub(crate) fn set_kind(&mut self, kind: Kind) -> ReplyKind<Path<A>>
        ensures turn { (session_of T.table J.view self.new, result) ≡ set_kind kind (session_of T.table J.view self.old) }
        ensures tree { self.new.tree ≡ self.old.tree }
        ensures little { LeavesLittle 0 self.old self.new (Ok result) }
    {
        self.settings.kind = kind;
        ReplyKind::Fixed(FixedReply::TypeSet)
    }

    /// STRU.
    pub(crate) fn set_structure(&mut self, structure: Structure) -> ReplyKind<Path<A>>
        ensures turn { (session_of T.table J.view self.new, result) ≡ set_structure structure (session_of T.table J.view self.old) }
        ensures tree { self.new.tree ≡ self.old.tree }
        ensures little { LeavesLittle 0 self.old self.new (Ok result) }
    {
        self.settings.structure = structure;
        ReplyKind::Fixed(FixedReply::StructureSet)
    }

    /// MODE.
    pub(crate) fn set_mode(&mut self, mode: Mode) -> ReplyKind<Path<A>>
        ensures turn { (session_of T.table J.view self.new, result) ≡ set_mode mode (session_of T.table J.view self.old) }
        ensures tree { self.new.tree ≡ self.old.tree }
        ensures little { LeavesLittle 0 self.old self.new (Ok result) }
    {
        self.settings.mode = mode;
        ReplyKind::Fixed(FixedReply::ModeSet)
    }

    /// OPTS.
    pub(crate) fn opts(&mut self, text: &[u8]) -> ReplyKind<Path<A>>
        ensures turn { (session_of T.table J.view self.new, result) ≡ opts text.now (session_of T.table J.view self.old) }
        ensures tree { self.new.tree ≡ self.old.tree }
        ensures little { LeavesLittle 0 self.old self.new (Ok result) }
    {
        if is_utf8_on(text) {
            return ReplyKind::Fixed(FixedReply::Utf8Set);
        }
        let Some(facts) = option_facts(text) else {
            return ReplyKind::Fixed(FixedReply::BadArgument);
        };
        self.facts = facts;
        ReplyKind::Chosen
    }
}
