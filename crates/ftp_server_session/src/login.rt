// USER, PASS, REIN and QUIT (RFC 959, sections 4.1.1 and 5.4).
ghost use Rattle.std.specs.Prelude.{◌≡◌, [], Ok, length};
ghost use Rattle.ftp_operation.specs.Rights.{no_rights};
ghost use Rattle.ftp_server_model.specs.Login.{logged_out, logs_in, pass, quit, rein, user};

use crate::look::look;
use crate::session::{DEFAULTS, Session};
use ftp_command::Argument;
use ftp_direct::is_dir;
use ftp_facts::{Facts, Text};
use ftp_operation::{Account, Accounts, Rights};
use ftp_path::Path;
use ftp_server_model::{Access, FixedReply, Life, ReplyKind};
use ftp_server_replies::{Fault, ServerTransfer};
use ftp_tree::{Sight, Tree};
use std::alloc::Allocator;

impl<A: Allocator + Copy, T: Tree<A>, J: ServerTransfer<A, T>> Session<A, T, J> {
    ghost use Rattle.ftp_server_session.specs.Little.{LeavesLittle};
    ghost use Rattle.ftp_server_session.specs.Session.{Turns, session_of};

    /// Who is logged in, the root of his account and what he may change, from now on; that root is the current directory.
    fn enter(&mut self, access: Access<Argument<A>>, root: Path<A>, rights: Rights)
        ensures view { session_of T.table J.view self.new ≡ record (session_of T.table J.view self.old) { access = access; root = root; rights = rights; cwd = [] } }
        ensures tree { self.new.tree ≡ self.old.tree }
        ensures access { self.new.access ≡ access }
        ensures connection { self.new.connection ≡ self.old.connection }
    {
        self.access = access;
        self.root = root;
        self.rights = rights;
        self.cwd = Path::root(self.alloc);
    }

    /// Nobody is logged in any longer.
    fn log_out(&mut self)
        ensures view { session_of T.table J.view self.new ≡ logged_out (session_of T.table J.view self.old) }
        ensures tree { self.new.tree ≡ self.old.tree }
        ensures access { self.new.access ≡ Access.Nobody }
        ensures connection { self.new.connection ≡ self.old.connection }
    {
        self.enter(Access::Nobody, Path::root(self.alloc), Rights::none());
    }

    /// A login is done where a directory stands at the root of its account.
    fn log_in(&mut self, account: &Account<Text<A>, Path<A>>) -> Result<ReplyKind<Path<A>>, Fault>
        ensures turn { Turns T.table T.failures J.view (logs_in account.now) self.old self.new result }
        ensures little { LeavesLittle 0 self.old self.new result }
    {
        let top = Path::root(self.alloc);
        look(&mut self.tree, &top, &account.root, Sight::Path)?;
        if !is_dir(&self.tree, &top, &account.root) {
            self.log_out();
            return Ok(ReplyKind::Fixed(FixedReply::LoginRefused));
        }
        let Ok(root) = account.root.copy(self.alloc) else {
            return Err(Fault::Memory);
        };
        self.enter(Access::Known, root, account.rights);
        Ok(ReplyKind::Fixed(FixedReply::LoggedIn))
    }

    /// USER. The name that waits for its password takes no memory of its own.
    pub(crate) fn user(
        &mut self,
        accounts: &Accounts<A>,
        name: Argument<A>,
    ) -> Result<ReplyKind<Path<A>>, Fault>
        ensures turn { Turns T.table T.failures J.view (user accounts.now name) self.old self.new result }
        ensures little { LeavesLittle (length name) self.old self.new result }
    {
        if let Some(account) = accounts.open_account(name.octets()) {
            return self.log_in(account);
        }
        self.enter(
            Access::AwaitsPass(name),
            Path::root(self.alloc),
            Rights::none(),
        );
        Ok(ReplyKind::Fixed(FixedReply::PasswordNeeded))
    }

    /// PASS.
    pub(crate) fn pass(
        &mut self,
        accounts: &Accounts<A>,
        word: &[u8],
    ) -> Result<ReplyKind<Path<A>>, Fault>
        ensures turn { Turns T.table T.failures J.view (λ s. pass s.access accounts.now word.now s) self.old self.new result }
        ensures little { LeavesLittle 0 self.old self.new result }
    {
        let account = match &self.access {
            Access::AwaitsPass(name) => accounts.account_of(name.octets(), word),
            Access::Nobody | Access::Known => return Ok(ReplyKind::Fixed(FixedReply::BadSequence)),
        };
        if let Some(account) = account {
            return self.log_in(account);
        }
        self.log_out();
        Ok(ReplyKind::Fixed(FixedReply::LoginRefused))
    }

    /// REIN.
    pub(crate) fn rein(&mut self) -> ReplyKind<Path<A>>
        ensures turn { (session_of T.table J.view self.new, result) ≡ rein (session_of T.table J.view self.old) }
        ensures tree { self.new.tree ≡ self.old.tree }
        ensures little { LeavesLittle 0 self.old self.new (Ok result) }
    {
        self.forget();
        self.log_out();
        self.settings = DEFAULTS;
        self.facts = Facts::ALL;
        self.only_extended = false;
        ReplyKind::Fixed(FixedReply::Ready)
    }

    /// QUIT.
    pub(crate) fn quit(&mut self) -> ReplyKind<Path<A>>
        ensures turn { (session_of T.table J.view self.new, result) ≡ quit (session_of T.table J.view self.old) }
        ensures tree { self.new.tree ≡ self.old.tree }
        ensures little { LeavesLittle 0 self.old self.new (Ok result) }
    {
        self.forget();
        self.life = Life::Quit;
        ReplyKind::Fixed(FixedReply::Goodbye)
    }
}
