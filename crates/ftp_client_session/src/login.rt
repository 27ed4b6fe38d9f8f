// The login (RFC 959, section 5.4).
ghost use Rattle.std.specs.Prelude.{◌≡◌, IsTrue, OnErr, OnOk};
ghost use Rattle.ftp_client_model.specs.Calls.{is_sound};
ghost use Rattle.ftp_client_model.specs.Dialogue.{login_ends, sends};
ghost use Rattle.ftp_client_model.specs.declared.client.Standing.TheVariants as Stands;
ghost use Rattle.ftp_command.specs.declared.command.Command.TheVariants as Commands;

use crate::dialogue::Dialogue;
use crate::task::Task;
use ftp_client_model::client::Standing;
use ftp_client_steps::ClientTransfer;
use ftp_command::{Argument, Command};
use std::alloc::{AllocError, Allocator};

impl<A: Allocator + Copy, F: ClientTransfer<A>> Dialogue<A, F> {
    ghost use Rattle.ftp_client_session.specs.Client.{view_of};

    /// USER is sent, and its reply awaited.
    pub(crate) fn send_user(&mut self) -> Result<(), AllocError>
        requires { (view_of F.flow self.old).standing ≡ Standing.Greeting }
        ensures ok { OnOk result (view_of F.flow self.new
            ≡ sends (Commands.User (view_of F.flow self.old).user) (record (view_of F.flow self.old) { standing = Stands.User })) }
        ensures err { OnErr result (view_of F.flow self.new ≡ view_of F.flow self.old) }
    {
        let user = Argument::new(self.alloc, self.login.user())?;
        self.send(Command::User(user))?;
        self.standing = Standing::User;
        Ok(())
    }

    /// PASS is sent, and its reply awaited.
    pub(crate) fn send_pass(&mut self) -> Result<(), AllocError>
        requires { (view_of F.flow self.old).standing ≡ Standing.User }
        ensures ok { OnOk result (view_of F.flow self.new
            ≡ sends (Commands.Pass (view_of F.flow self.old).pass) (record (view_of F.flow self.old) { standing = Stands.Pass })) }
        ensures err { OnErr result (view_of F.flow self.new ≡ view_of F.flow self.old) }
    {
        let pass = Argument::new(self.alloc, self.login.pass())?;
        self.send(Command::Pass(pass))?;
        self.standing = Standing::Pass;
        Ok(())
    }

    /// Operations are sent from now on, and one that waits begins.
    pub(crate) fn login_ends(&mut self) -> Result<(), AllocError>
        requires { IsTrue (is_sound self.old.standing) }
        ensures ok { OnOk result (view_of F.flow self.new ≡ login_ends (view_of F.flow self.old)) }
        ensures err { OnErr result (view_of F.flow self.new ≡ view_of F.flow self.old) }
    {
        let before = self.standing;
        self.standing = Standing::Entered;
        let Task::Waiting = &self.place else {
            return Ok(());
        };
        let begun = self.begin();
        if begun.is_err() {
            self.standing = before;
        }
        begun
    }
}
