// What follows a step that was answered well (RFC 959, section 5.4).
ghost use Rattle.std.specs.Prelude.{◌≡◌, IsTrue, OnErr, OnOk};
ghost use Rattle.ftp_client_model.specs.Calls.{is_sound};
ghost use Rattle.ftp_client_model.specs.Dialogue.{answer_in, dials, finishes_read, set_accepted};

use crate::dialogue::Dialogue;
use crate::task::Task;
use ftp_client_model::client::{ClientLink, Step};
use ftp_client_steps::{ClientTransfer, answer_in, asked_settings, settings_behind};
use ftp_endpoint::Endpoint;
use ftp_reply::Reply;
use std::alloc::{AllocError, Allocator};

impl<A: Allocator + Copy, F: ClientTransfer<A>> Dialogue<A, F> {
    ghost use Rattle.ftp_client_session.specs.Client.{shorted, view_of};

    /// The operation is answered with what the reply to its own command says.
    pub(crate) fn read_answer(&mut self, reply: &Reply<A>) -> Result<(), AllocError>
        requires { IsTrue (is_sound self.old.standing) }
        ensures ok { OnOk result (view_of F.flow self.new ≡ finishes_read (answer_in self.old.op reply.now.lines) (view_of F.flow self.old)) }
        ensures err { OnErr result (shorted (view_of F.flow self.new) ≡ shorted (view_of F.flow self.old)) }
        ensures sound { OnErr result (IsTrue (is_sound self.new.standing)) }
    {
        let Ok(answer) = answer_in(&self.op, reply, &self.alloc) else {
            return Err(AllocError);
        };
        self.finish_read(answer)
    }

    /// The settings are those that the server accepted.
    pub(crate) fn set_accepted(&mut self, step: Step) -> Result<(), AllocError>
        requires { IsTrue (is_sound self.old.standing) }
        ensures ok { OnOk result (view_of F.flow self.new ≡ set_accepted self.old.op step (view_of F.flow self.old)) }
        ensures err { OnErr result (shorted (view_of F.flow self.new) ≡ shorted (view_of F.flow self.old)) }
        ensures sound { OnErr result (IsTrue (is_sound self.new.standing)) }
    {
        let before = self.settings;
        self.settings = settings_behind(step, before, asked_settings(&self.op));
        let done = self.go_on(step);
        if done.is_err() {
            self.settings = before;
        }
        done
    }

    /// The link is to be opened to an endpoint.
    pub(crate) fn dial(&mut self, endpoint: Endpoint)
        requires { IsTrue (is_sound self.old.standing) }
        ensures { view_of F.flow self.new ≡ dials self.old.op endpoint (view_of F.flow self.old) }
    {
        self.connection = ClientLink::Connecting(endpoint);
        self.place = Task::Doing(Step::Connect);
    }
}
