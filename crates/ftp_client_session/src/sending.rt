// What a client sends (RFC 959, sections 4.1 and 5.3).
ghost use Rattle.std.specs.Prelude.{◌≡◌, ◌++◌, IfOk, IsTrue, OnErr, OnOk, option_map};
ghost use Rattle.ftp_client_model.specs.Calls.{is_sound};
ghost use Rattle.ftp_client_model.specs.Dialogue.{begins, goes_on, last_job, placed, sends, sends_if};
ghost use Rattle.ftp_client_model.specs.Plan.{may_ask_extended, command_of, is_extended, own_endpoint, port_of};
ghost use Rattle.ftp_client_model.specs.View.{Doing, Transferring};
ghost use Rattle.ftp_command.specs.Line.{line_of};
ghost use Rattle.ftp_nvt.specs.Lines.{written_line};

use crate::dialogue::Dialogue;
use crate::task::{Task, Transfer};
use ftp_client_model::client::{Abort, ClientLink, Replied, Step};
use ftp_client_steps::{
    ClientTransfer, Output, asked_settings, first_step, how_of, next_step, offset_of, own_command,
    passive_command, port_command, restart_command, set_command, source_command,
};
use ftp_command::{Argument, Command};
use ftp_endpoint::Endpoint;
use ftp_ends::is_v6;
use ftp_operation::How;
use std::alloc::{AllocError, Allocator};

impl<A: Allocator + Copy, F: ClientTransfer<A>> Dialogue<A, F> {
    ghost use Rattle.ftp_client_session.specs.Client.{view_of};

    /// A command's line is owed. Without memory nothing changes.
    pub(crate) fn send(&mut self, command: Command<Argument<A>>) -> Result<(), AllocError>
        ensures ok { OnOk result (view_of F.flow self.new ≡ sends command (view_of F.flow self.old)) }
        ensures err { OnErr result (view_of F.flow self.new ≡ view_of F.flow self.old) }
        ensures op { self.new.op ≡ self.old.op }
    {
        owe(&mut self.output, command, &self.alloc)
    }

    /// The operation is at a step: its command is sent, or a port is wanted. Without memory nothing changes.
    pub(crate) fn place_at(&mut self, step: Step) -> Result<(), AllocError>
        requires { IsTrue (is_sound self.old.standing) }
        ensures ok { OnOk result (view_of F.flow self.new ≡ placed self.old.op step (view_of F.flow self.old)) }
        ensures err { OnErr result (view_of F.flow self.new ≡ view_of F.flow self.old) }
    {
        match step {
            Step::Listen => {
                self.place = Task::Doing(Step::Listen);
                self.connection = ClientLink::ListenWanted;
                Ok(())
            }
            Step::Last => self.place_last(),
            Step::Kind | Step::Structure | Step::Mode => self.place_step(step),
            Step::Port | Step::Passive | Step::Connect => self.place_step(step),
            Step::Restart | Step::Source => self.place_step(step),
        }
    }

    /// The operation begins.
    pub(crate) fn begin(&mut self) -> Result<(), AllocError>
        requires { IsTrue (is_sound self.old.standing) }
        ensures ok { OnOk result (view_of F.flow self.new ≡ begins self.old.op (view_of F.flow self.old)) }
        ensures err { OnErr result (view_of F.flow self.new ≡ view_of F.flow self.old) }
    {
        let step = first_step(self.settings, &self.op);
        self.place_at(step)
    }

    /// The operation goes on behind a step that was answered well.
    pub(crate) fn go_on(&mut self, step: Step) -> Result<(), AllocError>
        requires { IsTrue (is_sound self.old.standing) }
        ensures ok { OnOk result (view_of F.flow self.new ≡ goes_on self.old.op step (view_of F.flow self.old)) }
        ensures err { OnErr result (view_of F.flow self.new ≡ view_of F.flow self.old) }
    {
        let step = next_step(self.settings, &self.op, step);
        self.place_at(step)
    }

    /// With its own command an operation's transfer begins, where it has one.
    fn place_last(&mut self) -> Result<(), AllocError>
        requires { IsTrue (is_sound self.old.standing) }
        ensures ok { OnOk result (view_of F.flow self.new ≡ placed self.old.op Step.Last (view_of F.flow self.old)) }
        ensures err { OnErr result (view_of F.flow self.new ≡ view_of F.flow self.old) }
    {
        let flow = F::begin(&self.op, &self.alloc)?;
        let command = own_command(&self.op, &self.alloc)?;
        self.send(command)?;
        self.move_last(flow);
        Ok(())
    }

    /// The operation's own command was sent: its transfer begins, where it has one.
    fn move_last(&mut self, flow: Option<F>)
        requires { IsTrue (is_sound self.old.standing) }
        ensures { view_of F.flow self.new
            ≡ record (view_of F.flow self.old) { job = last_job self.old.op (option_map (F.flow self.old.op) flow) } }
    {
        self.place = match flow {
            None => Task::Doing(Step::Last),
            Some(flow) => Task::Transferring(Transfer {
                replied: Replied::Nothing,
                abort: Abort::Unsent,
                flow,
            }),
        };
    }

    /// The command of a step is sent, where it has one.
    fn place_step(&mut self, step: Step) -> Result<(), AllocError>
        requires { IsTrue (is_sound self.old.standing) }
        ensures ok { OnOk result (view_of F.flow self.new
            ≡ sends_if (command_of (view_of F.flow self.old) self.old.op step) (record (view_of F.flow self.old) { job = Doing self.old.op step })) }
        ensures err { OnErr result (view_of F.flow self.new ≡ view_of F.flow self.old) }
    {
        if let Some(command) = self.command(step)? {
            owe(&mut self.output, command, &self.alloc)?;
        }
        self.place = Task::Doing(step);
        Ok(())
    }

    /// The command that a step sends, where it sends one.
    fn command(&self, step: Step) -> Result<Option<Command<Argument<A>>>, AllocError>
        ensures { IfOk result (λ command. command ≡ command_of (view_of F.flow self.now) self.now.op step) }
    {
        match step {
            Step::Kind | Step::Structure | Step::Mode => Ok(set_command(
                step,
                asked_settings(&self.op),
            )),
            Step::Listen | Step::Connect => Ok(None),
            Step::Port => Ok(Some(port_command(self.is_extended(), self.own_endpoint()))),
            Step::Passive => Ok(Some(passive_command(self.is_extended()))),
            Step::Restart => Ok(restart_command(offset_of(&self.op))),
            Step::Source => source_command(&self.op, &self.alloc),
            Step::Last => Ok(Some(own_command(&self.op, &self.alloc)?)),
        }
    }

    /// Whether EPRT or EPSV is sent, and not PORT or PASV.
    pub fn is_extended(&self) -> bool
        ensures { result ≡ is_extended (view_of F.flow self.now) self.now.op }
    {
        asks_extended(how_of(&self.op)) || is_v6(self.peer)
    }

    /// The endpoint that PORT or EPRT names.
    fn own_endpoint(&self) -> Endpoint
        ensures { result ≡ own_endpoint (view_of F.flow self.now) }
    {
        Endpoint {
            host: self.here,
            port: port_of(self.connection),
        }
    }
}

/// Owes a command's line. Without memory nothing changes. What sends a command gives it away here: each drop of one is proved anew.
fn owe<A: Allocator + Copy>(
    output: &mut Output<A>,
    command: Command<Argument<A>>,
    alloc: &A,
) -> Result<(), AllocError>
    ensures ok { OnOk result (output.new ≡ output.old ++ written_line (line_of command)) }
    ensures err { OnErr result (output.new ≡ output.old) }
{
    output.put_command(&command, alloc)
}

/// Whether EPRT or EPSV was asked for.
fn asks_extended(how: Option<How>) -> bool
    ensures { result ≡ may_ask_extended how }
{
    match how {
        None => false,
        Some(how) => how.extended,
    }
}

/// The port that is listened at.
fn port_of(connection: ClientLink) -> u16
    ensures { result ≡ port_of connection }
{
    match connection {
        ClientLink::Listening(port) => port,
        _ => 0,
    }
}
