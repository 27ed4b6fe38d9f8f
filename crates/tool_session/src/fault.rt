// Why a program stops before it has an answer of the server.
ghost use Rattle.std.specs.Prelude.{◌≡◌, IfOk};
ghost use Rattle.tool_session.specs.Fault.{stop_status, with_fault};

use crate::saying::told;
use crate::subject::{Stop, Subject};
use std::io;
use std::io::{Eprint, Error, ErrorKind};
use tool_terminal::Status;

/// What was under way.
#[derive(Clone, Copy)]
pub enum Phase {
    Login,
    Asking,
    Connection,
    /// Over a control connection that was made.
    Talking,
    Reading,
    Writing,
    Script,
    Listing,
    Report,
}

impl Phase {
    /// What failed, as it is told before the error.
    pub(crate) fn sentence(self) -> &'static str {
        match self {
            Phase::Login => "no login",
            Phase::Asking => "nothing is asked",
            Phase::Connection => "no connection",
            Phase::Talking => "the control connection ended",
            Phase::Reading => "it is not read",
            Phase::Writing => "it is not written",
            Phase::Script => "the script is not read",
            Phase::Listing => "the listing is not taken",
            Phase::Report => "no report",
        }
    }

    /// The exit status of a program that stops here.
    fn status(self) -> Status
        ensures { result ≡ stop_status self }
    {
        match self {
            Phase::Login => Status::BadWords,
            Phase::Listing => Status::Refused,
            _ => Status::Failed,
        }
    }
}

/// What was under way, and what failed.
#[derive(Clone, Copy)]
pub struct SessionFault {
    stage: Phase,
    error: Error,
}

/// What was done at a stage, or that it stops the program.
pub fn at<T: Drop>(stage: Phase, done: io::Result<T>) -> Result<T, SessionFault>
    // Witness: an equation; `edits/each_fault_is_one_of_the_login`.
    ensures { result ≡ with_fault (λ error. record { stage = stage; error = error }) done }
{
    match done {
        Ok(value) => Ok(value),
        Err(error) => Err(SessionFault { stage, error }),
    }
}

impl SessionFault {
    /// Memory was refused before anything was asked.
    pub fn of_memory() -> SessionFault
        // Witness: `edits/refused_memory_is_a_bad_login`.
        ensures { result.stage ≡ Phase.Asking }
    {
        SessionFault {
            stage: Phase::Asking,
            error: Error::from(ErrorKind::OutOfMemory),
        }
    }

    /// What was under way.
    pub fn stage(&self) -> Phase
        ensures { result ≡ self.now.stage }
    {
        self.stage
    }

    /// Tells why on standard error, with what was refused of what was asked, and gives the exit status: that of bad words for a bad login, that of a refusal
    /// for a listing, and else that of a failure.
    pub fn tell<R: Eprint>(&self, rt: &R, subject: Subject<'_>) -> io::Result<Status>
        // Witness: `edits/a_login_that_is_not_had_is_done`.
        ensures { IfOk result (λ status. status ≡ stop_status self.now.stage) }
    {
        let status = self.stage.status();
        let stop = Stop {
            stage: self.stage,
            error: self.error,
            subject,
        };
        told(rt, "error: ", &stop, "", status)
    }
}
