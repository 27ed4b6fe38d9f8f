// A mirror from its first connection to its last line.
ghost use Rattle.std.specs.Prelude.{◌≡◌};
ghost use Rattle.tool_mirror.specs.Walk.{end_by};

use crate::machine::LocalMachine;
use crate::request::MirrorRequest;
use crate::walk::MirrorWalk;
use ftp_operation::Answer;
use std::alloc::Global;
use std::env::Env;
use std::fs::{File, Files};
use std::io;
use std::io::{Eprint, Print};
use std::net::{Net, TcpListener, TcpStream};
use std::time::Clock;
use tool_connect::{Converses, Logins, ask};
use tool_files::LocalFiles;
use tool_session::{LastReply, SessionFault, Subject, say, told};
use tool_terminal::Status;

/// How often a mirror goes on that got further over the control connections before.
const ROUNDS: u32 = 1_000_000;

/// What is told before the reply of a server that knows neither MLSD nor LIST.
const NO_LISTING: &str = "error: the server lists nothing, by which a mirror goes: ";

/// What is told before what the server said last.
const ENDED: &str = "error: the control connection ended";

/// Mirrors a tree, and gives the exit status: 0; 1 where something was refused or failed; 2 for a bad login; 3 where the control connection or a
/// device failed, or memory was refused. All that is not done is told on standard error, and at the end how much was.
pub fn mirror<R>(rt: &R, asked: MirrorRequest<'_>) -> io::Result<Status>
where
    R: Net<Listener = TcpListener, Stream = TcpStream>
        + Files<File = File>
        + Env
        + Print
        + Eprint
        + Clock
        + AllocGlobal
        + Clone
        + Drop,
{
    let asked = MirrorRequest {
        begun: rt.present(),
        ..asked
    };
    let mut last_reply = LastReply::new();
    let mut walk = MirrorWalk::new(rt, rt.alloc(), &asked)?;
    let answered = walked(rt, &asked, &mut walk, &mut last_reply);
    walk.give_up();
    let end = end_of(&answered, walk.tally.failed);
    let status = tell_end(rt, &asked, end, &last_reply);
    say(rt, "", &walk.tally, "")?;
    status
}

/// Goes on as long as each round of control connections gets further.
fn walked<R>(
    rt: &R,
    asked: &MirrorRequest<'_>,
    walk: &mut MirrorWalk<'_, R>,
    last_reply: &mut LastReply,
) -> Result<Answer<Global>, SessionFault>
where
    R: Converses + Logins + LocalMachine,
{
    for _ in 0..ROUNDS {
        let before = walk.reach();
        let answered = ask(rt, asked.server, asked.user, last_reply, walk);
        let is_lost = matches!(&answered, Ok(Answer::Lost));
        if !is_lost || walk.reach() == before {
            return answered;
        }
        drop(answered);
    }
    Ok(Answer::Lost)
}

/// How a mirror ended.
#[derive(Clone, Copy)]
pub(crate) enum MirrorEnd {
    /// All was done.
    Whole,
    /// All was tried, and something failed.
    InPart,
    /// The server lists nothing: the code of its reply.
    Unlisted(u16),
    /// The control connection ended.
    Lost,
    NoMemory,
    /// There was no answer of the server.
    Stopped(SessionFault),
}

/// How a mirror ended that was answered so, and in which so many things failed.
fn end_of(answered: &Result<Answer<Global>, SessionFault>, failed: u64) -> MirrorEnd
    // Witness: an equation; `edits/a_mirror_with_failures_is_whole`.
    ensures { result ≡ end_by answered.now failed }
{
    match answered {
        Ok(Answer::Done) => {
            if failed == 0 {
                MirrorEnd::Whole
            } else {
                MirrorEnd::InPart
            }
        }
        Ok(Answer::Refused(code)) => MirrorEnd::Unlisted(*code),
        Ok(Answer::Lost) => MirrorEnd::Lost,
        Ok(_) => MirrorEnd::NoMemory,
        Err(stop) => MirrorEnd::Stopped(*stop),
    }
}

/// Tells why a mirror came to no end, and gives the exit status.
fn tell_end<R: Eprint>(
    rt: &R,
    asked: &MirrorRequest<'_>,
    end: MirrorEnd,
    last_reply: &LastReply,
) -> io::Result<Status> {
    match end {
        MirrorEnd::Whole => Ok(Status::Done),
        MirrorEnd::InPart => Ok(Status::Refused),
        MirrorEnd::Unlisted(code) => told(
            rt,
            NO_LISTING,
            &last_reply.refusal(code),
            "",
            Status::Refused,
        ),
        MirrorEnd::Lost => told(
            rt,
            ENDED,
            &last_reply.farewell(),
            "; another run goes on",
            Status::Failed,
        ),
        MirrorEnd::NoMemory => told(rt, "error: ", &"out of memory", "", Status::Failed),
        MirrorEnd::Stopped(stop) => stop.tell(rt, subject_of(asked)),
    }
}

/// What a fault may be of.
fn subject_of<'a>(asked: &MirrorRequest<'a>) -> Subject<'a> {
    Subject {
        server: asked.server,
        password_file: asked.user.password_file,
        file: asked.folder,
    }
}
