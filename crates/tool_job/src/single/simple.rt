// Operations that need no data connection: a table, how each is asked, and what is told of its answer.
ghost use Rattle.std.specs.Prelude.{◌≡◌, IfOk, true};
ghost use Rattle.tool_terminal.specs.declared.status.Status.TheVariants.{Done};
ghost use Rattle.tool_job.specs.single.Simple.{DoesOnce, IsAnswered, IsAskedOnce, change_of, op_of, reported_status};

use crate::single::target::Target;
use ftp_facts::Text;
use ftp_operation::{Answer, How, Op};
use std::alloc::{AllocError, Global};
use std::io;
use std::io::{Eprint, Print};
use tool_connect::{Converses, Logins, converse_as};
use tool_resume::tell;
use tool_session::{
    ClientSession, LastReply, Phase, Request, ServerAddress, SessionFault, SessionTask, at,
};
use tool_terminal::Status;

/// What is done at a path without a data connection.
#[derive(Clone, Copy)]
pub enum Simple<'a> {
    /// A file is removed.
    Remove,
    /// A directory is made.
    MakeDirectory,
    /// An empty directory is removed.
    RemoveDirectory,
    /// A file or a directory has this path from then on.
    Move(&'a str),
    /// How many octets a file has.
    Size,
}

/// The operation of a word at a path. Fails where memory is refused.
fn op_of(
    alloc: Global,
    simple: Simple<'_>,
    path: Text<Global>,
    how: How,
) -> Result<Op<Text<Global>>, AllocError>
    // Witness: an equation; `edits/a_directory_is_removed_by_dele`.
    ensures { IfOk result (λ op. op ≡ op_of simple.entry path how) }
{
    Ok(match simple {
        Simple::Remove => Op::Delete(path),
        Simple::MakeDirectory => Op::MakeDir(path),
        Simple::RemoveDirectory => Op::RemoveDir(path),
        Simple::Move(to) => Op::Rename(path, Text::copy_of(alloc, to.as_bytes())?),
        Simple::Size => Op::Size(path, how),
    })
}

/// What a word says at a path, asked once: what changes something is not asked again.
#[derive(Drop)]
struct Change<'a> {
    alloc: Global,
    simple: Simple<'a>,
    path: &'a str,
    how: How,
}

impl<'a> Change<'a> {
    /// What is asked. Fails where memory is refused.
    fn request(&self) -> Result<Request, AllocError>
        ensures { IfOk result (λ request. request ≡ change_of self.now.simple self.now.path.now self.now.how) }
    {
        let path = Text::copy_of(self.alloc, self.path.as_bytes())?;
        let op = op_of(self.alloc, self.simple, path, self.how)?;
        Ok(Request::One(Some(op)))
    }
}

impl<'a> SessionTask<Result<Answer<Global>, SessionFault>> for Change<'a> {
    ghost tells = { true };

    ghost plays = { λ heard result old new. IfOk result (IsAskedOnce (change_of old.simple old.path.now old.how) heard) };

    fn play<S: ClientSession>(&mut self, slot: &mut S) -> Result<Answer<Global>, SessionFault> {
        match self.request() {
            Ok(request) => Ok(slot.answer(request)),
            Err(AllocError) => Ok(Answer::Memory),
        }
    }
}

/// Does what a word says, once, over one control connection, and gives the exit status; a size goes to standard output, and why it is not done to standard
/// error. Fails where nothing could be asked, or a report can't be written.
pub fn do_simple<R>(
    rt: &R,
    alloc: Global,
    asked: &Target<'_>,
    simple: Simple<'_>,
    last_reply: &mut LastReply,
) -> Result<Status, SessionFault>
where
    R: Converses + Logins + Print + Eprint,
    // Witness of once: `edits/a_change_is_not_asked`, `a_change_is_asked_twice`, `another_change_is_asked`, `a_refused_change_is_done`.
    // Witness of done: the same.
    ensures once { DoesOnce (R.hears rt.now 1) (change_of simple.entry asked.now.place.path.now asked.now.how) result }
    ensures done { IfOk result (λ status. status ≡ Done → IsAnswered (R.hears rt.now 1) (change_of simple.entry asked.now.place.path.now asked.now.how)) }
{
    let mut change = Change {
        alloc,
        simple,
        path: asked.place.path,
        how: asked.how,
    };
    let server = ServerAddress {
        at_once: 1,
        ..asked.server()
    };
    let answer = converse_as(rt, server, asked.user, last_reply, &mut change)?;
    at(Phase::Report, report(rt, asked, &answer, last_reply))
}

/// Tells an answer at a path: a size on standard output, what was done not at all, and anything else as `tell` does. `last_reply` is what the server said
/// last. Fails where the report can't be written.
pub fn report<R: Print + Eprint>(
    rt: &R,
    asked: &Target<'_>,
    answer: &Answer<Global>,
    last_reply: &LastReply,
) -> io::Result<Status>
    // Witness: `edits/a_directory_that_was_made_is_a_failure`.
    ensures { IfOk result (λ status. status ≡ reported_status answer.now) }
{
    match answer {
        Answer::Done | Answer::Path(_) => Ok(Status::Done),
        Answer::Number(count) => {
            println!(rt; "{count}")?;
            Ok(Status::Done)
        }
        _ => {
            let status = tell(rt, asked.place.path, asked.stranger(), answer, last_reply)?;
            Ok(status)
        }
    }
}
