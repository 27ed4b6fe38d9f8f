// A directory of a server, and those above it that are missing.
ghost use Rattle.std.specs.Prelude.{◌≡◌, ◌≢◌, IfOk, IfSome, List, true};
ghost use Rattle.tool_job.specs.single.Parents.{EndsAt, MakesAll, entering, is_made, is_passed, is_refused, making};
ghost use Rattle.tool_job.specs.single.Simple.{IsAskedOnce, reported_status};
ghost use Rattle.tool_session.specs.Talking.{HasExchanged, SessionExchange};
ghost use Rattle.tool_terminal.specs.declared.status.Status.TheVariants.{Done};

use crate::single::simple::report;
use crate::single::target::Target;
use ftp_facts::Text;
use ftp_operation::{Answer, Op};
use std::alloc::Global;
use std::io::{Eprint, Print};
use tool_connect::{Converses, Logins, converse_as};
use tool_session::{
    ClientSession, LastReply, Phase, Request, ServerAddress, SessionFault, SessionTask, at,
};
use tool_terminal::Status;

/// Makes the directory at a path and those above it, over one control connection, and gives the exit status. One that stands is as well; whether the
/// last does is asked first, and why it can't be made is told on standard error. Fails where nothing could be asked, or a report can't be written.
pub fn make_all<R>(
    rt: &R,
    alloc: Global,
    asked: &Target<'_>,
    last_reply: &mut LastReply,
) -> Result<Status, SessionFault>
where
    R: Converses + Logins + Print + Eprint,
    // Witness: `edits/a_directory_above_is_enough`, `a_directory_is_not_looked_for`.
    ensures { MakesAll (R.hears rt.now 1) asked.now.place.path.now result }
{
    let mut making = Making {
        alloc,
        path: asked.place.path,
    };
    let server = ServerAddress {
        at_once: 1,
        ..asked.server()
    };
    let answer = converse_as(rt, server, asked.user, last_reply, &mut making)?;
    at(Phase::Report, report(rt, asked, &answer, last_reply))
}

/// A directory that is to stand at a path.
#[derive(Drop)]
struct Making<'a> {
    alloc: Global,
    path: &'a str,
}

impl<'a> SessionTask<Result<Answer<Global>, SessionFault>> for Making<'a> {
    ghost tells = { true };

    ghost plays = { λ heard result old new. IfOk result (λ answer. reported_status answer ≡ Done → EndsAt old.path.now heard answer) };

    fn play<S: ClientSession>(&mut self, slot: &mut S) -> Result<Answer<Global>, SessionFault> {
        let entered = enter(slot, self.alloc, self.path.as_bytes());
        if !is_refused(&entered) {
            return Ok(entered);
        }
        drop(entered);
        let whole = self.path.trim_end_matches('/').as_bytes();
        if let Some(answer) = make_above(slot, self.alloc, whole) {
            return Ok(answer);
        }
        Ok(make(slot, self.alloc, whole))
    }
}

/// Makes the directories above a path. Those that are refused may stand; any other answer than that ends it, and is given.
fn make_above<S: ClientSession>(slot: &mut S, alloc: Global, path: &[u8]) -> Option<Answer<Global>>
    ensures { (heard : List SessionExchange) × HasExchanged S.answers slot.old heard slot.new × IfSome result (λ answer. reported_status answer ≢ Done) }
{
    for end in 1..path.len() {
        let (front, rest) = path.split_at(end);
        if is_passed(front, rest) {
            let answer = make(slot, alloc, front);
            if !is_refused(&answer) && !is_made(&answer) {
                return Some(answer);
            }
        }
    }
    None
}

/// Whether a path that is cut so has a directory as its first part.
fn is_passed(front: &[u8], rest: &[u8]) -> bool
    // Witness: an equation; `edits/a_directory_is_made_twice_where_two_slashes_stand`.
    ensures { result ≡ is_passed front.now rest.now }
{
    !front.is_empty() && !front.ends_with(b"/") && (rest.is_empty() || rest.starts_with(b"/"))
}

/// Whether the server refuses it.
fn is_refused(answer: &Answer<Global>) -> bool
    ensures { result ≡ is_refused answer.now }
{
    matches!(answer, Answer::Refused(_))
}

/// Whether the server made it, or says that all is done: MKD is answered by the path (RFC 959, section 5.4).
fn is_made(answer: &Answer<Global>) -> bool
    ensures { result ≡ is_made answer.now }
{
    matches!(answer, Answer::Done | Answer::Path(_) | Answer::Number(_))
}

/// Goes into a directory, to see that it stands.
fn enter<S: ClientSession>(slot: &mut S, alloc: Global, path: &[u8]) -> Answer<Global>
    ensures { (heard : List SessionExchange) × HasExchanged S.answers slot.old heard slot.new × IsAskedOnce (entering path.now) heard result }
{
    match Text::copy_of(alloc, path) {
        Ok(path) => slot.answer(Request::One(Some(Op::ChangeDir(path)))),
        Err(_) => Answer::Memory,
    }
}

/// Makes a directory.
fn make<S: ClientSession>(slot: &mut S, alloc: Global, path: &[u8]) -> Answer<Global>
    ensures { (heard : List SessionExchange) × HasExchanged S.answers slot.old heard slot.new × IsAskedOnce (making path.now) heard result }
{
    match Text::copy_of(alloc, path) {
        Ok(path) => slot.answer(Request::One(Some(Op::MakeDir(path)))),
        Err(_) => Answer::Memory,
    }
}
