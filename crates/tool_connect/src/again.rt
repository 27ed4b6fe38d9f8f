// What is asked anew where its control connection ends.
ghost use Rattle.std.specs.Prelude.{◌≡◌};
ghost use Rattle.tool_connect.specs.Asking.{AskedUntil};
ghost use Rattle.tool_connect.specs.Again.{fits, gives_up, is_stalled, loss_by, silence_left};

use crate::conversing::{Converses, Logins, converse_as};
use crate::server::left_until;
use ftp_operation::Answer;
use std::alloc::Global;
use std::io::Eprint;
use tool_login::User;
use tool_session::{LastReply, Phase, ServerAddress, SessionFault, SessionTask};
use tool_sockets::pause;

/// How long is waited before each further control connection, in seconds.
const WAITS: [u16; 4] = [1, 2, 4, 8];

const SECOND_MILLIS: u16 = 1000;

/// Why there is no answer of the server.
#[derive(Clone, Copy)]
pub(crate) enum Loss {
    /// The control connection ended.
    Ended,
    /// There was none.
    Unconnected,
}

/// Plays over a control connection of its own, for a user. Where one was made and ended before the answer, it is played anew, from the beginning,
/// over at most four more; of a server that never said a line over one, and then all of it takes no longer than the server may be silent. No further one is
/// opened after one that got nowhere until the server fell silent, or where the time for all would be over by then.
pub fn ask<R, P>(
    rt: &R,
    server: ServerAddress<'_>,
    user: User<'_>,
    last_reply: &mut LastReply,
    play: &mut P,
) -> Result<Answer<Global>, SessionFault>
where
    R: Converses + Logins + Eprint,
    P: SessionTask<Result<Answer<Global>, SessionFault>>,
    // Witness: `edits/a_refusal_is_done`, `a_task_is_asked_over_two_connections_at_once`.
    ensures { AskedUntil P.tells (R.hears rt.now server.entry.at_once) P.plays play.old play.new result }
{
    let answered = converse_as(rt, server, user, last_reply, play);
    if !matches!(loss_of(&answered), Some(Loss::Ended)) {
        return answered;
    }
    drop(answered);
    if has_stalled(last_reply) {
        return Ok(Answer::Lost);
    }
    ask_again(rt, server, user, last_reply, play)
}

/// Plays anew, each time after a longer wait, while that may help.
fn ask_again<R, P>(
    rt: &R,
    server: ServerAddress<'_>,
    user: User<'_>,
    last_reply: &mut LastReply,
    play: &mut P,
) -> Result<Answer<Global>, SessionFault>
where
    R: Converses + Logins + Eprint,
    P: SessionTask<Result<Answer<Global>, SessionFault>>,
    ensures { AskedUntil P.tells (R.hears rt.now server.entry.at_once) P.plays play.old play.new result }
{
    let mut loss = Loss::Ended;
    for seconds in WAITS {
        let Some(timeout) = silence_left(server.timeout, last_reply.spent(), last_reply.is_heard())
        else {
            return Ok(Answer::Lost);
        };
        if !fits(left_until(server.until), seconds) {
            return Ok(Answer::Lost);
        }
        let server = ServerAddress { timeout, ..server };
        tell_wait(rt, loss, seconds, last_reply);
        pause(seconds.saturating_mul(SECOND_MILLIS));
        let answered = converse_as(rt, server, user, last_reply, play);
        match loss_of(&answered) {
            Some(found) => {
                drop(answered);
                if gives_up(found, last_reply.is_heard(), has_stalled(last_reply)) {
                    return Ok(Answer::Lost);
                }
                loss = found;
            }
            None => return answered,
        }
    }
    Ok(Answer::Lost)
}

/// Why there is no answer, where a further control connection may bring one.
fn loss_of(answered: &Result<Answer<Global>, SessionFault>) -> Option<Loss>
    ensures { result ≡ loss_by answered.now }
{
    match answered {
        Ok(Answer::Lost) => Some(Loss::Ended),
        Ok(_) => None,
        Err(stop) => match stop.stage() {
            Phase::Talking => Some(Loss::Ended),
            Phase::Connection => Some(Loss::Unconnected),
            _ => None,
        },
    }
}

/// For how many seconds a server may be silent over a further control connection, of which so many went by over those before; none where nothing more is
/// tried. 0: without a limit.
fn silence_left(seconds: u32, spent: u32, is_heard: bool) -> Option<u32>
    ensures { result ≡ silence_left seconds spent is_heard }
{
    if is_heard {
        Some(seconds)
    } else if seconds == 0 {
        Some(0)
    } else if spent < seconds {
        Some(seconds - spent)
    } else {
        None
    }
}

/// Whether a wait of so many seconds ends before the time for all does, of which so many milliseconds are left.
fn fits(left: Option<u64>, seconds: u16) -> bool
    ensures { result ≡ fits left seconds }
{
    match left {
        Some(left) => u64::from(seconds) * 1_000 < left,
        None => true,
    }
}

/// Whether the last try got nowhere.
fn has_stalled(last_reply: &LastReply) -> bool {
    is_stalled(last_reply.is_silent(), last_reply.has_moved())
}

/// Whether a try got nowhere: the server fell silent, and until then no octet moved over a data connection.
fn is_stalled(is_silent: bool, has_moved: bool) -> bool
    ensures { result ≡ is_stalled is_silent has_moved }
{
    is_silent && !has_moved
}

/// Whether nothing more is tried after a further control connection: it ended too, and the server never said a line, or that try got nowhere.
fn gives_up(found: Loss, is_heard: bool, is_stalled: bool) -> bool
    ensures { result ≡ gives_up found is_heard is_stalled }
{
    match found {
        Loss::Ended => !is_heard || is_stalled,
        Loss::Unconnected => false,
    }
}

/// Tells that it is asked anew after so many seconds; where that can't be told, it is asked all the same.
fn tell_wait<R: Eprint>(rt: &R, loss: Loss, seconds: u16, last_reply: &LastReply) {
    let _told = match loss {
        Loss::Ended => eprintln!(rt;
            "note: the control connection ended{}; trying again in {seconds} s",
            last_reply.farewell()
        ),
        Loss::Unconnected => eprintln!(rt; "note: no connection; trying again in {seconds} s"),
    };
}
