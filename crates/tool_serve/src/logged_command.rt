// What is told of a line that a server acted on: its verb, and what it names where that is no secret.
ghost use Rattle.std.specs.Prelude.{◌≡◌};
ghost use Rattle.tool_serve.specs.Begun.{begun_at, begun_by};

use crate::text::TextFront;
use ftp_command::{Role, Verb};
use ftp_reply::code::LOGGED_IN;
use ftp_server_model::Answered;

/// A code below this one is preliminary: another reply follows.
const FIRST_OF_COMPLETION: u16 = 200;

/// A line of a client as far as it is told: its verb, and the path or the user that it names; no password.
#[derive(Clone, Copy)]
pub(crate) struct LoggedCommand {
    /// None: no verb that is known.
    pub(crate) verb: Option<Verb>,
    /// Empty where there is nothing to be told.
    pub(crate) names: TextFront,
    /// When the transfer that it asks for began, in milliseconds of the monotonic clock; none where none began.
    pub(crate) began: Option<u64>,
}

impl LoggedCommand {
    /// A line that a server acted on now; PASS is told by the user who was named before it.
    pub(crate) fn of(answered: &Answered<'_>, named: TextFront, now: u64) -> LoggedCommand {
        let names = match answered.verb {
            Some(Verb::Pass) => named,
            _ => TextFront::front_of(answered.text),
        };
        LoggedCommand {
            verb: answered.verb,
            names,
            began: begun_at(answered.code, now),
        }
    }

    /// How many milliseconds its transfer has taken until now; none where none began.
    pub(crate) fn took(&self, now: u64) -> Option<u64> {
        let began = self.began?;
        Some(now.saturating_sub(began))
    }

    /// Whether it is told whatever is answered, and where it is not answered: transfers, and what changes the folder or the directory.
    pub(crate) fn is_told(&self) -> bool {
        match self.verb {
            Some(verb) => matches!(verb.row().role, Role::Transfer | Role::Change),
            None => false,
        }
    }

    /// Whether it is told with this code of its last reply: refusals and logins are too.
    pub(crate) fn is_told_by(&self, code: u16) -> bool {
        code >= 400 || code == LOGGED_IN || self.is_told()
    }
}

/// When a transfer began whose line is answered now, where it began.
fn begun_at(code: Option<u16>, now: u64) -> Option<u64>
    ensures { result ≡ begun_at code now }
{
    match code {
        Some(code) => begun_by(code, now),
        None => None,
    }
}

/// The same of a line that was answered so: a code that begins with 1 is that of a transfer that begins (RFC 959, section 4.2.1).
fn begun_by(code: u16, now: u64) -> Option<u64>
    // Witness: an equation; `edits/a_refused_transfer_began`.
    ensures { result ≡ begun_by code now }
{
    if code < FIRST_OF_COMPLETION {
        Some(now)
    } else {
        None
    }
}
