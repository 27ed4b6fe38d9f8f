// How a client behaves: whether it logged in, and how many logins were refused.
ghost use Rattle.std.specs.Prelude.{◌≡◌};
ghost use Rattle.tool_serve.specs.Manner.{answer_to, manner_after, password_awaited};

use ftp_command::Verb;
use ftp_reply::code::NOT_LOGGED_IN;

/// The code of a reply that asks for a password.
const NEEDS_PASSWORD: u16 = 331;

/// From this refused login of a connection on each answer waits.
const SLOW_FROM_OF_CONNECTION: u8 = 3;

/// With this refused login the connection ends.
const LAST: u8 = 10;

/// How the logins of a connection went.
#[derive(Clone, Copy)]
pub(crate) struct LoginHistory {
    pub(crate) logged_in: bool,
    /// How many logins were refused, 10 for more.
    pub(crate) refused: u8,
}

/// How a client is answered.
#[derive(Clone, Copy)]
pub(crate) enum AnswerPace {
    AtOnce,
    /// After a second.
    Slow,
    /// After a second, and nothing more is heard.
    Last,
}

impl LoginHistory {
    /// Nobody logged in, and none was refused.
    pub(crate) fn new() -> LoginHistory {
        LoginHistory {
            logged_in: false,
            refused: 0,
        }
    }

    /// A line of this verb was answered by a last reply of this code, and then somebody is logged in, or nobody.
    pub(crate) fn after(self, verb: Option<Verb>, code: u16, is_in: bool) -> LoginHistory
        ensures { result ≡ manner_after self verb code is_in }
    {
        let is_refused = matches!(verb, Some(Verb::Pass)) && code == NOT_LOGGED_IN;
        let refused = if is_refused && self.refused < LAST {
            self.refused + 1
        } else {
            self.refused
        };
        LoginHistory {
            logged_in: self.logged_in || is_in,
            refused,
        }
    }

    /// How the next answer goes.
    pub(crate) fn pace(self) -> AnswerPace
        ensures { result ≡ answer_to self }
    {
        if self.refused < SLOW_FROM_OF_CONNECTION {
            AnswerPace::AtOnce
        } else if self.refused < LAST {
            AnswerPace::Slow
        } else {
            AnswerPace::Last
        }
    }
}

/// Whether a password is waited for, behind a line of this verb that was answered by a last reply of this code.
pub(crate) fn password_awaited(awaited: bool, verb: Option<Verb>, code: u16) -> bool
    ensures { result ≡ password_awaited awaited verb code }
{
    match verb {
        Some(Verb::User) => code == NEEDS_PASSWORD,
        Some(Verb::Pass | Verb::Rein) => false,
        _ => awaited,
    }
}
