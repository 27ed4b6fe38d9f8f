// What is told of a session on standard error, and how slow it is after refused logins: a function of what its server tells of each call.
use crate::goodbye::{guessed_from, last_reply};
use crate::log_line::{NotTaken, Tells};
use crate::logged_command::LoggedCommand;
use crate::refused_logins::{AnswerPace, LoginHistory, password_awaited};
use crate::session_in_slot::Service;
use crate::text::TextFront;
use ftp_command::Verb;
use ftp_disk_tree::Prepares;
use ftp_reply::code::COMPLETE;
use ftp_server_model::{Answered, Far};
use ftp_tree::Tree;
use std::alloc::Global;
use std::cell::Cell;
use std::io;
use std::net::SocketAddr;
use std::rc::Rc;
use tool_log::{DataClose, LineOutcome, LogEntry, SessionNote};
use tool_polling::{ControlLine, TimeoutReason};
use tool_sockets::monotonic_millis;

/// How long an answer waits after refused logins where none is noted, in milliseconds.
const SLOW_MILLIS: u64 = 1_000;

/// Whether sessions are told on standard error.
#[derive(Clone, Copy)]
pub enum Log {
    Silent,
    Told,
}

/// What a server held before a call.
#[derive(Clone, Copy)]
struct Before {
    /// How many octets it owed.
    owed: usize,
    is_transferring: bool,
}

/// A line that is told: what it says, the code of its last reply, if it had one, and why the folder failed.
#[derive(Clone, Copy)]
struct LoggedLine {
    asked: LoggedCommand,
    code: Option<u16>,
    why: Option<io::Error>,
}

/// Tells of one session, a line each: the moment, the peer, the user, the verb, what it names, the octets that went over data connections for
/// it, and the code of the last reply, after it `reset` where the data connection was, and the reason where the folder failed. A line is told
/// before its reply is written, so whether or not that can be; one with a data connection once that is closed too and its reply is written. What
/// standard error refuses is dropped.
#[derive(Drop)]
pub(crate) struct SessionLog<'a, R: Tells> {
    rt: &'a R,
    peer: SocketAddr,
    line: Rc<ControlLine, Global>,
    service: Service<'a>,
    manner: Cell<LoginHistory>,
    /// Whether a password is waited for, which is hashed.
    awaits_password: Cell<bool>,
    /// The user who was named last.
    named: Cell<TextFront>,
    /// The user who is logged in; empty where nobody is.
    user: Cell<TextFront>,
    before: Cell<Before>,
    /// The line that was acted on and whose last reply is still to come: a transfer goes on, or a port is waited for.
    pending: Cell<Option<LoggedCommand>>,
    /// The line that was answered for good, and is told once its data connection is closed and its reply written.
    closed: Cell<Option<LoggedLine>>,
    /// Whether a data connection stands.
    is_open: Cell<bool>,
    fate: Cell<DataClose>,
    /// Why the folder failed last, where no line was told of that yet.
    why: Cell<Option<io::Error>>,
    /// The draft whose front is copied: until that is done nothing is heard and no octet of the upload is taken.
    copied: Cell<Option<u64>>,
    /// Whether one was in the last turn, which so waits for nothing.
    is_held: Cell<bool>,
    /// Whether the server owes octets that were not given to be written.
    owes: Cell<bool>,
    /// Whether what was written is whole replies.
    is_whole: Cell<bool>,
}

impl<'a, R: Tells> SessionLog<'a, R> {
    /// Nobody is logged in, and nothing was said.
    pub(crate) fn new(
        rt: &'a R,
        line: Rc<ControlLine, Global>,
        peer: SocketAddr,
        service: Service<'a>,
    ) -> SessionLog<'a, R> {
        SessionLog {
            rt,
            peer,
            line,
            service,
            manner: Cell::new(LoginHistory::new()),
            awaits_password: Cell::new(false),
            named: Cell::new(TextFront::new()),
            user: Cell::new(TextFront::new()),
            before: Cell::new(Before {
                owed: 0,
                is_transferring: false,
            }),
            pending: Cell::new(None),
            closed: Cell::new(None),
            is_open: Cell::new(false),
            fate: Cell::new(DataClose::Ended),
            why: Cell::new(None),
            copied: Cell::new(None),
            is_held: Cell::new(false),
            owes: Cell::new(false),
            is_whole: Cell::new(true),
        }
    }

    /// The control connection.
    pub(crate) fn line(&self) -> &ControlLine {
        &self.line
    }

    /// A share of it; none where memory is refused.
    pub(crate) fn share_line(&self) -> Option<Rc<ControlLine, Global>> {
        self.line.clone().ok()
    }

    /// Tells how a session goes, in a word or two.
    pub(crate) fn note(&self, what: &str) {
        if self.service.log == Log::Told {
            let peer = self.peer;
            self.rt
                .tell_session(self.service.lines, &SessionNote { peer, what });
        }
    }

    /// Tells how a session ended, and why it was ended where the server did that.
    pub(crate) fn end(&self, is_whole: bool) {
        let ended = match self.line.timeouts.over() {
            None if is_whole => "ends",
            None if !self.is_whole.get() => "breaks off: its last reply was not sent whole",
            None => "breaks off",
            Some(TimeoutReason::Login) => "is ended: nobody logged in",
            Some(TimeoutReason::Idle) => "is ended: nothing was said or sent",
            Some(TimeoutReason::Waited) => "is ended: nothing was said or sent, and others wait",
            Some(TimeoutReason::Session) => "is ended: its time is over, since others wait",
            Some(TimeoutReason::LoginWaited) => "is ended: nobody logged in, and others wait",
            Some(TimeoutReason::Crowded) =>
                "is ended: its address has the most sessions, and another has none",
            Some(TimeoutReason::Refused) => "is ended: ten logins were refused",
            Some(TimeoutReason::Stopped) => "is ended: the server stops",
        };
        self.note(ended);
    }

    /// A server is as it will be called next.
    pub(crate) fn begin<T: Tree<Global>, F: Far<Global, T>>(&self, server: &F) {
        self.before.set(Before {
            owed: server.owed(),
            is_transferring: server.is_transferring(),
        });
    }

    /// The server was called: takes in which lines it answered for good, and tells them.
    pub(crate) fn saw<T, F>(&self, server: &F)
    where
        T: Tree<Global> + Prepares,
        F: Far<Global, T>,
    {
        self.owes.set(server.owes());
        let is_in = server.login().is_some();
        if let Some(why) = server.tree().reason() {
            self.why.set(Some(why));
        }
        if let Some(left) = server.tree().left_out() {
            self.rt.tell(self.service.lines, &NotTaken(left));
        }
        if let Some(draft) = server.tree().begun() {
            self.copied.set(Some(draft));
        }
        if let Some((asked, code)) = self.ended(server) {
            self.close(is_in, asked, code);
        }
        if let Some(answered) = server.answered() {
            let asked = self.asked(&answered);
            match last_code(&answered, server.is_transferring()) {
                Some(code) => self.close(is_in, asked, code),
                None => self.pending.set(Some(asked)),
            }
        }
        self.begin(server);
    }

    /// Whether the front of an upload is copied now, in a session that is not ended.
    pub(crate) fn is_copying(&self) -> bool {
        self.copied.get().is_some() && !self.line.timeouts.is_spent()
    }

    /// Whether the last turn was held back by a copy: it waits for nothing, and the next one follows at once.
    pub(crate) fn is_held(&self) -> bool {
        self.is_held.get()
    }

    /// Copies some more of the front of an upload, if one is copied, which counts as octets that went.
    pub(crate) fn copy_on<T: Prepares>(&self, tree: &T) {
        self.is_held.set(self.is_copying());
        let Some(draft) = self.copied.get() else {
            return;
        };
        self.line.timeouts.carry();
        if !tree.copy_on(draft) {
            self.copied.set(None);
        }
    }

    /// The line that waited for its last reply, and the code of that, where it was said in the call: the transfer ended, or the port that was
    /// waited for is had or not. It comes before all else that the call says.
    fn ended<T: Tree<Global>, F: Far<Global, T>>(
        &self,
        server: &F,
    ) -> Option<(LoggedCommand, u16)> {
        let asked = self.pending.get()?;
        let before = self.before.get();
        if before.is_transferring && server.is_transferring() {
            return None;
        }
        let code = server.code_at(before.owed)?;
        self.pending.set(None);
        Some((asked, code))
    }

    /// What a line says that was acted on. The user who is named is kept.
    fn asked(&self, answered: &Answered<'_>) -> LoggedCommand {
        let asked = LoggedCommand::of(answered, self.named.get(), monotonic_millis());
        if asked.verb == Some(Verb::User) {
            self.named.set(asked.names);
        }
        asked
    }

    /// A line was answered for good, and then somebody is logged in, or nobody: takes in how a login went, and tells the line, where it is one that
    /// is told, or keeps it while its data connection stands.
    fn close(&self, is_in: bool, asked: LoggedCommand, code: u16) {
        self.user.set(if is_in {
            self.named.get()
        } else {
            TextFront::new()
        });
        let why = self.why.take();
        self.judge(asked.verb, code, is_in);
        self.await_password(asked.verb, code);
        if !asked.is_told_by(code) {
            return;
        }
        let closed = LoggedLine {
            asked,
            code: Some(code),
            why,
        };
        if self.is_open.get() && self.closed.get().is_none() {
            self.closed.set(Some(closed));
        } else {
            self.tell(closed);
        }
    }

    /// Tells the line that was kept, once its data connection is closed and its reply written.
    fn tell_closed(&self) {
        if self.is_open.get() || !self.is_whole.get() {
            return;
        }
        if let Some(closed) = self.closed.take() {
            self.tell(closed);
        }
    }

    /// Takes in whether a password is waited for. Where octets came behind the name the 331 goes in the next turn, so that it is known before each turn
    /// whether a password may be hashed in it.
    fn await_password(&self, verb: Option<Verb>, code: u16) {
        let awaits = password_awaited(self.awaits_password.get(), verb, code);
        self.awaits_password.set(awaits);
        if awaits {
            self.line.end_turn();
        }
    }

    /// Whether a password is waited for.
    pub(crate) fn awaits_password(&self) -> bool {
        self.awaits_password.get()
    }

    /// Takes in how a login went. After some that were refused each answer waits until somebody is logged in, and then that to a refused one.
    fn judge(&self, verb: Option<Verb>, code: u16, is_in: bool) {
        let before = self.manner.get();
        let manner = before.after(verb, code, is_in);
        self.manner.set(manner);
        if manner.logged_in {
            self.line.timeouts.log_in();
        }
        let was_refused = before.refused < manner.refused;
        if was_refused {
            self.refuse();
        }
        let waits = !manner.logged_in || was_refused;
        if waits && self.is_slow(manner) {
            self.line.hold(self.slow_millis());
        }
    }

    /// How long a slow answer waits: those to one address go one after another, whatever connections they are on.
    fn slow_millis(&self) -> u64 {
        match self.service.login_limiter.try_borrow_mut() {
            Ok(mut login_limiter) => login_limiter.hold(
                guessed_from(self.peer.ip()),
                monotonic_millis(),
            ),
            Err(_) => SLOW_MILLIS,
        }
    }

    /// A login was refused: that is counted of the client's address too. Where memory is refused, it is not.
    fn refuse(&self) {
        if let Ok(mut login_limiter) = self.service.login_limiter.try_borrow_mut() {
            let _counted = login_limiter.refuse(
                guessed_from(self.peer.ip()),
                monotonic_millis() / 1_000,
            );
        }
    }

    /// Whether an answer waits, since logins were refused on this connection, or on others from this address.
    fn is_slow(&self, manner: LoginHistory) -> bool {
        if manner.pace() != AnswerPace::AtOnce {
            return true;
        }
        match self.service.login_limiter.try_borrow() {
            Ok(login_limiter) => login_limiter.is_slow(
                guessed_from(self.peer.ip()),
                monotonic_millis() / 1_000,
            ),
            Err(_) => true,
        }
    }

    /// Octets are about to be written, and may be so in part.
    pub(crate) fn write(&self) {
        self.is_whole.set(false);
    }

    /// What was given was written. After the last answer nothing more is heard.
    pub(crate) fn written(&self) {
        self.is_whole.set(!self.owes.get());
        self.tell_closed();
        if self.manner.get().pace() == AnswerPace::Last {
            self.line.timeouts.end(TimeoutReason::Refused);
        }
    }

    /// Whether the server has ended the session, or no time is left of it.
    pub(crate) fn is_over(&self) -> bool {
        self.line.timeouts.is_spent()
    }

    /// What the client is told before the server ends the session, where it does that, and where no reply was written in part.
    pub(crate) fn last_reply(&self) -> Option<&'static [u8]> {
        if !self.is_whole.get() {
            return None;
        }
        last_reply(self.line.timeouts.over()?)
    }

    /// A data connection, or the wait for one, was given up.
    pub(crate) fn give_up(&self) {
        self.line.timeouts.touch();
    }

    /// A data connection stands.
    pub(crate) fn opened(&self) {
        self.is_open.set(true);
    }

    /// A data connection was closed.
    pub(crate) fn parted(&self, fate: DataClose) {
        self.fate.set(fate);
        self.is_open.set(false);
        self.tell_closed();
    }

    /// Nothing more is said: tells of the line that was kept, and of one that was not answered, where it may have done something.
    pub(crate) fn finish(&self) {
        if let Some(closed) = self.closed.take() {
            self.tell(closed);
        }
        let Some(asked) = self.pending.get() else {
            return;
        };
        if asked.is_told() {
            self.tell(LoggedLine {
                asked,
                code: None,
                why: None,
            });
        }
    }

    /// Tells a line, where sessions are told.
    fn tell(&self, closed: LoggedLine) {
        if self.service.log == Log::Silent {
            return;
        }
        let user = self.user.get();
        let entry = LogEntry {
            peer: self.peer,
            user: user.octets(),
            verb: closed.asked.verb,
            names: closed.asked.names.octets(),
            moved: self.line.take_transferred(),
            took: closed.asked.took(monotonic_millis()),
            outcome: LineOutcome {
                code: closed.code,
                fate: self.fate.replace(DataClose::Ended),
                why: closed.why,
            },
        };
        self.rt.tell_command(self.service.lines, &entry);
    }
}

/// The code of the last reply to a line that was acted on, where that was said at once: another one follows where a transfer goes on, or a port is
/// waited for.
fn last_code(answered: &Answered<'_>, is_transferring: bool) -> Option<u16> {
    match answered.code {
        Some(code) if code >= 200 => Some(code),
        Some(_) if !is_transferring => Some(COMPLETE),
        _ => None,
    }
}
