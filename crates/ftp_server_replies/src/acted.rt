// A line that was acted on, as it is told: its verb, what it names, and the code of its reply.
ghost use Rattle.std.specs.Prelude.{◌≡◌, ◌≤◌, length, take};
ghost use Rattle.ftp_server_model.specs.Heard.{abort_told, code_if_any, lent, text_named, text_or_none, text_told, unanswered, path_or_user_text, verb_told};
ghost use Rattle.ftp_server_model.specs.Replies.{reply_said};
ghost use Rattle.ftp_server_model.specs.Texts.{fixed_reply_code};
ghost use Rattle.ftp_server_model.specs.View.{Session};

use arrayvec::ArrayVec;
use ftp_command::{Argument, Command, LentText, Value, Verb, parts};
use ftp_path::Path;
use ftp_reply::code::COMPLETE;
use ftp_server_model::{Answered, FixedReply, HeardLine, ReplyKind, TOLD_LIMIT};
use std::alloc::Allocator;
use std::marker::Model;

/// A line that was acted on, with the front of what it names copied: no memory is taken.
#[derive(Drop)]
pub struct ActedLine {
    verb: Option<Verb>,
    text: ArrayVec<u8, TOLD_LIMIT>,
    code: Option<u16>,
}

impl Model for ActedLine {
    ghost use Rattle.ftp_server_model.specs.Heard.{Heard};

    ghost Value = { Heard };

    ghost view = { λ line. record { verb = line.verb; text = line.text.items; code = line.code } };
}

impl ActedLine {
    /// A line before it is acted on.
    pub fn of<A: Allocator + Copy>(heard: &HeardLine<Argument<A>>) -> ActedLine
        // Witness: equations; `edits/the_text_of_pass_is_told`.
        ensures { result ≡ unanswered heard.now }
    {
        ActedLine {
            verb: verb_told(heard),
            text: front_of(text_told(heard)),
            code: None,
        }
    }

    /// An ABOR that came during a transfer.
    pub fn abort() -> ActedLine
        // Witness: equations; `edits/the_text_of_pass_is_told`.
        ensures { result ≡ abort_told }
    {
        ActedLine {
            verb: Some(Verb::Abor),
            text: ArrayVec::new(),
            code: Some(COMPLETE),
        }
    }

    /// The same line, and the code of the reply that it made at once.
    pub fn answered(self, code: Option<u16>) -> ActedLine
        // Witness: equations; `edits/the_text_of_pass_is_told`.
        ensures { result ≡ record self { code = code } }
    {
        let Self {
            verb,
            text,
            code: _,
        } = self;
        ActedLine { verb, text, code }
    }

    /// The line, lent.
    pub fn lend(&self) -> Answered<'_>
        // Witness: equations; `edits/the_text_of_pass_is_told`.
        ensures { lent result ≡ self.now }
    {
        Answered {
            verb: self.verb,
            text: self.text.as_slice(),
            code: self.code,
        }
    }

    /// How many octets of what it names are kept, at most 512.
    pub fn len(&self) -> usize
        ensures len { result ≡ length self.now.text }
        // Witness of short: `Server::held` of `ftp_server` needs it.
        ensures short { result ≤ TOLD_LIMIT }
    {
        self.text.as_slice().len()
    }
}

/// The front of a text, copied.
fn front_of(text: &[u8]) -> ArrayVec<u8, TOLD_LIMIT>
    ensures { result.items ≡ take TOLD_LIMIT text.now }
{
    let (front, _) = text.split_at(TOLD_LIMIT.min(text.len()));
    copied(front)
}

/// A copy of octets.
fn copied(octets: &[u8]) -> ArrayVec<u8, TOLD_LIMIT>
    requires { length octets.now ≤ TOLD_LIMIT }
    ensures { result.items ≡ octets.now }
{
    let mut copy = ArrayVec::new();
    copy.try_extend_from_slice(octets).unwrap();
    copy
}

/// The verb of a line that says a command.
fn verb_told<A: Allocator + Copy>(heard: &HeardLine<Argument<A>>) -> Option<Verb>
    ensures { result ≡ verb_told heard.now }
{
    match heard {
        HeardLine::TooLong | HeardLine::Bad(_) => None,
        HeardLine::Asks(command) => {
            let (verb, _) = parts(command);
            Some(verb)
        }
    }
}

/// The path text that a line gives, or the name of a user; never a password.
fn text_told<A: Allocator + Copy>(heard: &HeardLine<Argument<A>>) -> &[u8]
    ensures { result.now ≡ text_told heard.now }
{
    match heard {
        HeardLine::TooLong | HeardLine::Bad(_) => &[],
        HeardLine::Asks(command) => text_named(command),
    }
}

/// The same of a command.
fn text_named<A: Allocator + Copy>(command: &Command<Argument<A>>) -> &[u8]
    ensures { result.now ≡ text_named command.now }
{
    let (_, value) = parts(command);
    value_text(&value)
}

/// The same of a value.
fn value_text<'a>(value: &Value<LentText<'a>>) -> &'a [u8]
    ensures { result.now ≡ path_or_user_text value.now }
{
    match value {
        Value::Name(text) | Value::Path(text) => text.octets(),
        Value::PathOrNone(text) | Value::Listed(text) => text_or_none(text),
        _ => &[],
    }
}

/// A text, or nothing.
fn text_or_none<'a>(text: &Option<LentText<'a>>) -> &'a [u8]
    ensures { result.now ≡ text_or_none text.now }
{
    match text {
        Some(text) => text.octets(),
        None => &[],
    }
}

/// The code of the reply of this kind; none where it follows once a port is had.
pub fn reply_code<A: Allocator + Copy>(kind: &ReplyKind<Path<A>>) -> Option<u16>
    // Witness: equations; `edits/the_text_of_pass_is_told`.
    ensures { (s : Session) → result ≡ code_if_any (reply_said s kind.now) }
{
    match kind {
        ReplyKind::Nothing => None,
        ReplyKind::Fixed(text) => Some(fixed_code(*text)),
        ReplyKind::Here | ReplyKind::Made(_) => Some(257),
        ReplyKind::Restarting(_) => Some(350),
        ReplyKind::Passive(_) => Some(227),
        ReplyKind::Extended(_) => Some(229),
        ReplyKind::Size(_) | ReplyKind::Stamp(_) => Some(213),
        ReplyKind::Entry(_) => Some(250),
        ReplyKind::Features => Some(211),
        ReplyKind::Chosen => Some(200),
    }
}

/// The code of a reply without a computed part (RFC 959, section 4.2).
pub fn fixed_code(text: FixedReply) -> u16
    // Witness: equations; `edits/the_text_of_pass_is_told`.
    ensures { result ≡ fixed_reply_code text }
{
    match text {
        FixedReply::Ready => 220,
        FixedReply::Unknown | FixedReply::LineTooLong => 500,
        FixedReply::BadArgument => 501,
        FixedReply::NotImplemented => 502,
        FixedReply::BadSequence => 503,
        FixedReply::BadParameter => 504,
        FixedReply::Protocol | FixedReply::OnlyIpv4 | FixedReply::OnlyIpv6 => 522,
        FixedReply::NotLoggedIn | FixedReply::LoginRefused => 530,
        FixedReply::PasswordNeeded => 331,
        FixedReply::LoggedIn => 230,
        FixedReply::NotNeeded => 202,
        FixedReply::Done => 250,
        FixedReply::NewName => 350,
        FixedReply::Refused | FixedReply::NotAllowed => 550,
        FixedReply::NameRefused => 553,
        FixedReply::NoRoom => 452,
        FixedReply::TooMuch => 552,
        FixedReply::Opens => 150,
        FixedReply::Complete | FixedReply::AbortDone => 226,
        FixedReply::NoConnection => 425,
        FixedReply::Broken => 426,
        FixedReply::LocalFault => 451,
        FixedReply::TypeSet
        | FixedReply::StructureSet
        | FixedReply::ModeSet
        | FixedReply::Utf8Set
        | FixedReply::Fine
        | FixedReply::EndpointTaken
        | FixedReply::OnlyExtended => 200,
        FixedReply::System => 215,
        FixedReply::Help => 214,
        FixedReply::Serving => 211,
        FixedReply::Goodbye => 221,
    }
}
