// The verbs, and the row of each: the words that name it, and what it is in a session. The commands, and the row of each: its verb and
// the value of its argument, and back.
ghost use Rattle.std.specs.Prelude.{◌≡◌, ◌↔◌, IfErr, IfOk, IfSome, IfNone, IsTrue, length, ◌≤◌};
ghost use Rattle.ftp_command.specs.Command.{Argues, role_of, value_of, verb_of};
ghost use Rattle.ftp_command.specs.Decline.{NotRead};
ghost use Rattle.ftp_command.specs.Verb.{Names, is_free_role, is_transfer_role, letters, old_letters, row};

use crate::argument::{drop_options, is_blank, trim};
use crate::command::Command;
use crate::fault::CommandFault;
use crate::reading_value::{
    blank, name, password, path, path_or_none, place, six, space, words, words_or_none,
};
use crate::setting::{extended, kind, mode, passive, structure};
use crate::text::{Argument, LentText};
use crate::value::Value;
use std::alloc::Allocator;

/// A verb of RFC 959, section 4.1, RFC 2389, RFC 2428 or RFC 3659.
#[derive(Clone, Copy, Debug, PartialEq, Eq)]
pub enum Verb {
    User,
    Pass,
    Acct,
    Cwd,
    Cdup,
    Smnt,
    Rein,
    Quit,
    Port,
    Pasv,
    Eprt,
    Epsv,
    /// TYPE.
    Repr,
    Stru,
    Mode,
    Retr,
    Stor,
    Stou,
    Appe,
    Allo,
    Rest,
    Rnfr,
    Rnto,
    Abor,
    Dele,
    Rmd,
    Mkd,
    Pwd,
    List,
    Nlst,
    Mlst,
    Mlsd,
    Size,
    Mdtm,
    Site,
    Syst,
    Stat,
    Help,
    Noop,
    Feat,
    Opts,
}

const VERBS: [Verb; 41] = [
    Verb::User,
    Verb::Pass,
    Verb::Acct,
    Verb::Cwd,
    Verb::Cdup,
    Verb::Smnt,
    Verb::Rein,
    Verb::Quit,
    Verb::Port,
    Verb::Pasv,
    Verb::Eprt,
    Verb::Epsv,
    Verb::Repr,
    Verb::Stru,
    Verb::Mode,
    Verb::Retr,
    Verb::Stor,
    Verb::Stou,
    Verb::Appe,
    Verb::Allo,
    Verb::Rest,
    Verb::Rnfr,
    Verb::Rnto,
    Verb::Abor,
    Verb::Dele,
    Verb::Rmd,
    Verb::Mkd,
    Verb::Pwd,
    Verb::List,
    Verb::Nlst,
    Verb::Mlst,
    Verb::Mlsd,
    Verb::Size,
    Verb::Mdtm,
    Verb::Site,
    Verb::Syst,
    Verb::Stat,
    Verb::Help,
    Verb::Noop,
    Verb::Feat,
    Verb::Opts,
];

/// What a verb is in a session.
#[derive(Clone, Copy, Debug, PartialEq, Eq)]
pub enum Role {
    /// It is done before a login too (own choice).
    Free,
    /// It needs a data connection (RFC 959, section 4.1.3; RFC 3659, section 7).
    Transfer,
    /// It changes the tree or the current directory, or begins to.
    Change,
    Other,
}

impl Role {
    /// Whether a verb of this role is done before a login too.
    pub fn is_free(self) -> bool
        ensures { result ≡ is_free_role self }
    {
        matches!(self, Role::Free)
    }

    /// Whether a verb of this role needs a data connection.
    pub fn is_transfer(self) -> bool
        ensures { result ≡ is_transfer_role self }
    {
        matches!(self, Role::Transfer)
    }
}

/// What is fixed of a verb but for its argument.
#[derive(Clone, Copy)]
pub struct VerbRow {
    /// The word that `write` gives.
    pub letters: &'static [u8],
    /// The older word of five verbs, and of the others the same (RFC 1123, section 4.1.3.1).
    pub older: &'static [u8],
    pub role: Role,
}

impl VerbRow {
    // A verb with one word.
    fn new(letters: &'static [u8], role: Role) -> VerbRow
        ensures letters { result.letters.now ≡ letters.now }
        ensures older { result.older.now ≡ letters.now }
        ensures role { result.role ≡ role }
    {
        VerbRow {
            letters,
            older: letters,
            role,
        }
    }

    // A verb with an older word too.
    fn with(letters: &'static [u8], older: &'static [u8], role: Role) -> VerbRow
        ensures letters { result.letters.now ≡ letters.now }
        ensures older { result.older.now ≡ older.now }
        ensures role { result.role ≡ role }
    {
        VerbRow {
            letters,
            older,
            role,
        }
    }
}

impl Verb {
    /// The row of a verb.
    pub fn row(self) -> VerbRow
        // Witness: equation; caller: `Verb::letters`.
        ensures letters { result.letters.now ≡ letters self }
        ensures older { result.older.now ≡ old_letters self }
        ensures role { result.role ≡ (row self).role }
        ensures short { length result.letters.now ≤ 4 }
    {
        match self {
            Verb::User => VerbRow::new(b"USER", Role::Free),
            Verb::Pass => VerbRow::new(b"PASS", Role::Free),
            Verb::Acct => VerbRow::new(b"ACCT", Role::Other),
            Verb::Cwd => VerbRow::with(b"CWD", b"XCWD", Role::Change),
            Verb::Cdup => VerbRow::with(b"CDUP", b"XCUP", Role::Other),
            Verb::Smnt => VerbRow::new(b"SMNT", Role::Other),
            Verb::Rein => VerbRow::new(b"REIN", Role::Free),
            Verb::Quit => VerbRow::new(b"QUIT", Role::Free),
            Verb::Port => VerbRow::new(b"PORT", Role::Other),
            Verb::Pasv => VerbRow::new(b"PASV", Role::Other),
            Verb::Eprt => VerbRow::new(b"EPRT", Role::Other),
            Verb::Epsv => VerbRow::new(b"EPSV", Role::Other),
            Verb::Repr => VerbRow::new(b"TYPE", Role::Other),
            Verb::Stru => VerbRow::new(b"STRU", Role::Other),
            Verb::Mode => VerbRow::new(b"MODE", Role::Other),
            Verb::Retr => VerbRow::new(b"RETR", Role::Transfer),
            Verb::Stor => VerbRow::new(b"STOR", Role::Transfer),
            Verb::Stou => VerbRow::new(b"STOU", Role::Transfer),
            Verb::Appe => VerbRow::new(b"APPE", Role::Transfer),
            Verb::Allo => VerbRow::new(b"ALLO", Role::Other),
            Verb::Rest => VerbRow::new(b"REST", Role::Other),
            Verb::Rnfr => VerbRow::new(b"RNFR", Role::Change),
            Verb::Rnto => VerbRow::new(b"RNTO", Role::Change),
            Verb::Abor => VerbRow::new(b"ABOR", Role::Free),
            Verb::Dele => VerbRow::new(b"DELE", Role::Change),
            Verb::Rmd => VerbRow::with(b"RMD", b"XRMD", Role::Change),
            Verb::Mkd => VerbRow::with(b"MKD", b"XMKD", Role::Change),
            Verb::Pwd => VerbRow::with(b"PWD", b"XPWD", Role::Other),
            Verb::List => VerbRow::new(b"LIST", Role::Transfer),
            Verb::Nlst => VerbRow::new(b"NLST", Role::Transfer),
            Verb::Mlst => VerbRow::new(b"MLST", Role::Other),
            Verb::Mlsd => VerbRow::new(b"MLSD", Role::Transfer),
            Verb::Size => VerbRow::new(b"SIZE", Role::Other),
            Verb::Mdtm => VerbRow::new(b"MDTM", Role::Other),
            Verb::Site => VerbRow::new(b"SITE", Role::Other),
            Verb::Syst => VerbRow::new(b"SYST", Role::Free),
            Verb::Stat => VerbRow::new(b"STAT", Role::Other),
            Verb::Help => VerbRow::new(b"HELP", Role::Free),
            Verb::Noop => VerbRow::new(b"NOOP", Role::Free),
            Verb::Feat => VerbRow::new(b"FEAT", Role::Free),
            Verb::Opts => VerbRow::new(b"OPTS", Role::Free),
        }
    }

    /// The word that `write` gives.
    pub fn letters(self) -> &'static [u8]
        // Witness: equation; caller: the private `line_of`, which has room for four letters.
        ensures text { result.now ≡ letters self }
        ensures short { length result.now ≤ 4 }
    {
        self.row().letters
    }

    /// Whether a word names this verb, in capitals or small letters.
    pub fn is_named(self, word: &[u8]) -> bool
        // Witness: equation (a test, both ways).
        ensures { IsTrue result ↔ Names word.now self }
    {
        let row = self.row();
        word.eq_ignore_ascii_case(row.letters) || word.eq_ignore_ascii_case(row.older)
    }
}

/// The verb that a word names.
pub fn verb_of(word: &[u8]) -> Option<Verb>
    // Witness: law `one_meaning`, verb.
    ensures some { IfSome result (λ verb. Names word.now verb) }
    ensures none { IfNone result ((verb : Verb) → ¬ Names word.now verb) }
{
    for verb in VERBS {
        if verb.is_named(word) {
            return Some(verb);
        }
    }
    None
}

// ---- commands

/// The verb of a command, and its argument as a value whose texts are lent.
pub fn parts<A: Allocator + Copy>(command: &Command<Argument<A>>) -> (Verb, Value<LentText<'_>>)
    ensures verb { result.0 ≡ verb_of command.now }
    ensures value { result.1 ≡ value_of command.now }
{
    match command {
        Command::User(text) => (Verb::User, Value::Name(text.lend())),
        Command::Pass(text) => (Verb::Pass, Value::Password(text.lend())),
        Command::Acct(text) => (Verb::Acct, Value::Words(text.lend())),
        Command::Cwd(text) => (Verb::Cwd, Value::Path(text.lend())),
        Command::Cdup => (Verb::Cdup, Value::Nothing),
        Command::Rein => (Verb::Rein, Value::Nothing),
        Command::Quit => (Verb::Quit, Value::Nothing),
        Command::Port(endpoint) => (Verb::Port, Value::Six(*endpoint)),
        Command::Pasv => (Verb::Pasv, Value::Nothing),
        Command::Eprt(endpoint) => (Verb::Eprt, Value::Extended(*endpoint)),
        Command::Epsv(family) => (Verb::Epsv, Value::Family(*family)),
        Command::Repr(kind) => (Verb::Repr, Value::Kind(*kind)),
        Command::Stru(structure) => (Verb::Stru, Value::Structure(*structure)),
        Command::Mode(mode) => (Verb::Mode, Value::Mode(*mode)),
        Command::Retr(text) => (Verb::Retr, Value::Path(text.lend())),
        Command::Stor(text) => (Verb::Stor, Value::Path(text.lend())),
        Command::Appe(text) => (Verb::Appe, Value::Path(text.lend())),
        Command::Allo(octets, longest) => (Verb::Allo, Value::Sizes(*octets, *longest)),
        Command::Rest(place) => (Verb::Rest, Value::Number(*place)),
        Command::Rnfr(text) => (Verb::Rnfr, Value::Path(text.lend())),
        Command::Rnto(text) => (Verb::Rnto, Value::Path(text.lend())),
        Command::Abor => (Verb::Abor, Value::Nothing),
        Command::Dele(text) => (Verb::Dele, Value::Path(text.lend())),
        Command::Rmd(text) => (Verb::Rmd, Value::Path(text.lend())),
        Command::Mkd(text) => (Verb::Mkd, Value::Path(text.lend())),
        Command::Pwd => (Verb::Pwd, Value::Nothing),
        Command::List(text) => (Verb::List, Value::Listed(lend_if(text))),
        Command::Nlst(text) => (Verb::Nlst, Value::Listed(lend_if(text))),
        Command::Mlst(text) => (Verb::Mlst, Value::PathOrNone(lend_if(text))),
        Command::Mlsd(text) => (Verb::Mlsd, Value::PathOrNone(lend_if(text))),
        Command::Size(text) => (Verb::Size, Value::Path(text.lend())),
        Command::Mdtm(text) => (Verb::Mdtm, Value::Path(text.lend())),
        Command::Syst => (Verb::Syst, Value::Nothing),
        Command::Stat => (Verb::Stat, Value::Nothing),
        Command::Help(text) => (Verb::Help, Value::WordsOrNone(lend_if(text))),
        Command::Noop => (Verb::Noop, Value::Nothing),
        Command::Feat => (Verb::Feat, Value::Nothing),
        Command::Opts(text) => (Verb::Opts, Value::Words(text.lend())),
    }
}

/// The role of a command's verb.
pub fn role_of<A: Allocator + Copy>(command: &Command<Argument<A>>) -> Role
    ensures { result ≡ role_of command.now }
{
    let (verb, _) = parts(command);
    verb.row().role
}

fn lend_if<A: Allocator + Copy>(text: &Option<Argument<A>>) -> Option<LentText<'_>>
    ensures { result ≡ text.now }
{
    match text {
        Some(text) => Some(text.lend()),
        None => None,
    }
}

// What was read as the command's argument, or why it could not be: `?` would ask each time how a fault becomes a fault.
macro_rules! asks {
    ($command:path, $read:expr) => {
        match $read {
            Ok(read) => Ok($command(read)),
            Err(fault) => Err(fault),
        }
    };
}

/// The command of a verb with this argument.
pub(crate) fn command_of<A: Allocator + Copy>(
    alloc: A,
    verb: Verb,
    argument: &[u8],
) -> Result<Command<Argument<A>>, CommandFault>
    ensures says { IfOk result (λ command. (verb_of command ≡ verb) × Argues argument.now command) }
    ensures refuses { IfErr result (λ fault. NotRead argument.now (row verb).shape fault) }
{
    match verb {
        Verb::User => asks!(Command::User, name(alloc, argument)),
        Verb::Pass => asks!(Command::Pass, password(alloc, argument)),
        Verb::Acct => asks!(Command::Acct, words(alloc, trim(argument))),
        Verb::Cwd => asks!(Command::Cwd, path(alloc, argument)),
        Verb::Cdup => blank(argument).and(Ok(Command::Cdup)),
        Verb::Rein => blank(argument).and(Ok(Command::Rein)),
        Verb::Quit => blank(argument).and(Ok(Command::Quit)),
        Verb::Port => asks!(Command::Port, six(trim(argument))),
        Verb::Pasv => blank(argument).and(Ok(Command::Pasv)),
        Verb::Eprt => asks!(Command::Eprt, extended(trim(argument))),
        Verb::Epsv => asks!(Command::Epsv, passive(trim(argument))),
        Verb::Repr => asks!(Command::Repr, kind(trim(argument))),
        Verb::Stru => asks!(Command::Stru, structure(trim(argument))),
        Verb::Mode => asks!(Command::Mode, mode(trim(argument))),
        Verb::Retr => asks!(Command::Retr, path(alloc, argument)),
        Verb::Stor => asks!(Command::Stor, path(alloc, argument)),
        Verb::Appe => asks!(Command::Appe, path(alloc, argument)),
        Verb::Allo => {
            let (octets, longest) = space(trim(argument))?;
            Ok(Command::Allo(octets, longest))
        }
        Verb::Rest => asks!(Command::Rest, place(trim(argument))),
        Verb::Rnfr => asks!(Command::Rnfr, path(alloc, argument)),
        Verb::Rnto => asks!(Command::Rnto, path(alloc, argument)),
        Verb::Abor => blank(argument).and(Ok(Command::Abor)),
        Verb::Dele => asks!(Command::Dele, path(alloc, argument)),
        Verb::Rmd => asks!(Command::Rmd, path(alloc, argument)),
        Verb::Mkd => asks!(Command::Mkd, path(alloc, argument)),
        Verb::Pwd => blank(argument).and(Ok(Command::Pwd)),
        Verb::List => asks!(Command::List, path_or_none(alloc, drop_options(argument))),
        Verb::Nlst => asks!(Command::Nlst, path_or_none(alloc, drop_options(argument))),
        Verb::Mlst => asks!(Command::Mlst, path_or_none(alloc, argument)),
        Verb::Mlsd => asks!(Command::Mlsd, path_or_none(alloc, argument)),
        Verb::Size => asks!(Command::Size, path(alloc, argument)),
        Verb::Mdtm => asks!(Command::Mdtm, path(alloc, argument)),
        Verb::Syst => blank(argument).and(Ok(Command::Syst)),
        Verb::Stat if is_blank(argument) => Ok(Command::Stat),
        Verb::Help => asks!(Command::Help, words_or_none(alloc, trim(argument))),
        Verb::Noop => blank(argument).and(Ok(Command::Noop)),
        Verb::Feat => blank(argument).and(Ok(Command::Feat)),
        Verb::Opts => asks!(Command::Opts, words(alloc, trim(argument))),
        Verb::Stat | Verb::Smnt | Verb::Stou | Verb::Site => Err(CommandFault::NotDone),
    }
}
