// By which commands data connections and listings are asked for: what a server does not know is asked otherwise, from then on.
ghost use Rattle.std.specs.Prelude.{◌≡◌};
ghost use Rattle.tool_session.specs.Opening.{asks_extended, fails_passive, list_verb_by, may_fall_back, opening_by, says_unknown, stranger_by};

use ftp_operation::{Answer, How, ListVerb};
use ftp_reply::code::{BAD_ARGUMENT, BAD_PROTOCOL, NOT_AVAILABLE, NOT_IMPLEMENTED, UNKNOWN};
use std::alloc::Global;
use std::cell::Cell;

/// By which commands a data connection is asked for over IPv4 (RFC 959, section 4.1.2; RFC 2428, sections 2 and 3); over IPv6 there are EPSV and EPRT alone.
#[derive(Clone, Copy)]
pub enum Opening {
    /// By EPSV or EPRT, until the server refuses EPSV, nothing takes a connection at the port that it tells, or it does not know EPRT.
    ExtendedFirst,
    /// By EPSV or EPRT alone.
    Extended,
    /// By PASV or PORT alone.
    Plain,
    /// By PASV or PORT from now on, since the others did not work.
    FellBack,
}

/// How another host than the server's came to be at the other end of a data connection (RFC 2577, section 3). What may help depends on that.
#[derive(Clone, Copy)]
pub enum Stranger {
    /// It opened the data connection, which the server was to open.
    Came,
    /// A 227 names it, and EPSV, which names none, was not asked for.
    Named,
    /// A 227 names it, and EPSV did not work.
    NamedBehind,
}

impl Stranger {
    /// A sentence with what may help.
    pub fn sentence(self) -> &'static str {
        match self {
            Stranger::Came => {
                "another host than the server's opened the data connection; without --active the server opens none"
            }
            Stranger::Named => {
                "the server names another host than its own, which is not trusted; without --no-extended it names none"
            }
            Stranger::NamedBehind => {
                "EPSV did not work, and the server names another host than its own, which is not trusted; --active may help"
            }
        }
    }
}

impl Opening {
    /// Whether it is by EPSV or EPRT.
    fn asks_extended(self) -> bool
        ensures { result ≡ asks_extended self }
    {
        match self {
            Opening::ExtendedFirst | Opening::Extended => true,
            Opening::Plain | Opening::FellBack => false,
        }
    }
}

/// How a program asks for its data connections: what a server said of that counts for all that it asks afterwards, over each control connection.
#[derive(Drop)]
pub struct Openings {
    now: Cell<Opening>,
    listing: Cell<ListVerb>,
}

impl Openings {
    /// By these commands.
    pub fn new(first: Opening) -> Openings {
        Openings {
            now: Cell::new(first),
            listing: Cell::new(ListVerb::Mlsd),
        }
    }

    /// By which command the entries of a directory are asked for now: MLSD, or LIST where the server says that it does not know that.
    pub fn list_verb(&self) -> ListVerb {
        self.listing.get()
    }

    /// Takes in what was answered to a listing. Says whether the same is to be asked again, as `list_verb` then says.
    pub fn hear_listing(&self, answer: &Answer<Global>) -> bool {
        let after = list_verb_after(self.listing.get(), answer);
        let is_other = is_mlsd(self.listing.get()) && !is_mlsd(after);
        self.listing.set(after);
        is_other
    }

    /// How a transfer goes now.
    pub fn how(&self, how: How) -> How
        // Witness: `edits/a_listing_goes_in_another_type`.
        ensures { result ≡ record how { extended = result.extended } }
    {
        How {
            extended: self.now.get().asks_extended(),
            ..how
        }
    }

    /// How another host came to be at the other end of a data connection that was asked for last.
    pub fn stranger(&self, how: How) -> Stranger {
        stranger_of(self.now.get(), how.active)
    }

    /// Takes in what was answered to a transfer, with a data connection or without. Says whether the same is to be asked again, as `how` then says.
    pub fn hear(&self, answer: &Answer<Global>, how: How, is_opened: bool) -> bool {
        let before = self.now.get();
        let after = opening_after(before, answer, how.active, is_opened);
        self.now.set(after);
        before.asks_extended() && !after.asks_extended()
    }
}

/// By which commands it is asked after such an answer, with a data connection or without.
fn opening_after(
    opening: Opening,
    answer: &Answer<Global>,
    is_active: bool,
    is_opened: bool,
) -> Opening
    // Witness: an equation; `edits/an_answer_over_a_data_connection_turns_to_pasv`.
    ensures { result ≡ opening_by opening answer.now is_active is_opened }
{
    match opening {
        Opening::ExtendedFirst => {
            if is_opened {
                Opening::ExtendedFirst
            } else if may_fall_back(answer, is_active) {
                Opening::FellBack
            } else {
                Opening::ExtendedFirst
            }
        }
        Opening::Extended => Opening::Extended,
        Opening::Plain => Opening::Plain,
        Opening::FellBack => Opening::FellBack,
    }
}

/// Whether PASV or PORT may help after an answer without a data connection.
fn may_fall_back(answer: &Answer<Global>, is_active: bool) -> bool
    ensures { result ≡ may_fall_back answer.now is_active }
{
    if is_active {
        says_unknown(answer)
    } else {
        fails_passive(answer)
    }
}

/// Whether EPSV may have been refused, or nothing takes a connection at its port: without a data connection, any refusal came before the command of the
/// transfer.
fn fails_passive(answer: &Answer<Global>) -> bool
    // Witness: an equation; `edits/a_dead_port_of_epsv_is_the_end`, `edits/a_server_that_leaves_is_asked_by_pasv`.
    ensures { result ≡ fails_passive answer.now }
{
    match answer {
        Answer::Refused(NOT_AVAILABLE) => false,
        Answer::Refused(code) => *code >= 400,
        Answer::Unopened => true,
        _ => false,
    }
}

/// Whether an answer says that something is not known (RFC 959, section 4.2.2; RFC 2428, section 2).
fn says_unknown(answer: &Answer<Global>) -> bool
    ensures { result ≡ says_unknown answer.now }
{
    match answer {
        Answer::Refused(UNKNOWN | BAD_ARGUMENT | NOT_IMPLEMENTED | BAD_PROTOCOL) => true,
        _ => false,
    }
}

/// How another host came to be at the other end of a data connection that was asked for so, and that the server was to open or not.
fn stranger_of(opening: Opening, is_active: bool) -> Stranger
    // Witness: an equation; `edits/epsv_that_failed_is_advised_again`.
    ensures { result ≡ stranger_by opening is_active }
{
    if is_active {
        return Stranger::Came;
    }
    match opening {
        Opening::FellBack => Stranger::NamedBehind,
        Opening::ExtendedFirst | Opening::Extended | Opening::Plain => Stranger::Named,
    }
}

/// By which command a listing is asked for after such an answer: LIST where the server does not know MLSD (RFC 959, section 4.2.2).
fn list_verb_after(verb: ListVerb, answer: &Answer<Global>) -> ListVerb
    // Witness: an equation; `edits/a_server_without_mlsd_is_asked_for_it_again`.
    ensures { result ≡ list_verb_by verb answer.now }
{
    match answer {
        Answer::Refused(UNKNOWN | NOT_IMPLEMENTED) => ListVerb::List,
        _ => verb,
    }
}

fn is_mlsd(verb: ListVerb) -> bool {
    matches!(verb, ListVerb::Mlsd)
}
