ghost use Rattle.std.specs.Prelude.{◌≡◌, ℕ, List, map};
ghost use Rattle.ftp_nvt.specs.Event.{event_list};
ghost use Rattle.ftp_nvt.specs.Lines.{owed};
ghost use Rattle.ftp_nvt.specs.Telnet.{option, owed_of, place_behind};

use crate::event::Event;

pub const SE: u8 = 240;

pub const SB: u8 = 250;

pub const WILL: u8 = 251;

pub const WONT: u8 = 252;

pub const DO: u8 = 253;

pub const DONT: u8 = 254;

pub const IAC: u8 = 255;

/// Where in a unit of Telnet octets an ear stands (RFC 854).
#[derive(Clone, Copy, PartialEq, Eq)]
pub enum TelnetState {
    /// At the start of a unit.
    Between,
    /// Behind IAC.
    Command,
    /// Behind IAC and this verb, which an option follows.
    Option(u8),
    /// In a subnegotiation.
    Inside,
    /// In a subnegotiation, behind IAC.
    InsideCommand,
}

impl TelnetState {
    /// The place behind one more octet.
    pub(crate) fn behind(self, octet: u8) -> TelnetState
        ensures { result ≡ place_behind self octet }
    {
        match self {
            TelnetState::Between if octet == IAC => TelnetState::Command,
            TelnetState::Between | TelnetState::Option(_) => TelnetState::Between,
            TelnetState::Command => match octet {
                SB => TelnetState::Inside,
                WILL..=DONT => TelnetState::Option(octet),
                _ => TelnetState::Between,
            },
            TelnetState::Inside if octet == IAC => TelnetState::InsideCommand,
            TelnetState::Inside => TelnetState::Inside,
            TelnetState::InsideCommand if octet == SE => TelnetState::Between,
            TelnetState::InsideCommand => TelnetState::Inside,
        }
    }
}

/// What a verb and its option settle: no option is taken up, and DONT and WONT have no answer.
pub(crate) fn answer(verb: u8, octet: u8) -> Event
    ensures { (text : List ℕ) → event_list result text ≡ map owed (owed_of (option verb octet)) }
{
    match verb {
        DO => Event::Owed([IAC, WONT, octet]),
        WILL => Event::Owed([IAC, DONT, octet]),
        _ => Event::More,
    }
}
