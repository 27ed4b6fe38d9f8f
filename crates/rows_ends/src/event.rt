// What happens to the connections of an end, and to its clock.
use ftp_endpoint::{Host, extended_endpoint};
use ftp_facts::{Moment, moment_of_text};
use rows_base::number;

/// The first second of the year 2000.
pub const YEAR_2000: Moment = Moment {
    seconds: 946_684_800,
};

/// What happens.
#[derive(Clone, Copy)]
pub enum EndEvent {
    Listening,
    Portless,
    Opened,
    Refused,
    Ended,
    Broke,
    Closed,
    Cut,
    Clock,
}

/// What is said of an event, where it has that.
#[derive(Clone, Copy)]
pub struct EventDetails {
    pub port: u16,
    pub host: Host,
    pub moment: Moment,
}

/// What stands behind the word of an event; this host is at the other end where nothing else is said.
pub fn told_of(rest: &[u8], peer: Host) -> EventDetails {
    EventDetails {
        port: (number(rest) % 65_536) as u16,
        host: host_or(rest, peer),
        moment: moment_of_text(rest).unwrap_or(YEAR_2000),
    }
}

/// The host of an endpoint that is written as in EPRT.
pub fn host_or(text: &[u8], other: Host) -> Host {
    match extended_endpoint(text) {
        Ok(endpoint) => endpoint.host,
        Err(_) => other,
    }
}
