// What a client is told before the server ends its session, and as whom its refused logins are counted.
use std::net::IpAddr;
use tool_polling::TimeoutReason;
use tool_scheduler::Full;

/// The 421 that goes out before a session is ended (RFC 959, section 5.4); none after ten refused logins, of which the last was answered by 530.
pub(crate) fn last_reply(over: TimeoutReason) -> Option<&'static [u8]> {
    match over {
        TimeoutReason::Login => Some(b"421 Nobody logged in\r\n"),
        TimeoutReason::Idle => Some(b"421 Nothing was said or sent\r\n"),
        TimeoutReason::Waited => Some(b"421 Nothing was said or sent, and others wait\r\n"),
        TimeoutReason::Session => Some(b"421 The time is over, since others wait\r\n"),
        TimeoutReason::LoginWaited => Some(b"421 Nobody logged in, and others wait\r\n"),
        TimeoutReason::Crowded => Some(
            b"421 Your address has the most sessions, and another has none\r\n",
        ),
        TimeoutReason::Stopped => Some(b"421 The server stops\r\n"),
        TimeoutReason::Refused => None,
    }
}

/// The 421 to a client for whom there is no slot.
pub(crate) fn no_slot(why: Full) -> &'static [u8] {
    match why {
        Full::House => b"421 Too many sessions, try again later\r\n",
        Full::Host => b"421 Too many sessions from your address, try again later\r\n",
    }
}

/// As whose refused logins those of an address are counted: an IPv4 address is its own; who has one of a network of 64 bits of IPv6 has all of them (RFC 4291,
/// section 2.5.4), so these are one.
pub(crate) fn guessed_from(address: IpAddr) -> u128 {
    match address.to_canonical() {
        IpAddr::V4(ip) => u128::from(u32::from_be_bytes(ip.octets())),
        IpAddr::V6(ip) => (u128::from_be_bytes(ip.octets()) >> 64) | (1 << 64),
    }
}
