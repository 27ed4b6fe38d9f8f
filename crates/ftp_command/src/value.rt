// The argument of a command as a value.
use crate::command::Passive;
use ftp_endpoint::Endpoint;
use ftp_settings::{Kind, Mode, Structure};

/// The argument of a command, one variant for each shape that arguments have; `P` is the type of its texts.
#[derive(Drop)]
pub enum Value<P> {
    /// A user name.
    Name(P),
    /// A password, empty where there is none.
    Password(P),
    Words(P),
    WordsOrNone(Option<P>),
    Path(P),
    PathOrNone(Option<P>),
    /// A path or none, behind options that are not kept.
    Listed(Option<P>),
    Nothing,
    /// An endpoint as six numbers (RFC 959, section 4.1.2).
    Six(Endpoint),
    /// An endpoint as an extended address (RFC 2428, section 2).
    Extended(Endpoint),
    Family(Passive),
    Kind(Kind),
    Structure(Structure),
    Mode(Mode),
    Number(u64),
    /// The octets to allocate, and perhaps the longest record.
    Sizes(u64, Option<u64>),
}
