// A command as a value, generic in how it holds a text.

use ftp_endpoint::Endpoint;
use ftp_settings::{Kind, Mode, Structure};

/// What EPSV asks for: an endpoint of any family, of one, or that no other command opens one (RFC 2428, section 3).
#[derive(Clone, Copy, Debug, PartialEq, Eq)]
pub enum Passive {
    Any,
    Ipv4,
    Ipv6,
    Only,
}

/// A command: its verb and the value of its argument; `P` is the type of its texts.
#[derive(Drop)]
pub enum Command<P> {
    User(P),
    /// The password, empty where there is none.
    Pass(P),
    Acct(P),
    Cwd(P),
    Cdup,
    Rein,
    Quit,
    Port(Endpoint),
    Pasv,
    Eprt(Endpoint),
    Epsv(Passive),
    /// TYPE.
    Repr(Kind),
    Stru(Structure),
    Mode(Mode),
    Retr(P),
    Stor(P),
    Appe(P),
    /// The octets to allocate, and perhaps the longest record.
    Allo(u64, Option<u64>),
    Rest(u64),
    Rnfr(P),
    Rnto(P),
    Abor,
    Dele(P),
    Rmd(P),
    Mkd(P),
    Pwd,
    List(Option<P>),
    Nlst(Option<P>),
    Mlst(Option<P>),
    Mlsd(Option<P>),
    Size(P),
    Mdtm(P),
    Syst,
    Stat,
    Help(Option<P>),
    Noop,
    Feat,
    Opts(P),
}
