ghost use Rattle.std.specs.Prelude.{◌≡◌, ◌↔◌, true};
ghost use Rattle.ftp_wire.specs.Hearing.{TellsNothing};

use ftp_mode::FrameFault;

/// How the last of the octets that were taken ended.
#[derive(Clone, Copy, PartialEq, Eq)]
pub enum Decoded {
    /// More may follow.
    More,
    /// It stands in no text: a fault, which comes again with each further octet.
    Faulty(FrameFault),
    /// With it the file passes its room.
    Over,
    /// For what it settles a growth was refused.
    NoMemory,
}

/// How many octets of a piece were taken, and what the last of them told.
#[derive(Clone, Copy, PartialEq, Eq)]
pub struct Taken {
    pub count: usize,
    /// It ended a restart marker, when so many octets of the file were settled. `Decoder::marker` lends the marker.
    pub mark: Option<u64>,
    pub heard: Decoded,
}

impl Taken {
    /// Whether nothing is to be told: no marker came, and more may follow.
    pub fn tells_nothing(&self) -> bool
        ensures { TellsNothing self.now.mark self.now.heard ↔ (result ≡ true) }
    {
        match (self.mark, self.heard) {
            (None, Decoded::More) => true,
            _ => false,
        }
    }
}
