// How many octets a framer and a deframer store.
ghost use Rattle.std.specs.Prelude.{◌≡◌, ◌≤◌};
ghost use Rattle.ftp_mode.specs.Stored.{deframer_len, framer_len, framer_limit};

use crate::deframer::Deframer;
use crate::framer::Framer;
use ftp_settings::MARKER_LIMIT;

impl Framer {
    /// How many octets it stores: at most a block of 8,192, and 23 beside it.
    pub fn stored(&self) -> usize
        // Witness of sum: equations, with the sum over the fields.
        ensures sum { result ≡ framer_len self.now }
        // Witness of few: `Encoder::stored` and `Decoder::stored` of `ftp_wire` need it.
        ensures few { result ≤ framer_limit }
    {
        self.block.len() + self.owed.len()
    }
}

impl Deframer {
    /// How many octets it stores: a restart marker, at most 255.
    pub fn stored(&self) -> usize
        // Witness of sum: equations, with the sum over the fields.
        ensures sum { result ≡ deframer_len self.now }
        // Witness of few: as of `stored`.
        ensures few { result ≤ MARKER_LIMIT }
    {
        self.marker.len()
    }
}
