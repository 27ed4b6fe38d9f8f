// How many octets an encoder stores.
ghost use Rattle.std.specs.Prelude.{◌≡◌, ◌≤◌};
ghost use Rattle.ftp_wire.specs.Stored.{encoder_len, encoder_limit};

use crate::encoder::Encoder;

impl Encoder {
    /// How many octets it stores: at most a block of 8,192, and 24 beside it.
    pub fn stored(&self) -> usize
        // Witness of sum: equations, with the sum over the fields.
        ensures sum { result ≡ encoder_len self.now }
        // Witness of few: what a transfer stores is bounded by it: `stored_len` of `ftp_server_transfer` and `ftp_client_transfer`.
        ensures few { result ≤ encoder_limit }
    {
        self.framer.stored() + usize::from(self.half.is_some())
    }
}
