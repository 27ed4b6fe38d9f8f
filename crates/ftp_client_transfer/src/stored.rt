// How many octets a transfer stores, beside those that came of a download.
ghost use Rattle.std.specs.Prelude.{◌≡◌, ◌≤◌};
ghost use Rattle.ftp_client_model.specs.Held.{block_stored_limit};
ghost use Rattle.ftp_client_transfer.specs.Stored.{IsDecoderAndMark, IsEncoderPlaceAndMark, download_marker_len, upload_encoder_len};

use crate::download::Download;
use crate::upload::Upload;
use std::alloc::Allocator;

impl Upload {
    /// How many octets it stores: what its encoder does; beside it it is numbers, since its file is its operation's.
    pub fn stored(&self) -> usize
        // Witness of sum: equations, with the sum over the fields; `edits/an_upload_counts_no_block`, `edits/a_download_counts_no_marker`.
        ensures sum { result ≡ upload_encoder_len self.now }
        // Witness of whole: the fields that the sum counts, what came, and numbers are all of it; `edits/an_upload_copies_what_it_gives`,
        // `edits/a_download_keeps_its_first_octet`.
        ensures whole { IsEncoderPlaceAndMark self.now }
        // Witness of few: `OperationTransfer`'s `stored_len` needs it.
        ensures few { result ≤ block_stored_limit }
    {
        self.encoder.stored()
    }
}

impl<A: Allocator + Copy> Download<A> {
    /// How many octets it stores beside those that came: what its decoder does; beside it it is numbers.
    pub fn stored(&self) -> usize
        // Witness of sum: as of `stored`.
        ensures sum { result ≡ download_marker_len self.now }
        // Witness of whole: as of `stored`.
        ensures whole { IsDecoderAndMark self.now }
        // Witness of few: `OperationTransfer`'s `stored_len` needs it.
        ensures few { result ≤ block_stored_limit }
    {
        self.decoder.stored()
    }
}
