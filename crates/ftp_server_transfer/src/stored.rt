// How many octets a transfer stores, beside those that came of an upload.
ghost use Rattle.std.specs.Prelude.{◌≡◌, ◌≤◌};
ghost use Rattle.ftp_path.specs.Path.{text_limit};
ghost use Rattle.ftp_server_model.specs.Held.{stored_limit};
ghost use Rattle.ftp_server_transfer.specs.Stored.{IsWholeDownload, IsWholeListing, IsWholeUpload, download_len, listing_len, upload_len, what_len};

use crate::download::Download;
use crate::line::What;
use crate::listing::Listing;
use crate::upload::Upload;
use ftp_tree::Tree;
use std::alloc::Allocator;

impl<A: Allocator + Copy, T: Tree<A>> Download<A, T> {
    /// How many octets it stores: what its encoder does; beside it are its open file, which it shares with the tree, and numbers.
    pub fn stored(&self) -> usize
        // Witness of sum: equations, with the sum over the fields; `edits/a_listing_counts_its_lines_as_nothing`, `edits/an_upload_counts_no_marker`,
        // `edits/a_transfer_stores_a_constant`.
        ensures sum { result ≡ download_len self.now }
        // Witness of whole: the fields that the sum counts, and numbers, are all of it; `edits/a_download_copies_what_it_gives`,
        // `edits/a_download_keeps_its_last_octet`, `edits/a_download_counts_its_calls`, `edits/an_upload_keeps_its_last_octets`.
        ensures whole { IsWholeDownload self.now }
        // Witness of few: `TreeTransfer`'s `stored_len` needs it; `edits/a_listing_keeps_more_lines`.
        ensures few { result ≤ stored_limit }
    {
        match &self.encoder {
            Some(encoder) => encoder.stored(),
            None => 0,
        }
    }
}

impl<A: Allocator + Copy, T: Tree<A>> Upload<A, T> {
    /// How many octets it stores beside those that came: its path, and what its decoder does; beside these it is numbers.
    pub fn stored(&self) -> usize
        // Witness of sum: as of `stored`.
        ensures sum { result ≡ upload_len self.now }
        // Witness of whole: as of `stored`.
        ensures whole { IsWholeUpload self.now }
        // Witness of few: as of `stored`.
        ensures few { result ≤ stored_limit }
    {
        self.path.text().len() + self.decoder.stored()
    }
}

impl<A: Allocator + Copy> Listing<A> {
    /// How many octets it stores: its path, the argument of NLST, the lines that are given and those after them, and what its encoder does.
    /// The names of its entries are the tree's own octets, and not counted.
    pub fn stored(&self) -> usize
        // Witness of sum: as of `stored`.
        ensures sum { result ≡ listing_len self.now }
        // Witness of whole: as of `stored`.
        ensures whole { IsWholeListing self.now }
        // Witness of few: as of `stored`.
        ensures few { result ≤ stored_limit }
    {
        let lines = self.lines.len() + self.ahead.len();
        self.path.text().len() + (self.what.stored() + (self.encoder.stored() + lines))
    }
}

impl<A: Allocator + Copy> What<A> {
    /// How many octets it stores: the argument of NLST.
    pub(crate) fn stored(&self) -> usize
        ensures sum { result ≡ what_len self.now }
        ensures few { result ≤ text_limit }
    {
        match self {
            What::Names(text) => text.as_slice().len(),
            What::Lines | What::Entries(_) => 0,
        }
    }
}
