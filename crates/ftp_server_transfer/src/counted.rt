// How much a transfer stores.
use crate::transfer::TreeTransfer;
use ftp_server_replies::Counted;
use ftp_tree::Tree;
use std::alloc::Allocator;

impl<A: Allocator + Copy, T: Tree<A>> Counted<A, T> for TreeTransfer<A, T> {
    ghost use Rattle.ftp_server_transfer.specs.Stored.{stored_of};

    ghost stored = { stored_of };

    fn stored_len(&self) -> usize {
        match self {
            TreeTransfer::Upload(upload) => upload.stored(),
            TreeTransfer::OverLimit => 0,
            TreeTransfer::Download(download) => download.stored(),
            TreeTransfer::Listing(listing) => listing.stored(),
        }
    }
}
