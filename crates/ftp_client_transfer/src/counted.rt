// How much a transfer stores.
use crate::transfer::OperationTransfer;
use ftp_client_steps::CountedTransfer;
use std::alloc::Allocator;

impl<A: Allocator + Copy> CountedTransfer<A> for OperationTransfer<A> {
    ghost use Rattle.ftp_client_transfer.specs.Stored.{stored_in_operation};

    ghost stored = { stored_in_operation };

    fn stored_len(&self) -> usize {
        match self {
            OperationTransfer::Upload(upload) => upload.stored(),
            OperationTransfer::Download(download) => download.stored(),
        }
    }
}
