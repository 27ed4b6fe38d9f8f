// What a draft begins with is copied while others are served.
use crate::disk::{DiskTree, Explains};
use ftp_disk_host::Host;
use ftp_disk_scan::Held;

/// A tree whose drafts begin with octets of the files that they are put over, which are copied while others are served.
pub trait Prepares: Explains {
    /// The draft that was begun last and begins so, by a number of its own, once.
    fn begun(&self) -> Option<u64>;

    /// Copies some more of what a draft begins with, few enough that nobody else waits for long, and says whether there is more to copy. What is not
    /// copied so is copied as the draft is put.
    fn copy_on(&self, number: u64) -> bool;
}

impl<'a, H: Host, K: Held> Prepares for DiskTree<'a, H, K> {
    fn begun(&self) -> Option<u64> {
        self.device.host().begun()
    }

    fn copy_on(&self, number: u64) -> bool {
        self.device.host().copy_on(number)
    }
}
