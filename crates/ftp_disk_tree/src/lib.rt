//! The tree of a disk: names, sizes and moments in memory, octets where they lie (RFC 959, section 4.1.3). It meets `Tree` of `ftp_tree` for whatever
//! the disk holds.
#![tactic(auto)]

mod answer;
mod changing;
mod device;
mod disk;
mod draft;
mod left;
mod names;
mod opened;
mod opening;
mod parked;
mod preparing;
mod putting;
mod record;
mod thing;

pub use disk::{DiskTree, Explains, Others};
pub use draft::DiskDraft;
pub use ftp_disk_scan::{Held, LeftOut, LoadFault, Reason, Unknown, Unserved, Version};
pub use opened::DiskOpen;
pub use opening::open;
pub use parked::Parks;
pub use preparing::Prepares;
