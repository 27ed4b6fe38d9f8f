// Trees in memory, with or without a folder to which each change goes first; no IO. A `MemTree` and a `Mirror` meet the trait
// `Tree` of `ftp_tree`.

mod changing;
mod content;
mod device;
mod held;
mod kept;
mod memory;
mod mirror;

pub use content::Content;
pub use device::{Folder, FolderFault};
pub use held::HeldTree;
pub use memory::MemTree;
pub use mirror::Mirror;
