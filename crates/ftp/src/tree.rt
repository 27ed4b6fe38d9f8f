// Trees of files: in memory, and in a folder of a system.
pub use ftp_direct::direct;
pub use ftp_disk_host::{Host, SystemHost};
pub use ftp_disk_tree::{DiskTree, LeftOut, LoadFault, Others, Unknown, Unserved, open};
pub use ftp_tree::{
    Broken, DirEntries, DirEntry, Draft, FileFacts, Limits, Name, NodeKind, Path, PathFault, Sight,
    SureTree, Tree, TreeFault,
};
pub use ftp_tree_memory::{Content, Folder, HeldTree, MemTree, Mirror};
