// What others changed of a folder: what stands on the disk, compared with what the nodes of a tree have there. It is found alone; nothing of the tree is
// changed, and no octet of a file is read.

mod finding;
mod in_directory;
mod looking;
mod parent;

pub(crate) use finding::Finding;
pub use looking::look_at;
