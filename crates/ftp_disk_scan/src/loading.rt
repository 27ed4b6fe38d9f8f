// What stands on a disk comes into the nodes of a tree: all below a folder at the start, later what a look found. No file is opened, and what can't be
// served is left out.

mod changes;
mod compared;
mod counting;
mod directory;
mod dirs;
mod fault;
mod freed;
mod names;
mod place;
mod roots;
mod start;
mod taking;
mod tree_entry;
mod version;
mod walking;

pub use changes::{Changes, Findings, Thing};
pub use compared::Compared;
pub use directory::Directory;
pub use dirs::{Dirs, Seen};
pub use fault::{LeftOut, LoadFault, Reason, Unserved};
pub use names::{served, sorted};
pub use place::{below_of, parent_of};
pub use roots::Roots;
pub use start::{Loaded, load};
pub use taking::take_up;
pub use tree_entry::{TreeEntry, entry_at};
pub use version::{Held, Unknown, Version};
