//! Trees in memory, with or without a folder.
#![tactic(auto)]

pub mod pages;
pub mod trees;

pub use pages::Pages;
pub use trees::{Content, Folder, FolderFault, HeldTree, MemTree, Mirror};
