//! Trees of directories and files; no IO. A tree is a finite map from paths to nodes (RFC 959, section 4.1.3); names and
//! paths are those of `ftp_path`.
#![tactic(auto)]

mod draft;
mod entries;
mod fault;
mod label;
pub mod laws;
mod limits;
mod tree;

pub use draft::Draft;
pub use entries::DirEntries;
pub use fault::{Broken, TreeFault};
pub use ftp_path::{Name, Path, PathFault, is_path_text};
pub use label::Label;
pub use limits::Limits;
pub use tree::{DirEntry, FileFacts, NodeKind, Sight, SureTree, Tree};
