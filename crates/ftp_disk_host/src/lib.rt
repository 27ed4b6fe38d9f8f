//! What a tree of a disk asks of a system, and the folder of a system that gives it, by `std::fs` and directories
//! that are open: written beside and moved, flushed, and no link followed (own choice).
#![tactic(auto)]

mod copying;
mod folder;
mod front;
mod host;
mod installing;
mod left;
mod listing;
mod moment;
mod moving;
mod part;
mod place;
mod reading;
mod standing;
mod system;
mod writing;

pub use folder::SystemFolder;
pub use host::{Found, Host, Look, Stamp};
pub use moment::moment_of;
pub use part::SystemPart;
pub use reading::SystemFile;
pub use system::SystemHost;
