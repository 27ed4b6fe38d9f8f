//! The scan of a folder into nodes: of all of it at the start (`load`), and later of what others changed, which `look_at`
//! finds and `take_up` takes in (own choice). No IO of its own: a `Host` is asked. No file is opened.
#![tactic(auto)]

pub mod loading;
pub mod rescan;

pub use loading::{
    Compared, Dirs, Findings, Held, LeftOut, LoadFault, Loaded, Reason, Unknown, Unserved, Version,
    below_of, load, parent_of, take_up,
};
pub use rescan::look_at;
