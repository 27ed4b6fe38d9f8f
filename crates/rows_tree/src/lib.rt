//! For tests alone: plays the rows of a script on paths, on trees, on a mirrored tree over a folder that fails and on trees whose device fails or strays,
//! by single calls and by operations, and writes what each line answers.
#![tactic(auto)]

mod accounts;
mod apart;
mod change;
mod failing_folder;
mod failing_tree;
mod in_memory;
mod keys;
mod octets;
mod operation;
mod paths;
mod reading;
mod request;
mod row;
mod run;
mod said;
mod step;
mod stray;
mod straying;
mod straying_tree;
mod told;
mod tree;
mod verb;
mod words;

pub use change::make_dirs;
pub use failing_tree::FailingTree;
pub use in_memory::direct_in_memory;
pub use operation::play_user;
pub use paths::place;
pub use row::play_all;
pub use stray::{Stray, StrayChange};
pub use straying::strays_so;
pub use straying_tree::StrayingTree;
pub use told::TreeReport;
pub use tree::show_tree;
pub use words::cut_before;
