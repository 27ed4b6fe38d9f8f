//! The operations of a user, run directly on a tree: what a session of client and server is measured against; no IO
//! (RFC 959, section 4.1; RFC 3659).
#![tactic(auto)]

mod direct_run;
mod entry;
mod files;
mod laws;
mod list_line;
mod listings;
mod looking;
mod node_line;
mod nodes;
mod offsets;
mod opening;
mod places;
mod reading;
mod refusal;
mod rights;
mod sizes;
mod texts;

pub use direct_run::direct;
pub use entry::{entry_of, file_at, is_root};
pub use ftp_operation::{
    Account, Accounts, AccountsFault, Answer, How, ListVerb, Login, Op, RefusedAccounts, Rights,
};
pub use laws::{
    failures_are_told, lookers_change_nothing, offsets_lead, parts_are_apart, rights_come_first,
    steady_run,
};
pub use list_line::{put_dir_line, put_file_line};
pub use node_line::{last_name, put_node};
pub use nodes::{
    absent_fault, directory_fault, file_fault, is_dir, is_file, len_at, unlisted_fault,
};
pub use offsets::{COUNT_LIMIT, is_counted, place_at, takes_offset};
pub use places::{is_busy, is_held, move_to};
pub use refusal::Refusal;
pub use rights::may_put_at;
pub use sizes::wire_len;
