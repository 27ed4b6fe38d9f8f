//! The programs `get`, `put` and `ls`: files and listings over real connections to a server; those that need no data connection, as `rm`; `run`: a script
//! of operations over one (RFC 959; RFC 3659).
#![tactic(auto)]

mod each;
mod fetching;
mod listing;
mod matching;
mod pattern_place;
mod running;
mod showing;

pub use each::{Each, FilePair, fetch_each};
pub use fetching::{PlaceTask, fetch};
pub use listing::ListingFormat;
pub use running::{run, run_as, run_orders, run_script, run_script_as};
