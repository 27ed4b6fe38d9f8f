// What goes to standard error, for `--quiet`: all that the programs tell, or errors alone. The decision is on octets; `QuietHandle` is a handle of a system that
// gives what another gives, and tells what is decided.

mod head;
mod hushed;
mod told;

pub use hushed::QuietHandle;
pub use told::{Verbosity, is_told};
