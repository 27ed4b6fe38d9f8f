//! Who logs in at a server (own choice): by `.netrc`, by a file of a password, or by the environment; and a file that has a secret, which is read.
//! IO by `std::fs` and `std::env` alone.
#![tactic(auto)]

mod entry;
mod fault;
mod login;
mod netrc;
mod netrc_file;
mod private;
mod rows;
mod secrets;
mod source;
mod spot;

pub use entry::NetrcEntry;
pub use fault::NetrcFault;
pub use login::{User, login_of};
pub use netrc::netrc_entry;
pub use private::{FileAccess, NotPrivate, access_of, read_private};
pub use rows::{entries, netrc_words};
pub use source::{Known, PasswordSource, source_of};
