//! Names and paths; no IO. A path is a list of names; a text is resolved to one without a look at any tree (RFC 959,
//! section 5.3.2), and `key` compares paths by their names joined.
#![tactic(auto)]

mod fault;
pub mod key;
pub mod laws;
mod limits;
mod login;
mod name;
mod path;
mod walk;

pub use fault::PathFault;
pub use limits::TEXT_LIMIT;
pub use login::{LOGIN_LIMIT, are_login_octets, is_password, is_user};
pub use name::{Name, is_listed_text, is_path_text};
pub use path::Path;
