//! Command lines of FTP as values, both ways (RFC 959, sections 4.1 and 5.3; RFC 2389, RFC 2428, RFC 3659).
//! Octets in, values out: no IO.
#![tactic(auto)]

mod argument;
mod command;
mod fault;
mod laws;
mod line;
mod reading;
mod reading_value;
mod setting;
mod text;
mod value;
mod verb;
mod writing;

pub use command::{Command, Passive};
pub use fault::CommandFault;
pub use ftp_endpoint::{Endpoint, Host};
pub use ftp_settings::{Kind, Mode, Structure};
pub use laws::{one_meaning, only_stated, round_trip};
pub use line::LINE_LIMIT;
pub use reading::read;
pub use text::{Argument, LentText};
pub use value::Value;
pub use verb::{Role, Verb, VerbRow, parts, role_of, verb_of};
pub use writing::write;
