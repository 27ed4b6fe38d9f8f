//! The program `serve`: a folder is served over real connections, several control connections at once (RFC 959).
#![tactic(auto)]

mod accounts;
mod begins;
mod ceiling;
mod connections;
mod goodbye;
mod holding;
mod laws;
mod log_line;
mod logged_command;
mod refused_logins;
mod serving;
mod session_in_slot;
mod session_log;
mod session_start;
mod sessions;
mod starting;
mod stop_file;
mod text;
mod watching;

pub use accounts::accounts_of;
pub use ftp_disk_tree::{Others, Unserved};
pub use ftp_tree::Limits;
pub use laws::each_served_is_one_drive;
pub use serving::{Serving, serve};
pub use session_log::Log;
pub use sessions::SessionCount;
pub use tool_log::LogFormat;
pub use tool_polling::TimeLimits as Waits;
pub use tool_scheduler::Input;
