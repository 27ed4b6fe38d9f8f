//! What both ends of a session share, as definitions: lines in flight, data octets as they make a file, replies as values, and
//! what an end wants of the connections (RFC 959, sections 2.3, 3.2 and 4.2).
#![tactic(auto)]

mod host;
pub mod laws;
mod link;
mod reply_line_limit;

pub use host::{is_same_host, is_v6};
pub use link::Wants;
pub use reply_line_limit::REPLY_LIMIT;
