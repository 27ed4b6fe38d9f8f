//! What a transfer of a server does beside a tree, however it is held; how many octets the parts of a server hold; and what is decided on a
//! line by values alone: who may have it done, which endpoint is taken, what was pending (RFC 959, sections 2.3, 4.1 and 5.4); and the octets
//! that a server owes, each reply as it goes out (RFC 959, section 4.2; RFC 2389, RFC 2428, RFC 3659). No IO.
#![tactic(auto)]

mod acted;
mod allowed_endpoint;
mod computed_replies;
mod counted;
mod decision;
mod entry;
mod fault;
mod fixed_replies;
mod line;
mod output;
mod part;
mod room;
mod standing;
mod transfer;

pub use acted::{ActedLine, fixed_code, reply_code};
pub use allowed_endpoint::is_taken;
pub use counted::Counted;
pub use decision::{fault_text, is_free, is_in, is_transfer, pending_for};
pub use fault::Fault;
pub use line::line_len;
pub use output::Output;
pub use part::{access_len, path_len, pending_len, waiting_len};
pub use room::room_text;
pub use standing::still_stands;
pub use transfer::{Given, Marker, Received, ServerTransfer, Told};
