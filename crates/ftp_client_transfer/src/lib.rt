//! What goes over the data connection of a client's transfer: the octets of an upload, or the file of a download; no IO (RFC 959,
//! sections 3.1 to 3.5).
#![tactic(auto)]

mod content;
mod counted;
mod download;
mod listing;
mod stored;
mod transfer;
mod upload;

pub use download::Download;
pub use transfer::OperationTransfer;
pub use upload::Upload;
