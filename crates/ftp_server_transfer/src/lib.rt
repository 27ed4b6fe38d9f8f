//! Uploads, downloads and listings of a server, as one type that meets the trait of transfers; LIST, NLST and MLSD are made line by line from
//! a tree (RFC 959, section 4.1.3; RFC 1123, section 4.1.2.7; RFC 3659, section 7). No IO.
#![tactic(auto)]

mod counted;
mod download;
mod ending;
mod line;
mod listing;
mod named;
mod settled;
mod standing;
mod stored;
mod transfer;
mod upload;

pub use download::Download;
pub use line::What;
pub use listing::{Listing, Made};
pub use named::Named;
pub use transfer::TreeTransfer;
pub use upload::{Arrived, Upload};
