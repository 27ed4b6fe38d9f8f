//! The programs that the pages of `ftp_server` and `ftp_client` show: an end embedded over sockets of its owner.
pub mod client;
pub mod server;
pub mod sockets;
