// A server: a value without IO, which a driver serves between its connections.
pub use ftp_operation::{Account, Accounts, AccountsFault, RefusedAccounts, Rights};
pub use ftp_secret::Secret;
pub use ftp_server::{NotBegun, Server};
pub use ftp_server_driver::{Clocked, Watches, drive_server, drive_some};
pub use ftp_server_model::{Far, SureFar};
pub use ftp_server_replies::ServerTransfer;
pub use ftp_server_transfer::TreeTransfer;
