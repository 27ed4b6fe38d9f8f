// A client: a value without IO, which a driver moves between its connections, and the operations that it does.
pub use ftp_client::Client;
pub use ftp_client_driver::{Driven, drive_client, drive_some};
pub use ftp_client_model::{Busy, Near};
pub use ftp_client_steps::ClientTransfer;
pub use ftp_client_transfer::OperationTransfer;
pub use ftp_facts::{Entry, EntryKind, Text};
pub use ftp_operation::{Answer, How, ListVerb, Login, Op};
pub use ftp_settings::{Kind, Mode, Representation, Structure};
