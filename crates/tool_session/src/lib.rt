//! What is asked of a server over its control connections, whoever answers it, and how it is told what was answered or why nothing was (RFC 959).
#![tactic(auto)]

mod fault;
mod last_reply;
mod opening;
mod rate;
mod request;
mod request_state;
pub mod rows;
mod saying;
mod server;
mod session;
mod shared_file;
mod stream_body;
mod subject;

pub use fault::{Phase, SessionFault, at};
pub use last_reply::{LastReply, Said, ServerRefusal};
pub use opening::{Opening, Openings, Stranger};
pub use rate::{pause_of, piece_of};
pub use request::{MOST_ENTRIES, Request, Terms, begin};
pub use request_state::{DataEnding, DataLimits, RequestState};
pub use saying::{say, told};
pub use server::ServerAddress;
pub use session::{ClientSession, SessionTask, Ticket};
pub use shared_file::{SharedFile, is_other};
pub use stream_body::{FileDownloadStream, FileUploadStream, FromStreamBody, StreamBody};
pub use subject::Subject;
