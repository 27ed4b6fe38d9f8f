//! A client's transfer that holds no file: what comes goes to a sink as it comes, what goes is read of a source as it goes, and either may fail. No IO of its
//! own (RFC 959, sections 3.1 to 3.5).
#![tactic(auto)]

mod carrying;
mod ports;
mod reader_source;
mod sink_transfer;
mod source;
mod source_transfer;
mod went;
mod writer_sink;

pub use carrying::Carries;
pub use ports::{CarriedLink, CarriedPorts};
pub use reader_source::ReaderSource;
pub use sink_transfer::SinkTransfer;
pub use source::{Source, Unread};
pub use source_transfer::SourceTransfer;
pub use writer_sink::WriterSink;
