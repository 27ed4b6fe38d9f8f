//! The texts of endpoints both in commands and in replies: decimal numbers, hosts and ports (RFC 959, section 4.1.2;
//! RFC 2428, sections 2 and 3). No IO and no memory.
#![tactic(auto)]

mod decimal;
mod endpoint;
mod extended;
mod fault;
mod host;
pub mod laws;
mod writing;

pub use decimal::{DIGIT_LIMIT, NUMBER_LIMIT, number, octet, octet_in_front, port, split_digits};
pub use endpoint::{Endpoint, after, is_delimiter, port_in_front, six_in_front, six_numbers};
pub use extended::extended_endpoint;
pub use fault::EndpointFault;
pub use host::Host;
pub use writing::{write_extended, write_six};
