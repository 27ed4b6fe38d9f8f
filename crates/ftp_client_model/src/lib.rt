//! What a client is, as definitions: its states, what each call does, and the trait that a client meets. No code that does
//! anything; laws and worked rows are functions that do nothing (RFC 959; RFC 2389, RFC 2428, RFC 3659).
#![tactic(auto)]

mod busy;
pub mod client;
pub mod holding;
pub mod laws;
mod near;
pub mod rows;

pub use busy::Busy;
pub use near::Near;
