//! Sessions that meet the premises, computed.
#![tactic(auto)]

pub mod active;
pub mod downloads;
pub mod transfers;
pub mod uploads;
