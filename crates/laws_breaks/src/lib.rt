//! Two drivers where a data connection breaks.
#![tactic(auto)]

pub mod downloads;
pub mod uploads;
