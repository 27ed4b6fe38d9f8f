//! That what a session reports and leaves agrees with the operations that were begun, after every event: laws of the definitions, and no
//! code (RFC 959, section 5.4).
#![tactic(auto)]

pub mod laws;
