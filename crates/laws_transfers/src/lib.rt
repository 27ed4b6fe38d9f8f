//! Two drives that put and fetch whole files over passive data connections, as the events of a world: laws, and no code (RFC 959, section 2.3).
#![tactic(auto)]

pub mod laws;
