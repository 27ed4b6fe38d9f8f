//! Two drives that put, fetch and peek over data connections that either dials, as the events of a world: laws, and no code (RFC 959, section 3.2).
#![tactic(auto)]

pub mod laws;
