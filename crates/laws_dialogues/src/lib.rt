//! The dialogues of both ends over the control connection, and what they lead to: laws of definitions, and no code (RFC 959, section 5.4).
#![tactic(auto)]

pub mod laws;
