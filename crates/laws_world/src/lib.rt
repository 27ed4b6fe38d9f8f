//! The two ends of a session and the world between them, as definitions: the queues, the events, what each report lets stand,
//! and the claims. No code that does anything; laws and worked rows are functions that do nothing.
#![tactic(auto)]

pub mod laws;
pub mod rows;
