//! That settling ends: from every world that a session can come to, deliveries, openings and ends lead to one in which nothing is in
//! flight, and no run of them goes on for ever. Laws of the definitions, and no code.
#![tactic(auto)]

pub mod laws;
