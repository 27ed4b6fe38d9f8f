//! Two drivers are the events of one world.
#![tactic(auto)]

pub mod control;
pub mod events;
pub mod world;
