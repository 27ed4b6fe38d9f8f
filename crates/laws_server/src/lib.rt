//! What a server holds, and one history of several sessions.
#![tactic(auto)]

pub mod one;
pub mod several;

pub use several::Lends;
