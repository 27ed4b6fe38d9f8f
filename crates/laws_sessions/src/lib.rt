//! A session by turns, or beside others, is the direct run.
#![tactic(auto)]

pub mod either;
pub mod passive;
pub mod served;
