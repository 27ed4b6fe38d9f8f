//! The dialogue of a control connection between a reader and a writer: the server over an empty tree, without any data connection
//! (RFC 959, sections 4.1, 4.2 and 5.4).
#![tactic(auto)]

mod answers;
mod dialogues;
pub mod laws;
mod refusal;
mod serving;

pub use dialogues::dialogue;
