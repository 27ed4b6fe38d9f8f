//! The program `mirror`: copies a tree of a server's into a folder of this machine, or back, over control connections (RFC 959; RFC 3659). What is done in
//! a directory is decided by `tool_mirror_plan`; the decisions of this crate are functions of values, each with its definition in `specs/`.
#![tactic(auto)]

mod download;
mod entries;
mod facts;
mod fault;
mod machine;
mod mirroring;
mod prefetch;
mod queue;
mod request;
pub mod rows;
mod standing;
mod tally;
mod telling;
mod upload;
mod walk;

pub use mirroring::mirror;
pub use request::{ActionOutput, Doing, MirrorRequest};
