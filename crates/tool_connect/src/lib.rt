//! What the programs of a client do over one control connection, or several: connecting, logging in, asking by one client, and saying goodbye (RFC 959).
#![tactic(auto)]

mod again;
mod conversation;
mod conversing;
mod health;
mod listening_client;
mod live;
mod progress;
mod server;
mod several;
mod single;

pub use again::ask;
pub use conversing::{Converses, Logins, converse_as};
pub use health::Health;
