//! The operations of a user as values: what is asked of a server, what it answers, who may log in and may change what,
//! and which operations can be sent at all; no IO (RFC 959, section 4.1; RFC 3659).
#![tactic(auto)]

mod account;
mod answer;
mod op;
mod rights;
mod sendable;

pub use account::{Account, Accounts, AccountsFault, Login, RefusedAccounts};
pub use answer::Answer;
pub use op::{How, ListVerb, Op};
pub use rights::Rights;
pub use sendable::{can_be_sent, is_number};
