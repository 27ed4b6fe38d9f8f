//! Refused logins, counted by the address that they came from: who guesses passwords over many connections is answered slowly (RFC 2577, section 5).
#![tactic(auto)]

mod login_limiter;

pub use login_limiter::LoginLimiter;
