//! The password that an account needs, in clear or as SHA-crypt (Ulrich Drepper, "Unix crypt using SHA-256 and SHA-512"). No IO and no memory.
#![tactic(auto)]

mod crypt;
mod fault;
mod hashing;
pub mod laws;
mod method;
mod reading;
mod same;
mod secret;
mod text;
mod writing;

pub use fault::SecretFault;
pub use method::Method;
pub use reading::ROUNDS_LIMIT;
pub use secret::{Crypt, Secret};
pub use text::Letters;
pub use writing::Field;
