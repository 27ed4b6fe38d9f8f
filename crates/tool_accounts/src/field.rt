// The program `password`: the field of a file of accounts that a password opens, by a salt of the system's random octets.

mod fault;
mod field;
pub mod laws;
mod making;
mod program;
mod reading;
mod salt;
mod typed;

pub use fault::PasswordFault;
pub use field::field_of;
pub use making::make;
pub use program::password;
pub use salt::{Salt, salt_of};
