//! The file of accounts, with the program `password`.
#![tactic(auto)]

pub mod accounts_file;
pub mod field;

pub use accounts_file::{
    AccountFault, AccountsFileFault, Reach, TextFault, load_accounts, load_reach, read_accounts,
    read_reach, two_accounts,
};
pub use field::{PasswordFault, Salt, field_of, make, password, salt_of};
