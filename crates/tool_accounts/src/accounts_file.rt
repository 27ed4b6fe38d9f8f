// The accounts of a server, as a file says them: lines of user, password, root and rights (RFC 959, section 4.1.1; the form is an own choice).

mod blame;
mod default_accounts;
mod fault;
mod file;
mod line;
mod reach;
mod reading;

pub use default_accounts::two_accounts;
pub use fault::{AccountFault, AccountsFileFault, TextFault};
pub use file::{load_accounts, load_reach};
pub use reach::{Reach, read_reach};
pub use reading::read_accounts;
