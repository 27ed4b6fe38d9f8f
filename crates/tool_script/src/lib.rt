//! Scripts of operations: what a script and each of its lines ask, and how each answer is reported (own choice). No IO but by readers and
//! writers that are handed in.
#![tactic(auto)]

mod cut;
mod escapes;
mod fault;
mod field;
mod how;
pub mod laws;
mod line;
mod moments;
mod order;
mod parts;
mod plain;
mod reading;
mod report;
mod reports;
pub mod rows;
mod script;
mod tables;
mod verb;

pub use fault::LineFault;
pub use field::{octets_of, put_field};
pub use line::{login_of, order_of};
pub use moments::moment_of;
pub use order::Order;
pub use reading::{NoScript, read_script};
pub use report::report_of;
pub use reports::{status_of, write_report, write_reports};
pub use script::{Script, ScriptFault, script_of};
