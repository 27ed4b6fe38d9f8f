//! Octets of the control connection to the replies that a client hears; what an operation sends, step by step, and what each reply to it
//! means (RFC 854; RFC 959, sections 4.2 and 5.4).
#![tactic(auto)]

mod command;
mod control_reader;
mod counted;
mod judgement;
mod last;
mod line;
mod output;
mod request;
mod step;
mod transfer;
mod tries;
mod upload_tries;
mod value;
mod verdict;

pub use command::{
    own_command, passive_command, port_command, restart_command, set_command, source_command,
};
pub use control_reader::Hearing;
pub use counted::CountedTransfer;
pub use judgement::judged;
pub use last::{KEPT_LIMIT, LastLine};
pub use line::Spoken;
pub use output::{OUTPUT_ROOM, Output};
pub use request::{asked_settings, count_of, how_of, listing_settings, offset_of};
pub use step::{first_step, next_step, settings_behind};
pub use transfer::ClientTransfer;
pub use tries::MOST_TRIES;
pub use upload_tries::{Run, can_be_tried, first_try, is_size, next_in};
pub use value::{answer_in, entry_in};
pub use verdict::{Verdict, is_refusal, verdict_of};
