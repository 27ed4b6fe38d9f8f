//! What a command line asks for: one level of subcommands, as tables of words, and what their values say (own choice).
//! `command` is what `clap` reads; the other functions say what was read. No IO, but that `--max-time` counts from the
//! time of the monotonic clock.
#![tactic(auto)]

mod amount;
mod at_once;
mod client_values;
mod command_line;
mod fetching;
mod help;
mod host;
mod laws;
mod mirroring;
mod numbers;
mod pairing;
mod password;
mod place;
mod refusal;
mod running;
mod serve_values;
mod serving;
mod task;
mod words;

pub use command_line::{Program, command, program_of};
pub use fetching::{
    ErrorStream, PLACE_OPTION, asked_of, each_got, fetch_task_of, get_task_of, is_matched,
    put_task_of,
};
pub use laws::{one_count, one_most, one_port, one_range};
pub use mirroring::mirror_of;
pub use pairing::settings_of;
pub use password::rounds_of;
pub use place::{url_in, urls_in};
pub use refusal::{BadValue, UsageError};
pub use running::{script_server_of, script_user_of};
pub use serving::serving_of;
pub use task::{CommandTask, task_of};
pub use words::{openings_of, told_of};
