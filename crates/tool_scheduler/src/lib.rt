//! Several sessions in one thread: one poll over all that they wait for, and then a turn of each that is ready, which can't wait itself.
#![tactic(auto)]

mod crowd;
pub mod laws;
mod listening_port;
mod order;
mod rounds;
mod rows;
mod session_limits;
mod slot;
mod stopping;
mod table;
mod waiting;

pub use order::TurnOrder;
pub use rounds::serve_rounds;
pub use session_limits::{Full, Input, SessionLimits};
pub use slot::{Slot, Slots, StopRequest, Turn, TurnResult};
pub use stopping::is_input_open;
