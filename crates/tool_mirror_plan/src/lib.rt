//! What a mirror does of a directory: a list of steps, by the listing of its source and that of its target, as far as both are told (own choice). No IO.
#![tactic(auto)]

mod actions;
mod index;
mod planning;
mod removal_limit;
pub mod rows;

pub use actions::{
    Action, Actions, Check, CopyDirection, Extra, RefusalReason, Rules, actions_for, removal_for,
};
pub use planning::{PlanStep, plan};
pub use removal_limit::may_remove;
