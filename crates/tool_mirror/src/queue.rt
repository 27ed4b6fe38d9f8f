// What of a mirror is still to be done, one thing after another, and what is removed last, only where it is not too much.

mod action_queue;
mod entry;
mod removal_counts;

pub(crate) use action_queue::ActionQueue;
pub(crate) use entry::{QueueEntry, QueuedAction, Removal, Replacement};
pub(crate) use removal_counts::{Settled, tell_too_many};
