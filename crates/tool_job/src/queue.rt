// Several things of one kind that are asked of a server one after another, as files that are fetched, sent or removed: over several control connections
// what comes next is asked ahead, and each is left and told in its turn.

mod ahead_jobs;
mod decisions;
mod getting;
mod job_queue;
mod laws;
mod putting;
mod queue_status;
mod queued_job;
mod removing;
mod rounds;

pub use getting::{Fetched, Getting};
pub use job_queue::JobQueue;
pub use laws::{all_are_done, none_is_worse};
pub use putting::{QueuedUpload, UploadSettings};
pub use queued_job::{Often, QueuedJob, WaitingJobs};
pub use removing::Removed;
pub use rounds::done_all;
