//! What is done next with a file, at this end and at a server: one job over a control connection of its own (`single`), or many jobs of one kind, one after
//! another (`queue`). Jobs are decided on values, and done through `tool_connect`, `tool_resume` and `tool_files`.
#![tactic(auto)]

pub mod queue;
pub mod rows;
pub mod single;

pub use queue::{
    Fetched, Getting, JobQueue, Often, QueuedJob, QueuedUpload, Removed, UploadSettings,
    WaitingJobs, all_are_done, done_all, none_is_worse,
};
pub use single::{
    DownloadJob, FileSeen, Job, Loaded, OUTPUT, PartHandling, Simple, Single, Target, Targets,
    UploadTooLarge, Wish, ask_for, discard, do_simple, get, keep_part, leave, limit_of, load,
    make_all, place_text, prepare, put, put_renamed, report, source_of, stamp_of, tell_unwritten,
};
