//! Worked rows: functions that do nothing, whose contracts are rows of `specs/queue/QueueRows`.
ghost use Rattle.tool_job.specs.queue.QueueRows.{AnswersFollowed, JobsNext, StatusesCombined};

/// Which job of a queue is next.
pub fn jobs()
    ensures { JobsNext }
{}

/// What follows an answer.
pub fn answers()
    ensures { AnswersFollowed }
{}

/// The exit status of a queue.
pub fn statuses()
    ensures { StatusesCombined }
{}
