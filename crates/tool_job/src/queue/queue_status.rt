// How far a queue got, and with which exit status.
ghost use Rattle.std.specs.Prelude.{◌≡◌};
ghost use Rattle.tool_job.specs.queue.QueueStatus.{counted, next_turn, nothing_done};

use tool_terminal::Status;

/// How many jobs had their turn, and the worst status of those that were left.
#[derive(Clone, Copy)]
pub(crate) struct QueueStatus {
    pub(crate) turns: u64,
    pub(crate) worst: Status,
}

impl QueueStatus {
    /// No job had its turn.
    pub(crate) fn new() -> QueueStatus
        ensures { result ≡ nothing_done }
    {
        QueueStatus {
            turns: 0,
            worst: Status::Done,
        }
    }

    /// A job has its turn.
    pub(crate) fn begin_turn(&mut self)
        ensures { self.new ≡ next_turn self.old }
    {
        self.turns = self.turns.saturating_add(1);
    }

    /// A job was left with this status.
    pub(crate) fn count(&mut self, status: Status)
        // Witness: an equation; `edits/the_last_status_of_a_queue_counts`.
        ensures { self.new ≡ counted self.old status }
    {
        self.worst = self.worst.worse(status);
    }
}
