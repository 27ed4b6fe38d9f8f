// What the worst of several statuses says of each. The calls do nothing that a caller needs: their contracts are the laws.
ghost use Rattle.std.specs.Prelude.{◌≡◌, ◌≤◌, List, All};
ghost use Rattle.tool_job.specs.queue.QueueStatus.{worst_after};
ghost use Rattle.tool_terminal.specs.Status.{number};
ghost use Rattle.tool_terminal.specs.declared.status.Status.{Status};
ghost use Rattle.tool_terminal.specs.declared.status.Status.TheVariants.{Done};

/// No status is worse than the worst of them.
pub fn none_is_worse()
    // Witness: a law, proved of an empty body.
    ensures { (worst : Status) (statuses : List Status) → All (λ status. number status ≤ number (worst_after worst statuses)) statuses }
{}

/// Where the worst is that of what is done, each is.
pub fn all_are_done()
    // Witness: a law, proved of an empty body.
    ensures { (statuses : List Status) → worst_after Done statuses ≡ Done → All (λ status. status ≡ Done) statuses }
{}
