// Jobs that were taken up ahead of their turn: who was taken up first has its turn first.
ghost use Rattle.std.specs.Prelude.{◌≡◌, ◌++◌, [], ◌∷◌, length, IfSome, IfNone, OnOk, OnErr};

use crate::queue::queued_job::QueuedJob;
use std::alloc::{AllocError, Global};
use tool_session::ClientSession;

/// Jobs that were taken up ahead of their turn, in the order of the turns.
pub(crate) struct AheadJobs<E> {
    jobs: Vec<E, Global>,
}

/// By hand: a derived drop is proved again, part by part, wherever they are let go.
impl<E: Drop> Drop for AheadJobs<E> {
    fn drop(self) {
        let Self { jobs: _ } = self;
    }
}

impl<E: QueuedJob + Drop> AheadJobs<E> {
    /// None yet. Takes no memory.
    pub(crate) fn new(alloc: Global) -> AheadJobs<E>
        ensures { result.jobs.items ≡ [] }
    {
        AheadJobs {
            jobs: Vec::new(alloc),
        }
    }

    /// How many there are.
    pub(crate) fn len(&self) -> usize
        ensures { result ≡ length self.now.jobs.items }
    {
        self.jobs.as_slice().len()
    }

    /// One more, which has its turn behind the others. Fails where memory is refused.
    pub(crate) fn push(&mut self, job: E) -> Result<(), AllocError>
        // Witness of last: an equation.
        ensures last { OnOk result (self.new.jobs.items ≡ self.old.jobs.items ++ job ∷ []) }
        ensures same { OnErr result (self.new.jobs.items ≡ self.old.jobs.items) }
    {
        self.jobs.push(job)?;
        Ok(())
    }

    /// The one whose turn is next, if there is one.
    #[tactic(auto, using(crate::proofs::AheadLemmas::first_removed))]
    pub(crate) fn take_first(&mut self) -> Option<E>
        // Witness of first: `next` of `JobQueue` needs it; `edits/the_last_one_taken_up_is_next`.
        ensures first { IfSome result (λ first. self.old.jobs.items ≡ first ∷ self.new.jobs.items) }
        ensures none { IfNone result (self.old.jobs.items ≡ []) }
        ensures same { IfNone result (self.new.jobs.items ≡ []) }
    {
        if self.jobs.as_slice().is_empty() {
            return None;
        }
        Some(self.jobs.remove(0))
    }

    /// Asks ahead what may be asked of each, in their order.
    pub(crate) fn foresee<S: ClientSession>(&mut self, slot: &mut S) {
        for job in self.jobs.iter_mut() {
            job.foresee(slot);
        }
    }

    /// The control connections over which they were asked ahead are gone.
    pub(crate) fn forget(&mut self) {
        for job in self.jobs.iter_mut() {
            job.forget();
        }
    }

    /// Their turns never come: nothing of them is left at this end.
    pub(crate) fn abandon(&mut self) {
        for job in self.jobs.iter_mut() {
            job.abandon();
        }
    }
}
