// What a queue does next, by values alone.
ghost use Rattle.std.specs.Prelude.{◌≡◌};
ghost use Rattle.tool_job.specs.queue.Decisions.{after_round, effect_by, gets_further, takes_up, waits};

use crate::queue::queued_job::Often;
use ftp_operation::Answer;
use std::alloc::Global;
use std::io::Error;

/// Whether more jobs can be taken up.
#[derive(Clone, Copy)]
pub(crate) enum JobSupply {
    Open,
    /// None can, for this reason.
    Failed(Error),
}

/// What is asked over the control connections that are there.
#[derive(Clone, Copy)]
pub(crate) enum RoundState {
    /// All that has its turn.
    Asking,
    /// Nothing more, since one of them ended: what was asked ahead over others is still given.
    Draining,
}

/// What an answer means for the job that has its turn.
#[derive(Clone, Copy)]
pub(crate) enum AnswerEffect {
    /// It is left as the server answered.
    Left,
    /// The same, and nothing more is asked over these control connections.
    LeftLast,
    /// It goes on over other control connections.
    CutOff,
}

/// What follows a round of control connections.
#[derive(Clone, Copy)]
pub(crate) enum AfterRound {
    /// Nothing: all had their turn.
    Over,
    /// Another round.
    Again,
    /// The job that has its turn is given up, and then another round.
    GivesUp,
}

/// Whether one more job is taken up ahead, where so many were, of at most so many.
pub(crate) fn takes_up(count: usize, most: usize, supply: JobSupply) -> bool
    // Witness: an equation; `edits/one_more_is_taken_up_than_is_asked_ahead`.
    ensures { result ≡ takes_up count most supply }
{
    match supply {
        JobSupply::Open => count < most,
        JobSupply::Failed(_) => false,
    }
}

/// Whether a job that has its turn waits for other control connections: over these nothing more is asked, and it was not asked ahead over them.
pub(crate) fn waits(round: RoundState, is_ahead: bool) -> bool
    // Witness: an equation; `edits/what_was_asked_ahead_is_not_given_any_more`.
    ensures { result ≡ waits round is_ahead }
{
    match round {
        RoundState::Asking => false,
        RoundState::Draining => !is_ahead,
    }
}

/// What this answer means for the job that has its turn, which goes on over other control connections where these end, or does not.
pub(crate) fn effect_of(answer: &Answer<Global>, goes_on: bool) -> AnswerEffect
    // Witness: an equation; `edits/what_was_lost_is_asked_again`.
    ensures { result ≡ effect_by answer.now goes_on }
{
    match answer {
        Answer::Lost => {
            if goes_on {
                AnswerEffect::CutOff
            } else {
                AnswerEffect::LeftLast
            }
        }
        _ => AnswerEffect::Left,
    }
}

/// What follows a round that was answered so last.
pub(crate) fn after_round(answer: &Answer<Global>, often: Often) -> AfterRound
    // Witness: an equation; `edits/a_refused_login_is_asked_again`.
    ensures { result ≡ after_round answer.now often }
{
    match answer {
        Answer::Done => AfterRound::Over,
        Answer::Lost => match often {
            Often::Once => AfterRound::Again,
            Often::On => AfterRound::GivesUp,
        },
        _ => AfterRound::GivesUp,
    }
}

/// Whether a round got further: more jobs had their turn, or other octets came of the one that has it.
pub(crate) fn gets_further(before: (u64, u64), now: (u64, u64)) -> bool
    // Witness: an equation; `edits/only_whole_files_get_further`.
    ensures { result ≡ gets_further before now }
{
    before.0 != now.0 || before.1 != now.1
}
