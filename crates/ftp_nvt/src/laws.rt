//! What holds of the definitions, each law the contract of a function that does nothing.

ghost use Rattle.ftp_nvt.specs.Fold.{EarGivesEvents, ReaderIsEar};
ghost use Rattle.ftp_nvt.specs.Laws.{UnitIsRead, CutUnitIsNone, LinesAreOfBareOctets};
ghost use Rattle.ftp_nvt.specs.Laws.{AnswersAreOwed, FrontSaysFront, WrittenLineIsHeard};

use crate::ear::Ear;
use std::alloc::Allocator;

/// A row of octets is read as the units that it is a row of.
pub fn units_are_read()
    ensures whole { UnitIsRead }
    ensures cut { CutUnitIsNone }
{}

/// Events are the lines of the bare octets and the owed answers, and stand whatever follows.
pub fn events_are_settled()
    ensures lines { LinesAreOfBareOctets }
    ensures answers { AnswersAreOwed }
    ensures front { FrontSaysFront }
{}

/// Lines that were written are heard again.
pub fn written_lines_are_heard()
    ensures { WrittenLineIsHeard }
{}

/// The fold gives, octet by octet, what all octets say.
pub fn fold_gives_events()
    // Witness: law; edit of a definition.
    ensures { EarGivesEvents }
{}

/// An ear is seen as the fold behind what it has heard.
pub fn ear_is_its_fold<A: Allocator + Copy>(ear: &Ear<A>)
    // Witness: law; edit of a definition.
    ensures { ReaderIsEar ear.now }
{}
