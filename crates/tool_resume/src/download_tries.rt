// What follows a try of a download, by values alone.
ghost use Rattle.std.specs.Prelude.{◌≡◌};
ghost use Rattle.tool_resume.specs.Tries.{after, after_break, after_done, after_loss, after_same, after_unended, after_unopened, follows_download};
ghost use Rattle.tool_resume.specs.Tries.{counted_octets, is_all, is_asked_after, is_past, is_said, is_sized, is_spent, is_whole, result_of_ending, try_result};

use crate::step::{Ended, FrontOwner, NextStep};
use crate::version::{FileVersion, resumes, size_told, stays};
use std::io::Error;
use tool_session::DataEnding;

/// What is asked over a control connection before a first try over it.
#[derive(Clone, Copy)]
pub(crate) enum VersionCheck {
    /// Which file the server has.
    Asked,
    /// Nothing: the server has just listed the file.
    Listed,
    /// Which file the server has, which said over the control connection of before that it is done: where it is the file of before, nothing is tried.
    Said,
}

/// What came of a try, before its answer is judged.
#[derive(Clone, Copy)]
pub(crate) enum TryResult {
    /// The part can't be written.
    Unwritten,
    /// The part that an earlier run left is of another file.
    OtherPart,
    /// More octets came than the limit.
    PastLimit,
    /// The answer counts.
    Answered,
}

/// What came of a try after which the part has this fault, or none, and is of this owner, and whose data connection ended so.
pub(crate) fn try_result(fault: Option<Error>, owner: FrontOwner, ending: DataEnding) -> TryResult
    // Witness: an equation; `edits/a_part_that_is_not_written_is_judged`.
    ensures { result ≡ try_result fault owner ending }
{
    match fault {
        Some(_) => TryResult::Unwritten,
        None => match owner {
            FrontOwner::Other => TryResult::OtherPart,
            FrontOwner::Own | FrontOwner::Lost => result_of_ending(ending),
        },
    }
}

/// What came of a try whose data connection ended so, where the part is written and of no other file.
fn result_of_ending(ending: DataEnding) -> TryResult
    ensures { result ≡ result_of_ending ending }
{
    match ending {
        DataEnding::PastLimit => TryResult::PastLimit,
        DataEnding::Answered | DataEnding::Unended => TryResult::Answered,
    }
}

/// Whether a download has ended of which so many tries may still begin, and over a further control connection this is asked first.
pub(crate) fn is_spent(left: u64, check: VersionCheck) -> bool
    // Witness: an equation; `edits/what_the_server_said_is_done_is_not_looked_at_after_the_last_try`.
    ensures { result ≡ is_spent left check }
{
    match check {
        VersionCheck::Asked | VersionCheck::Listed => left == 0,
        VersionCheck::Said => false,
    }
}

/// Whether the server is asked after a try that ended so which file it has, where this size is told, and so many tries may still begin.
pub(crate) fn is_asked_after(ended: Ended, total: Option<u64>, left: u64) -> bool
    // Witness: an equation; `edits/the_file_is_asked_for_after_the_last_break`.
    ensures { result ≡ is_asked_after ended total left }
{
    match ended {
        Ended::Done => true,
        Ended::Unended => is_sized(total),
        Ended::Broken | Ended::Failed => is_sized(total) && left > 0,
        Ended::Unopened => false,
    }
}

/// Whether the server said that it is done, and its control connection ended before it told which file it has.
pub(crate) fn is_said(ended: Ended, now: Option<FileVersion>) -> bool
    ensures { result ≡ is_said ended now }
{
    match (ended, now) {
        (Ended::Done, None) => true,
        _ => false,
    }
}

/// Which octets count after a try that ended so, of all that came and those that are seen to be the file's: where the server says that all is sent, the latter.
pub(crate) fn counted_octets(ended: Ended, came: u64, seen: u64) -> u64
    // Witness: an equation; `edits/octets_of_an_earlier_run_count_unseen`.
    ensures { result ≡ counted_octets ended came seen }
{
    match ended {
        Ended::Done | Ended::Unended => seen,
        Ended::Broken | Ended::Failed | Ended::Unopened => came,
    }
}

/// What follows a try of a download that ended so, where so many tries may still begin, so many octets came so far, the server told `before` of the
/// file before the first of them, and tells `now` after the try; none where its control connection ended before it did.
///
/// A download is done only where the file is the one of before, and what came has its size. It goes on after what came only where size and moment are
/// told and are those of before; else it begins anew. Where that ends the last try, its answer is told.
pub fn follows_download(
    left: u64,
    ended: Ended,
    came: u64,
    before: FileVersion,
    now: Option<FileVersion>,
) -> NextStep
    // Witness: an equation; `edits/what_changed_in_the_last_try_is_done`, `a_download_without_a_size_goes_on_behind_a_break`.
    ensures { result ≡ follows_download left ended came before now }
{
    match now {
        Some(now) => after(left, ended, before, now, came),
        None => after_loss(left, ended),
    }
}

/// After each end of a try.
fn after(left: u64, ended: Ended, before: FileVersion, now: FileVersion, came: u64) -> NextStep
    ensures { result ≡ after left ended before now came }
{
    match ended {
        Ended::Done => after_done(left, before, now, came),
        Ended::Broken | Ended::Failed => after_break(left, before, now, came),
        Ended::Unended => after_unended(before, now, came),
        Ended::Unopened => after_unopened(left),
    }
}

/// After a try whose control connection ended before the server told which file it has.
fn after_loss(left: u64, ended: Ended) -> NextStep
    ensures { result ≡ after_loss left ended }
{
    match ended {
        Ended::Done => NextStep::Lost,
        Ended::Unopened => after_unopened(left),
        Ended::Broken | Ended::Failed | Ended::Unended => {
            if left == 0 {
                NextStep::Tell
            } else {
                NextStep::Lost
            }
        }
    }
}

/// After a try that the server says is done.
fn after_done(left: u64, before: FileVersion, now: FileVersion, came: u64) -> NextStep
    ensures { result ≡ after_done left before now came }
{
    if stays(before, now) {
        after_same(left, before, now, came)
    } else if left == 0 {
        NextStep::Tell
    } else {
        NextStep::From(0)
    }
}

/// After a try that the server says is done, where the file is the one of before.
fn after_same(left: u64, before: FileVersion, now: FileVersion, came: u64) -> NextStep
    ensures { result ≡ after_same left before now came }
{
    let total = size_told(now.size);
    if is_all(total, came) {
        NextStep::Done
    } else if left == 0 || is_past(total, came) {
        NextStep::Wrong(came)
    } else {
        NextStep::From(resumes(before, now, came))
    }
}

/// After a try that broke off.
fn after_break(left: u64, before: FileVersion, now: FileVersion, came: u64) -> NextStep
    ensures { result ≡ after_break left before now came }
{
    if left == 0 || !is_sized(size_told(before.size)) {
        NextStep::Tell
    } else {
        NextStep::From(resumes(before, now, came))
    }
}

/// After a try that the server says is done, whose data connection did not end.
fn after_unended(before: FileVersion, now: FileVersion, came: u64) -> NextStep
    ensures { result ≡ after_unended before now came }
{
    if stays(before, now) && is_whole(size_told(now.size), came) {
        NextStep::Done
    } else {
        NextStep::Tell
    }
}

/// After a try for which no data connection was opened.
fn after_unopened(left: u64) -> NextStep
    ensures { result ≡ after_unopened left }
{
    if left == 0 {
        NextStep::Tell
    } else {
        NextStep::Again
    }
}

/// Whether all octets came, as far as the size is told.
fn is_all(total: Option<u64>, came: u64) -> bool
    ensures { result ≡ is_all total came }
{
    match total {
        Some(total) => came == total,
        None => true,
    }
}

/// Whether all octets came of a file whose size is told.
fn is_whole(total: Option<u64>, came: u64) -> bool
    ensures { result ≡ is_whole total came }
{
    match total {
        Some(total) => came == total,
        None => false,
    }
}

/// Whether more octets came than the file has.
fn is_past(total: Option<u64>, came: u64) -> bool
    ensures { result ≡ is_past total came }
{
    match total {
        Some(total) => total < came,
        None => false,
    }
}

/// Whether the size is told.
fn is_sized(total: Option<u64>) -> bool
    ensures { result ≡ is_sized total }
{
    total.is_some()
}
