// Which file a server has, and how a download of it stands, by values alone.
ghost use Rattle.std.specs.Prelude.{◌≡◌};
ghost use Rattle.tool_resume.specs.Version.{arrived, has_so_many, is_as_before, is_seen_again, is_told_again, is_too_large, resumes, size_told, stays};
ghost use Rattle.tool_resume.specs.Version.{is_settled, last_change, moment_told, settled_moment};

/// How many seconds behind a moment no other change of a file has the same moment: servers tell whole seconds, and some file systems even ones alone.
const SETTLING: u64 = 2;

/// What is known of the size of a file that is downloaded.
#[derive(Clone, Copy)]
pub enum Size {
    /// The server told it.
    Told(u64),
    /// The server does not tell it, or was not asked yet.
    Untold,
    /// The server was asked, and answered with what has no place.
    Strange,
    /// It would not count the octets of the transfer, and is not asked for.
    Uncounted,
    /// More octets came than the limit.
    Past,
}

/// When a file was changed last, in seconds from the beginning of 1970, as its server tells.
#[derive(Clone, Copy)]
pub enum LastChange {
    Untold,
    /// It was told at that moment, or so soon behind it that a later change may have the same one.
    Recent(u64),
    /// It was told so much later that a change behind that has another moment.
    Settled(u64),
}

/// Which file a server has at a path, as far as it tells.
#[derive(Clone, Copy)]
pub struct FileVersion {
    pub size: Size,
    pub changed: LastChange,
}

/// How a download stands that the server says is done.
#[derive(Clone, Copy)]
pub enum Arrival {
    /// What came has the size that the server tells.
    Whole,
    /// No size is known, so it is not known whether all came.
    Unknown,
    /// The server tells this size, and what came has another.
    Wrong(u64),
    /// The server tells this size, which is past the limit.
    TooLarge(u64),
    /// The file was another one after its last octet than before its first.
    Changed,
    /// More octets came than the limit.
    Past,
}

/// When a file was changed last of which a server tells this moment, where it was asked then: both in seconds from the beginning of 1970, the one by the
/// clock of the server, the other by that of this machine.
///
/// A server does not tell what its clock shows. So it is assumed that its clock is not behind this one by more than the file's age: for a file that was
/// changed an hour ago, by not more than an hour. A moment that lies ahead is recent. That a moment was set by hand, as by `cp -p`, nothing tells.
pub fn last_change(moment: Option<u64>, asked: u64) -> LastChange
    // Witness: an equation; `edits/a_moment_ahead_is_settled`.
    ensures { result ≡ last_change moment asked }
{
    match moment {
        Some(moment) if is_settled(moment, asked) => LastChange::Settled(moment),
        Some(moment) => LastChange::Recent(moment),
        None => LastChange::Untold,
    }
}

/// Whether a later change than one at this moment has another moment, if it comes behind the time at which the server was asked.
fn is_settled(moment: u64, asked: u64) -> bool
    ensures { result ≡ is_settled moment asked }
{
    moment <= asked && SETTLING <= asked - moment
}

/// The moment, where the server tells it.
fn moment_told(changed: LastChange) -> Option<u64>
    ensures { result ≡ moment_told changed }
{
    match changed {
        LastChange::Recent(moment) | LastChange::Settled(moment) => Some(moment),
        LastChange::Untold => None,
    }
}

/// The moment, where a later change has another one.
fn settled_moment(changed: LastChange) -> Option<u64>
    ensures { result ≡ settled_moment changed }
{
    match changed {
        LastChange::Settled(moment) => Some(moment),
        LastChange::Untold | LastChange::Recent(_) => None,
    }
}

/// Where a download goes on of which so many octets came of the file `before`, where the server has the file `now`: after them where it tells size and
/// moment, these are those of before, and a change since it was asked before had another moment; else it begins anew.
pub fn resumes(before: FileVersion, now: FileVersion, came: u64) -> u64
    // Witness: an equation; `edits/versions_of_one_second_are_joined`.
    ensures { result ≡ resumes before now came }
{
    if is_seen_again(before, now) && has_so_many(size_told(now.size), came) {
        came
    } else {
        0
    }
}

/// Whether the server has the file of before, as far as it tells.
pub fn stays(before: FileVersion, now: FileVersion) -> bool
    // Witness: an equation; `edits/a_file_of_another_moment_stays`.
    ensures { result ≡ stays before now }
{
    is_as_before(size_told(before.size), size_told(now.size))
        && is_as_before(moment_told(before.changed), moment_told(now.changed))
}

/// Whether size and moment were told, so long behind the moment that a later change had another one, and are told again.
fn is_seen_again(before: FileVersion, now: FileVersion) -> bool
    ensures { result ≡ is_seen_again before now }
{
    is_told_again(size_told(before.size), size_told(now.size))
        && is_told_again(settled_moment(before.changed), moment_told(now.changed))
}

/// Whether a file of this size has so many octets.
fn has_so_many(total: Option<u64>, came: u64) -> bool
    ensures { result ≡ has_so_many total came }
{
    match total {
        Some(total) => came <= total,
        None => false,
    }
}

/// The size, where the server tells it.
pub(crate) fn size_told(size: Size) -> Option<u64>
    ensures { result ≡ size_told size }
{
    match size {
        Size::Told(total) => Some(total),
        _ => None,
    }
}

/// Whether a number is told again, or none, as before.
fn is_as_before(before: Option<u64>, now: Option<u64>) -> bool
    ensures { result ≡ is_as_before before now }
{
    match (before, now) {
        (None, None) => true,
        _ => is_told_again(before, now),
    }
}

/// Whether a number is told again.
fn is_told_again(before: Option<u64>, now: Option<u64>) -> bool
    ensures { result ≡ is_told_again before now }
{
    match (before, now) {
        (Some(before), Some(now)) => before == now,
        _ => false,
    }
}

/// Whether a server tells that a file has more octets than the limit.
pub fn is_too_large(limit: u64, size: Size) -> bool
    // Witness: an equation; `edits/a_file_as_large_as_the_limit_is_too_large`.
    ensures { result ≡ is_too_large limit size }
{
    match size {
        Size::Told(total) => limit < total,
        _ => false,
    }
}

/// How a download stands that the server says is done, of which so many octets came, where a file may have `limit` octets, and the server told
/// `before` of it before they came, and `now` after the last of them.
pub fn arrived(limit: u64, before: FileVersion, now: FileVersion, count: u64) -> Arrival
    // Witness: an equation; `edits/what_came_of_another_file_is_whole`.
    ensures { result ≡ arrived limit before now count }
{
    let same = stays(before, now);
    match now.size {
        Size::Told(total) if limit < total => Arrival::TooLarge(total),
        Size::Past => Arrival::Past,
        _ if !same => Arrival::Changed,
        Size::Told(total) if count == total => Arrival::Whole,
        Size::Told(total) => Arrival::Wrong(total),
        Size::Untold | Size::Strange | Size::Uncounted => Arrival::Unknown,
    }
}
