// What follows a try of an upload, by values alone.
ghost use Rattle.std.specs.Prelude.{◌≡◌};
ghost use Rattle.tool_resume.specs.Steps.{behind_broken, behind_done, behind_failed, behind_unended, follows, is_own, is_size_asked_after};
ghost use Rattle.tool_resume.specs.Steps.{behind_front, front_from, joins, part_owner};

/// What is there of a file: what a server tells by SIZE (RFC 3659, section 4), or what came to this end.
#[derive(Clone, Copy)]
pub enum There {
    /// So many octets.
    Octets(u64),
    /// There is no such file.
    Nothing,
    /// The server does not tell it.
    Untold,
    /// Nothing more is answered over this control connection.
    Lost,
}

/// How a try of a transfer ended.
#[derive(Clone, Copy)]
pub enum Ended {
    /// The server says that all is done.
    Done,
    /// Its data connection broke.
    Broken,
    /// It was refused by 451 although its data connection was opened.
    Failed,
    /// No data connection was opened.
    Unopened,
    /// The server says that all is done, and its data connection did not end.
    Unended,
}

/// How far a transfer is.
#[derive(Clone, Copy)]
pub struct TransferState {
    /// How many octets the file has.
    pub total: u64,
    /// How many tries may still begin.
    pub left: u64,
    /// What stood where the file goes to before the first try, and may stand there still: `Nothing` once it is known not to.
    pub older: There,
}

/// What follows a try.
#[derive(Clone, Copy)]
pub enum NextStep {
    /// A try from this octet of the file on.
    From(u64),
    /// The same try once more.
    Again,
    /// All is done.
    Done,
    /// The answer of the try is told.
    Tell,
    /// It is told that so many octets are there.
    Wrong(u64),
    /// It is told that the server says that all is done, and then that there is no such file.
    Missing,
    /// All is asked anew over another control connection.
    Lost,
}

/// How many octets of a front are read back, and those before them not (own choice).
const READ_BACK: u64 = 65_536;

/// What the last octets are of the front that a server has of an upload, or an earlier run left of a download: they are read back from the server before the
/// transfer goes on behind them.
#[derive(Clone, Copy)]
pub enum FrontOwner {
    /// The file's own at that place.
    Own,
    /// Others, or the server does not give them.
    Other,
    /// The connection ended before they came.
    Lost,
}

/// From which octet on, counted from 0, a front of so many octets is read back.
pub fn front_from(count: u64) -> u64
    // Witness: an equation; `edits/all_of_a_front_is_read_back`.
    ensures { result ≡ front_from count }
{
    count.saturating_sub(READ_BACK)
}

/// What follows where a try would go on behind so many octets, of which the last are these: it goes on behind the source's own alone, and else begins anew.
pub fn behind_front(count: u64, front: FrontOwner) -> NextStep
    // Witness: an equation; `edits/an_upload_goes_on_behind_another_file`.
    ensures { result ≡ behind_front count front }
{
    match front {
        FrontOwner::Own => NextStep::From(count),
        FrontOwner::Other => NextStep::From(0),
        FrontOwner::Lost => NextStep::Lost,
    }
}

/// What the last octets are of a part that an earlier run left of a download, so many of which are awaited once more: so many came that are the same, or were
/// written after them; `is_other`: one came that is another; `is_done`: the server says that it sent all.
pub fn part_owner(awaited: u64, came: u64, is_other: bool, is_done: bool) -> FrontOwner
    // Witness: an equation; `edits/a_part_of_another_file_is_gone_on_with`.
    ensures { result ≡ part_owner awaited came is_other is_done }
{
    if is_other {
        FrontOwner::Other
    } else if awaited <= came {
        FrontOwner::Own
    } else if is_done {
        FrontOwner::Other
    } else {
        FrontOwner::Lost
    }
}

/// How many of the octets that came are joined to those of the part, where these are its last ones: those after all that are awaited, and none where the part
/// is not seen to be the file's own.
pub fn joins(front: FrontOwner, awaited: u64, came: u64) -> u64
    // Witness: an equation; `edits/octets_are_joined_to_another_file`.
    ensures { result ≡ joins front awaited came }
{
    match front {
        FrontOwner::Own => came.saturating_sub(awaited),
        FrontOwner::Other | FrontOwner::Lost => 0,
    }
}

/// What follows a try that ended so, where this is there then.
///
/// A 226 is believed only where the size is the file's, or is not told. A try goes on behind the octets that are there only where these are known to
/// be of this transfer, and else begins anew.
pub fn follows(transfer: TransferState, ended: Ended, there: There) -> NextStep
    // Witness: an equation; `edits/an_upload_of_which_no_size_is_told_begins_anew`, `a_226_is_believed_in_spite_of_the_size`.
    ensures { result ≡ follows transfer ended there }
{
    match ended {
        Ended::Done => behind_done(transfer, there),
        Ended::Broken => behind_broken(transfer, there),
        Ended::Failed => behind_failed(transfer, there),
        Ended::Unopened => {
            if transfer.left == 0 {
                NextStep::Tell
            } else {
                NextStep::Again
            }
        }
        Ended::Unended => behind_unended(transfer, there),
    }
}

/// Whether the size of what stands there is asked for behind a try of an upload that ended so, where so many tries may still begin.
pub(crate) fn is_size_asked_after(ended: Ended, left: u64) -> bool
    // Witness: an equation; `edits/the_size_is_asked_for_after_the_last_break`.
    ensures { result ≡ is_size_asked_after ended left }
{
    match ended {
        Ended::Done => true,
        Ended::Broken | Ended::Failed => left > 0,
        Ended::Unopened | Ended::Unended => false,
    }
}

/// Behind a try that the server says is done, whose data connection did not end.
fn behind_unended(transfer: TransferState, there: There) -> NextStep
    ensures { result ≡ behind_unended transfer there }
{
    match there {
        There::Octets(count) if count == transfer.total => NextStep::Done,
        _ => NextStep::Tell,
    }
}

/// Behind a try that the server says is done.
fn behind_done(transfer: TransferState, there: There) -> NextStep
    ensures { result ≡ behind_done transfer there }
{
    match there {
        There::Octets(count) => behind_octets(transfer, count),
        There::Nothing => NextStep::Missing,
        There::Untold | There::Lost => NextStep::Done,
    }
}

/// Behind a try that the server says is done, where so many octets are there.
fn behind_octets(transfer: TransferState, count: u64) -> NextStep
    ensures { result ≡ behind_done transfer (There.Octets count) }
{
    if count == transfer.total {
        NextStep::Done
    } else if count > transfer.total || transfer.left == 0 {
        NextStep::Wrong(count)
    } else if is_own(transfer.older, count) {
        NextStep::From(count)
    } else {
        NextStep::From(0)
    }
}

/// Behind a try whose data connection broke.
fn behind_broken(transfer: TransferState, there: There) -> NextStep
    ensures { result ≡ behind_broken transfer there }
{
    if transfer.left == 0 {
        return NextStep::Tell;
    }
    match there {
        There::Octets(count) => {
            if count <= transfer.total && is_own(transfer.older, count) {
                NextStep::From(count)
            } else {
                NextStep::From(0)
            }
        }
        There::Nothing => NextStep::From(0),
        There::Untold => NextStep::Tell,
        There::Lost => NextStep::Lost,
    }
}

/// Behind a try that was refused by 451: it was given up in its middle only where the server is seen to have octets of it.
fn behind_failed(transfer: TransferState, there: There) -> NextStep
    ensures { result ≡ behind_failed transfer there }
{
    if transfer.left == 0 {
        return NextStep::Tell;
    }
    match there {
        There::Octets(count) => {
            if count <= transfer.total && is_own(transfer.older, count) {
                NextStep::From(count)
            } else {
                NextStep::Tell
            }
        }
        There::Nothing | There::Untold => NextStep::Tell,
        There::Lost => NextStep::Lost,
    }
}

/// Whether so many octets are known to be of this transfer, and not what stood there before.
fn is_own(older: There, count: u64) -> bool
    ensures { result ≡ is_own older count }
{
    match older {
        There::Nothing => true,
        There::Octets(size) => size != count,
        There::Untold | There::Lost => false,
    }
}
