// The end of a control connection while an upload is under way: a client may hang up right behind its last octet (own choice; RFC 959, section 4.1.3).
ghost use Rattle.std.specs.Prelude.{◌≡◌};
ghost use Rattle.tool_polling.specs.Hangup.{told_beside};

use ftp_ports::Spoken;

/// How long the end of a control connection waits for octets of an upload, in milliseconds.
pub(crate) const HELD_MILLIS: u64 = 10_000;

/// Whose data connections these are.
#[derive(Clone, Copy)]
pub(crate) enum LinkOwner {
    /// A client's: the end of its control connection is told at once.
    Client,
    /// A server's: the end of its control connection is told once the data connection of an upload ended or broke, or gave nothing for ten seconds. Its session
    /// goes on without a data connection that failed, so that such a failure counts as something done.
    Server,
}

/// What a data connection gives over which octets come.
#[derive(Clone, Copy)]
pub(crate) enum DataInput {
    /// Octets, its end, or its break.
    Something,
    /// Nothing for so many milliseconds, since the control connection ended or since the last octet.
    NothingFor(u64),
}

/// What is told of a control connection that has this, beside an upload whose data connection gives that.
pub(crate) fn told_beside(control: Spoken, gift: DataInput) -> Spoken
    ensures { result ≡ told_beside control gift }
{
    match (control, gift) {
        (Spoken::Ended, DataInput::Something) => Spoken::Nothing,
        (Spoken::Ended, DataInput::NothingFor(millis)) if millis < HELD_MILLIS => Spoken::Nothing,
        (control, _) => control,
    }
}
