// What a host is asked of names. Each function makes one call and notes it where it was answered: that the note is of that call is seen by eye.
ghost use Rattle.std.specs.Prelude.{◌≡◌, OnErr, OnOk};
ghost use Rattle.ftp_disk_tree.specs.Asked.{asked, asked_move};

use crate::answer::Answer;
use crate::record::Record;
use ftp_disk_host::Host;
use std::io;

/// Makes a directory.
pub(crate) fn make_noted<H: Host>(host: &H, names: &mut Record, below: &str) -> io::Result<()>
    ensures asked { OnOk result (names.new.events ≡ asked Answer.Made below.now names.old.events) }
    ensures unasked { OnErr result (names.new.events ≡ names.old.events) }
{
    host.make_dir(below)?;
    names.note(&Answer::Made, below.as_bytes());
    Ok(())
}

/// Removes an empty directory.
pub(crate) fn remove_noted<H: Host>(host: &H, names: &mut Record, below: &str) -> io::Result<()>
    ensures asked { OnOk result (names.new.events ≡ asked Answer.Emptied below.now names.old.events) }
    ensures unasked { OnErr result (names.new.events ≡ names.old.events) }
{
    host.remove_dir(below)?;
    names.note(&Answer::Emptied, below.as_bytes());
    Ok(())
}

/// Removes a file.
pub(crate) fn delete_noted<H: Host>(host: &H, names: &mut Record, below: &str) -> io::Result<()>
    ensures asked { OnOk result (names.new.events ≡ asked Answer.Removed below.now names.old.events) }
    ensures unasked { OnErr result (names.new.events ≡ names.old.events) }
{
    host.delete(below)?;
    names.note(&Answer::Removed, below.as_bytes());
    Ok(())
}

/// Moves what stands at a place to one where nothing stands.
pub(crate) fn rename_noted<H: Host>(
    host: &H,
    names: &mut Record,
    from: &str,
    to: &str,
) -> io::Result<()>
    ensures asked { OnOk result (names.new.events ≡ asked_move Answer.Came from.now to.now names.old.events) }
    ensures unasked { OnErr result (names.new.events ≡ names.old.events) }
{
    host.rename(from, to)?;
    names.note(&Answer::Left, from.as_bytes());
    names.note(&Answer::Came, to.as_bytes());
    Ok(())
}

/// Moves a file into the place of another.
pub(crate) fn rename_onto_noted<H: Host>(
    host: &H,
    names: &mut Record,
    from: &str,
    to: &str,
) -> io::Result<()>
    ensures asked { OnOk result (names.new.events ≡ asked_move Answer.CameOver from.now to.now names.old.events) }
    ensures unasked { OnErr result (names.new.events ≡ names.old.events) }
{
    host.rename_onto(from, to)?;
    names.note(&Answer::Left, from.as_bytes());
    names.note(&Answer::CameOver, to.as_bytes());
    Ok(())
}
