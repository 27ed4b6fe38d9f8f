// A part gets the name of a place, and the name is on the disk then: by a link where nothing may stand there, else by a move.
ghost use Rattle.std.specs.Prelude.{◌≡◌, [], OnOk};
ghost use Rattle.std.specs.Io.Buffered.{writer_buffer, writer_contents};
ghost use Rattle.std.specs.Io.KnownBytes.{Keeps};

use crate::host::Look;
use crate::part::{Step, SystemPart, kept_or_gone, mode_at};
use crate::place::{check_free, sync_above};
use ftp_facts::Moment;
use std::fs::Files;
use std::io::{ErrorKind, Write};
use std::{fs, io};

/// Gives a part the name of a place where nothing stands: where something does, also what came there since, that stays, and this fails. So does it
/// where the directory can't be flushed: then the file is removed again. How it looks.
pub(crate) fn name_new<R: Files>(
    files: &R,
    part: &mut SystemPart<R::File>,
    place: &str,
    moment: Moment,
) -> io::Result<Look>
    ensures handed { OnOk result (writer_buffer part.new.file ≡ []) }
    ensures kept { Keeps (writer_contents R.File.Write.contents part.old.file) (writer_contents R.File.Write.contents part.new.file) }
    // Witness of sealed: `edits/a_new_file_gets_its_name_before_it_is_flushed`.
    ensures sealed { OnOk result (part.new.step ≡ Step.Sealed) }
{
    part.settle(part.kept, moment)?;
    give_new(files, part, place)?;
    let named = sealed(files, part, place);
    kept_or_gone(files, place, named)
}

/// Gives a part the name of a place in one step, whatever file stands there, and the permissions of that.
pub(crate) fn name_over<R: Files>(
    files: &R,
    part: &mut SystemPart<R::File>,
    place: &str,
    moment: Moment,
) -> io::Result<Look>
    ensures handed { OnOk result (writer_buffer part.new.file ≡ []) }
    ensures kept { Keeps (writer_contents R.File.Write.contents part.old.file) (writer_contents R.File.Write.contents part.new.file) }
    // Witness of sealed: `edits/a_file_is_replaced_before_it_is_flushed`, `a_part_is_not_flushed`, `a_directory_is_not_flushed`.
    ensures sealed { OnOk result (part.new.step ≡ Step.Sealed) }
{
    let kept = mode_at(files, place)?.or(part.kept);
    part.settle(kept, moment)?;
    give_over(files, part, place)?;
    sealed(files, part, place)
}

/// Gives a part that is on the disk the name of a place where nothing stands.
fn give_new<R: Files>(files: &R, part: &mut SystemPart<R::File>, place: &str) -> io::Result<()>
    requires synced { part.old.step ≡ Step.Synced }
    ensures file { part.new.file ≡ part.old.file }
    ensures named { OnOk result (part.new.step ≡ Step.Named) }
{
    move_new(files, part.beside()?, place)?;
    part.beside = None;
    part.step = Step::Named;
    Ok(())
}

/// The same, whatever file stands there.
fn give_over<R: Files>(files: &R, part: &mut SystemPart<R::File>, place: &str) -> io::Result<()>
    requires synced { part.old.step ≡ Step.Synced }
    ensures file { part.new.file ≡ part.old.file }
    ensures named { OnOk result (part.new.step ≡ Step.Named) }
{
    fs::rename(files, part.beside()?, place)?;
    part.beside = None;
    part.step = Step::Named;
    Ok(())
}

/// The name of a file that has one is on the disk; how it looks then.
fn sealed<R: Files>(files: &R, part: &mut SystemPart<R::File>, place: &str) -> io::Result<Look>
    requires named { part.old.step ≡ Step.Named }
    ensures file { part.new.file ≡ part.old.file }
    ensures sealed { OnOk result (part.new.step ≡ Step.Sealed) }
{
    seal(files, part, place)?;
    part.look()
}

/// Flushes the directory in which a part has its name.
fn seal<R: Files>(files: &R, part: &mut SystemPart<R::File>, place: &str) -> io::Result<()>
    requires named { part.old.step ≡ Step.Named }
    ensures file { part.new.file ≡ part.old.file }
    ensures sealed { OnOk result (part.new.step ≡ Step.Sealed) }
{
    sync_above(files, place)?;
    part.step = Step::Sealed;
    Ok(())
}

/// Gives a file the name of a place where nothing stands, in one step: by a link, since that replaces nothing, and then the other name goes. A file system
/// without links has no such step: there it is looked at once more and then moved, and what comes between the two is replaced (own choice).
fn move_new<R: Files>(files: &R, from: &str, to: &str) -> io::Result<()> {
    match fs::hard_link(files, from, to) {
        Ok(()) => {
            let _gone = fs::remove_file(files, from);
            Ok(())
        }
        Err(error) if has_no_links(error.kind()) => {
            check_free(files, to)?;
            fs::rename(files, from, to)
        }
        Err(error) => Err(error),
    }
}

/// Whether a link was refused as by a file system that has none.
fn has_no_links(kind: ErrorKind) -> bool {
    matches!(kind, ErrorKind::PermissionDenied | ErrorKind::Unsupported)
}
