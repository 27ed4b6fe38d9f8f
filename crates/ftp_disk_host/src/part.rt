// A file that is written beside a name, so that a crash leaves the old one or the new one.
ghost use Rattle.std.specs.Prelude.{◌≡◌, [], IfOk, IfSome, OnOk};
ghost use Rattle.std.specs.Io.Buffered.{writer_buffer, writer_contents, writer_inner};
ghost use Rattle.std.specs.Io.KnownBytes.{Appends, Keeps};

use crate::host::Look;
use crate::moment::time_of;
use crate::place::look_of;
use ftp_facts::Moment;
use std::alloc::Global;
use std::fs::{FileTimes, Files, OpenFile, OpenOptions, Permissions};
use std::io::{BufWriter, Error, ErrorKind, Seek, SeekFrom, Write};
use std::os::unix::fs::{OpenOptionsExt, PermissionsExt};
use std::{fs, io};

/// The permissions of a file that has no predecessor, less the umask, and of one while it is to take the place of another.
const NEW_MODE: u32 = 0o666;

const OWN_MODE: u32 = 0o600;

/// How many octets are gathered for one call of the system; a piece of so many goes on at once.
const GATHERED: usize = 65_536;

/// How far a part has come on its way to the disk. Each step is told in the one function that makes the call for it.
#[derive(Clone, Copy)]
pub(crate) enum Step {
    /// Octets may not be on the disk yet.
    Written,
    /// All that it had then is.
    Synced,
    /// It was given its name after that.
    Named,
    /// The directory of the name was flushed after that.
    Sealed,
}

/// A file that is written beside a name.
#[derive(Drop)]
pub struct SystemPart<F: Write + Drop> {
    pub(crate) file: BufWriter<F, Global>,
    /// What it is called by.
    pub(crate) number: u64,
    /// Where it is, until it has the name.
    pub(crate) beside: Option<String<Global>>,
    /// The permissions of the file that had the name when this one was begun.
    pub(crate) kept: Option<u32>,
    /// How many octets lie before the first one that was written, and are not its own yet.
    pub(crate) owed: u64,
    pub(crate) step: Step,
}

impl<F: Write + OpenFile + Drop> SystemPart<F> {
    /// Writes octets after those that it has.
    pub(crate) fn write(&mut self, octets: &[u8]) -> io::Result<()>
        ensures octets { OnOk result (Appends (writer_contents F.contents self.old.file) (writer_contents F.contents self.new.file) octets.now) }
        ensures step { self.new.step ≡ Step.Written }
    {
        self.step = Step::Written;
        self.file.write_all(octets)
    }

    /// Hands all its octets to the system.
    pub(crate) fn hand_on(&mut self) -> io::Result<()>
        ensures handed { OnOk result (writer_buffer self.new.file ≡ []) }
        ensures kept { Keeps (writer_contents F.contents self.old.file) (writer_contents F.contents self.new.file) }
        ensures step { self.new.step ≡ Step.Written }
    {
        self.step = Step::Written;
        self.file.flush()
    }

    /// Hands all its octets to the system, gives the file its permissions, where they are known, and its moment, and flushes it.
    pub(crate) fn settle(&mut self, mode: Option<u32>, moment: Moment) -> io::Result<()>
        ensures handed { OnOk result (writer_buffer self.new.file ≡ []) }
        ensures kept { Keeps (writer_contents F.contents self.old.file) (writer_contents F.contents self.new.file) }
        ensures synced { OnOk result (self.new.step ≡ Step.Synced) }
    {
        self.hand_on()?;
        let file = self.file.get_ref();
        if let Some(mode) = mode {
            file.set_permissions(Permissions::from_mode(mode))?;
        }
        file.set_times(FileTimes::new().set_modified(time_of(moment)?))?;
        self.sync()
    }

    /// Flushes the file.
    fn sync(&mut self) -> io::Result<()>
        ensures file { self.new.file ≡ self.old.file }
        ensures synced { OnOk result (self.new.step ≡ Step.Synced) }
    {
        self.file.get_ref().sync_all()?;
        self.step = Step::Synced;
        Ok(())
    }

    /// Where it is, as long as it has no name.
    pub(crate) fn beside(&self) -> io::Result<&str> {
        match &self.beside {
            Some(beside) => Ok(beside.as_str()),
            None => Err(Error::from(ErrorKind::NotFound)),
        }
    }

    /// How the file looks.
    pub(crate) fn look(&self) -> io::Result<Look> {
        Ok(look_of(&self.file.get_ref().metadata()?))
    }
}

/// Makes the part of a file beside a place, by its number and its own place, with room for so many octets in front. Nobody else may open one that is to
/// replace a file. None where something has its name.
pub(crate) fn begun_at<R: Files>(
    files: &R,
    alloc: Global,
    number: u64,
    beside: String<Global>,
    kept: Option<u32>,
    front: u64,
) -> io::Result<Option<SystemPart<R::File>>>
    ensures { IfOk result (λ made. IfSome made (λ part. writer_buffer part.file ≡ [])) }
{
    let mut how = OpenOptions::new();
    let mode = if kept.is_some() { OWN_MODE } else { NEW_MODE };
    how.write(true).create_new(true).mode(mode);
    let made = match how.open(files, beside.as_str()) {
        Ok(file) => writer_after(alloc, file, front),
        Err(error) if error.kind() == ErrorKind::AlreadyExists => return Ok(None),
        Err(error) => return Err(error),
    };
    let file = kept_or_gone(files, beside.as_str(), made)?;
    Ok(Some(SystemPart {
        file,
        number,
        beside: Some(beside),
        kept,
        owed: front,
        step: Step::Written,
    }))
}

/// A writer of a new file from a place on.
fn writer_after<F: Write + Seek + Drop>(
    alloc: Global,
    file: F,
    front: u64,
) -> io::Result<BufWriter<F, Global>>
    ensures { IfOk result (λ writer. writer_buffer writer ≡ []) }
{
    let mut file = file;
    if front > 0 {
        file.seek(SeekFrom::Start(front))?;
    }
    BufWriter::with_capacity(alloc, GATHERED, file)
}

/// The permissions of the file at a place, if one is there.
pub(crate) fn mode_at<R: Files>(files: &R, place: &str) -> io::Result<Option<u32>> {
    match fs::symlink_metadata(files, place) {
        Ok(found) if found.is_file() => Ok(Some(found.permissions().mode() & 0o777)),
        Ok(_) => Ok(None),
        Err(error) if error.kind() == ErrorKind::NotFound => Ok(None),
        Err(error) => Err(error),
    }
}

/// Removes a part that got no name.
pub(crate) fn discard<R: Files>(files: &R, part: &mut SystemPart<R::File>) {
    if let Some(beside) = &part.beside {
        let _gone = fs::remove_file(files, beside.as_str());
    }
    part.beside = None;
}

/// Where the last step with a file failed, it is removed.
pub(crate) fn kept_or_gone<R: Files, T: Drop>(
    files: &R,
    place: &str,
    done: io::Result<T>,
) -> io::Result<T>
    ensures { result ≡ done }
{
    if done.is_err() {
        let _gone = fs::remove_file(files, place);
    }
    done
}
