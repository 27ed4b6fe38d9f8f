// What is asked of the places below a folder, as one trait without types of its own: what stands on it is proved for less than on the system's files.
use crate::folders::folder::OpenFolder;
use crate::local::{Change, Flush, LimitedContent, LocalFiles, OpenPart, OpenSource};
use ftp_facts::{Moment, Text};
use std::alloc::Global;
use std::fs::{File, Files, Metadata};
use std::io::{Error, ErrorKind};
use std::time::Clock;
use std::{fs, io};

/// What stands under a name of a directory.
#[derive(Drop)]
pub struct DirectoryEntry {
    /// Its octets, which need be no text.
    pub name: Text<Global>,
    /// What the system says of it, of a link itself; none where its name is no text.
    pub found: Option<Metadata>,
}

/// What stands in a directory.
#[derive(Drop)]
pub enum Sightings {
    All(Vec<DirectoryEntry, Global>),
    /// More than were asked for.
    TooMany,
}

/// A file below a root that is open, to be read as it goes.
#[derive(Drop)]
pub struct OpenBelow {
    pub source: OpenSource,
    /// A path by which it may be opened anew, as long as its directory is open.
    pub path: String<Global>,
    pub dir: OpenDir,
}

/// A directory that is open.
#[derive(Drop)]
pub struct OpenDir {
    _folder: OpenFolder,
}

/// Who has folders. A path `below` a root has slashes between its parts, and is empty for the root itself; no link below the root is followed.
pub trait Places {
    /// What stands in the directory there, `most` entries at most, without `.` and `..`.
    fn sightings(&self, root: &str, below: &str, most: usize) -> io::Result<Sightings>;

    /// What the system says of what stands there, of a link itself; none where nothing does.
    fn found(&self, root: &str, below: &str) -> io::Result<Option<Metadata>>;

    /// The octets of the file there, where it has `limit` octets at most.
    fn read_below(&self, root: &str, below: &str, limit: u64) -> io::Result<LimitedContent>;

    /// Opens the file there, to be read as it goes; none where its size is not known.
    fn open_below(&self, root: &str, below: &str) -> io::Result<Option<OpenBelow>>;

    /// Writes the octets of the file there, beside its name, and moves it over what has the name.
    fn write_below(
        &self,
        root: &str,
        below: &str,
        pieces: &[Text<Global>],
        moment: Option<Moment>,
        flush: Flush,
    ) -> io::Result<()>;

    /// Makes the part of the file there, beside its name, to which octets go as they come.
    fn begin_below(&self, root: &str, below: &str) -> io::Result<OpenPart>;

    /// Moves a part that is whole over what has the name. Where that fails, the part stands.
    fn finish_below(
        &self,
        root: &str,
        below: &str,
        part: &OpenPart,
        count: u64,
        moment: Option<Moment>,
        flush: Flush,
    ) -> io::Result<()>;

    /// Removes a part.
    fn discard_below(&self, root: &str, below: &str, part: &OpenPart) -> io::Result<()>;

    /// Changes what stands there, beside the octets of files. The root itself can be made alone.
    fn change_below(&self, change: Change, root: &str, below: &str) -> io::Result<()>;

    /// Gives what stands there another name in its directory, where nothing has that name.
    fn rename_below(&self, root: &str, below: &str, name: &str) -> io::Result<()>;
}

impl<R: Files<File = File> + Clock + AllocGlobal> Places for R {
    fn sightings(&self, root: &str, below: &str, most: usize) -> io::Result<Sightings> {
        let folder = OpenFolder::reach(self.alloc(), root, below)?;
        seen(self, self.alloc(), &folder, most)
    }

    fn found(&self, root: &str, below: &str) -> io::Result<Option<Metadata>> {
        let (folder, name) = parent(self.alloc(), root, below)?;
        found_at(self, folder.path_of(self.alloc(), name)?.as_str())
    }

    fn read_below(&self, root: &str, below: &str, limit: u64) -> io::Result<LimitedContent> {
        let (_folder, path) = file_at(self, self.alloc(), root, below)?;
        self.read_from(path.as_str(), 0, limit)
    }

    fn open_below(&self, root: &str, below: &str) -> io::Result<Option<OpenBelow>> {
        let (folder, path) = file_at(self, self.alloc(), root, below)?;
        match self.open_source(path.as_str(), 0)? {
            Some(source) => Ok(Some(OpenBelow {
                source,
                path,
                dir: OpenDir { _folder: folder },
            })),
            None => Ok(None),
        }
    }

    fn write_below(
        &self,
        root: &str,
        below: &str,
        pieces: &[Text<Global>],
        moment: Option<Moment>,
        flush: Flush,
    ) -> io::Result<()> {
        let (folder, name) = parent(self.alloc(), root, below)?;
        let path = folder.path_of(self.alloc(), name)?;
        self.write_at(path.as_str(), pieces, moment, flush)
    }

    fn begin_below(&self, root: &str, below: &str) -> io::Result<OpenPart> {
        let (folder, name) = parent(self.alloc(), root, below)?;
        let path = folder.path_of(self.alloc(), name)?;
        self.begin_at(path.as_str())
    }

    fn finish_below(
        &self,
        root: &str,
        below: &str,
        part: &OpenPart,
        count: u64,
        moment: Option<Moment>,
        flush: Flush,
    ) -> io::Result<()> {
        let (folder, name) = parent(self.alloc(), root, below)?;
        let path = folder.path_of(self.alloc(), name)?;
        self.finish_at(path.as_str(), part, count, moment, flush)
    }

    fn discard_below(&self, root: &str, below: &str, part: &OpenPart) -> io::Result<()> {
        let (folder, name) = parent(self.alloc(), root, below)?;
        let path = folder.path_of(self.alloc(), name)?;
        self.discard_at(path.as_str(), part)
    }

    fn change_below(&self, change: Change, root: &str, below: &str) -> io::Result<()> {
        if below.is_empty() {
            return self.change(change, root);
        }
        let (folder, name) = parent(self.alloc(), root, below)?;
        match change {
            Change::MakeDir => { self.change(change, folder.path_of(self.alloc(), name)?.as_str()) }
            Change::RemoveFile => folder.remove_file(name),
            Change::RemoveDir => folder.remove_dir(name),
        }
    }

    fn rename_below(&self, root: &str, below: &str, name: &str) -> io::Result<()> {
        let (folder, before) = parent(self.alloc(), root, below)?;
        let from = folder.path_of(self.alloc(), before)?;
        let to = folder.path_of(self.alloc(), name)?;
        if found_at(self, to.as_str())?.is_some() {
            return Err(Error::from(ErrorKind::AlreadyExists));
        }
        fs::rename(self, from.as_str(), to.as_str())
    }
}

/// The directory in which a file stands below a root, and a path of it there.
fn file_at<R: Files>(
    files: &R,
    alloc: Global,
    root: &str,
    below: &str,
) -> io::Result<(OpenFolder, String<Global>)> {
    let (folder, name) = parent(alloc, root, below)?;
    let path = folder.path_of(alloc, name)?;
    if !fs::symlink_metadata(files, path.as_str())?.is_file() {
        return Err(Error::new(ErrorKind::InvalidInput, "it is no file any more"));
    }
    Ok((folder, path))
}

/// The directory in which something stands below a root, and its name there.
fn parent<'a>(alloc: Global, root: &str, below: &'a str) -> io::Result<(OpenFolder, &'a str)> {
    let (dir, name) = match below.rsplit_once('/') {
        Some((dir, name)) => (dir, name),
        None => ("", below),
    };
    if name.is_empty() || name == "." || name == ".." {
        return Err(Error::from(ErrorKind::InvalidInput));
    }
    Ok((OpenFolder::reach(alloc, root, dir)?, name))
}

/// What the system says of what has a name, be it a link; none where nothing has it.
fn found_at<R: Files>(files: &R, path: &str) -> io::Result<Option<Metadata>> {
    match fs::symlink_metadata(files, path) {
        Ok(found) => Ok(Some(found)),
        Err(error) if error.kind() == ErrorKind::NotFound => Ok(None),
        Err(error) => Err(error),
    }
}

/// What stands in a directory that is open.
fn seen<R: Files>(
    files: &R,
    alloc: Global,
    folder: &OpenFolder,
    most: usize,
) -> io::Result<Sightings> {
    let mut all = Vec::new(alloc);
    let mut room = OpenFolder::room();
    for _ in 0..u64::MAX {
        let count = folder.read_names(&mut room)?;
        if count == 0 {
            return Ok(Sightings::All(all));
        }
        let names = room.get(..count).unwrap_or(&[]);
        put_names(files, alloc, folder, names, &mut all)?;
        if all.len() > most {
            return Ok(Sightings::TooMany);
        }
    }
    Ok(Sightings::TooMany)
}

/// Puts what stands under names, each with a NUL behind it.
fn put_names<R: Files>(
    files: &R,
    alloc: Global,
    folder: &OpenFolder,
    names: &[u8],
    all: &mut Vec<DirectoryEntry, Global>,
) -> io::Result<()> {
    for name in names.split(|octet| *octet == 0) {
        if !is_dots(name) {
            put_finding(files, alloc, folder, name, all)?;
        }
    }
    Ok(())
}

/// Whether a name is of the directory itself, or of the one that it is in, or none.
fn is_dots(name: &[u8]) -> bool {
    matches!(name, [] | [b'.'] | [b'.', b'.'])
}

/// Puts what stands under a name; what went meanwhile is none.
fn put_finding<R: Files>(
    files: &R,
    alloc: Global,
    folder: &OpenFolder,
    name: &[u8],
    all: &mut Vec<DirectoryEntry, Global>,
) -> io::Result<()> {
    let found = match std::str::from_utf8(name) {
        Ok(text) => match found_at(files, folder.path_of(alloc, text)?.as_str())? {
            Some(found) => Some(found),
            None => return Ok(()),
        },
        Err(_) => None,
    };
    let name = Text::copy_of(alloc, name)?;
    all.push(DirectoryEntry { name, found })?;
    Ok(())
}
