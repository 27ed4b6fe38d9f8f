// The note beside the part of a download, as octets come.
use crate::version::{FileVersion, LastChange, Size};
use std::alloc::{AllocError, Global};
use std::io;
use tool_files::{GROWING, LocalFiles, Note, OpenPart, note_of};

/// Of which file the part of a download is, for the note beside it.
pub(crate) struct Noting {
    /// The file of this end.
    file: String<Global>,
    /// The place of the file at its server.
    place: String<Global>,
    /// Whether the note stands that says that the part grows.
    is_growing: bool,
}

/// By hand: a derived drop is proved again, part by part, wherever one is let go.
impl Drop for Noting {
    fn drop(self) {
        let Self {
            file: _,
            place: _,
            is_growing: _,
        } = self;
    }
}

impl Noting {
    /// Of this file of this end, and this place at its server.
    pub(crate) fn new(alloc: Global, file: &str, place: &str) -> Result<Noting, AllocError> {
        Ok(Noting {
            file: String::from_str(alloc, file)?,
            place: String::from_str(alloc, place)?,
            is_growing: false,
        })
    }

    /// The note that stands is of another file.
    pub(crate) fn forget(&mut self) {
        self.is_growing = false;
    }

    /// Writes the note of a part that is to grow, where it does not stand.
    pub(crate) fn begin<R: LocalFiles>(
        &mut self,
        rt: &R,
        alloc: Global,
        part: &OpenPart,
        begun: FileVersion,
    ) -> io::Result<()> {
        if !self.is_growing {
            self.is_growing = self.write(rt, alloc, part, begun, GROWING)?;
        }
        Ok(())
    }

    /// Writes the note of a part that has so many octets, where the server told the size and the moment of the file that they are of, and the moment is
    /// not recent; says whether it did.
    pub(crate) fn write<R: LocalFiles>(
        &self,
        rt: &R,
        alloc: Global,
        part: &OpenPart,
        begun: FileVersion,
        count: u64,
    ) -> io::Result<bool> {
        let FileVersion {
            size: Size::Told(size),
            changed: LastChange::Settled(moment),
        } = begun
        else {
            return Ok(false);
        };
        let note = Note {
            size,
            moment,
            count,
        };
        match &note_of(alloc, note, self.place.as_bytes())? {
            Some(text) => {
                rt.note_part(self.file.as_str(), part, text.as_slice())?;
                Ok(true)
            }
            None => Ok(false),
        }
    }
}
