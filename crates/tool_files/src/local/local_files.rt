// The files of this end as one trait without types of its own: what stands on it is proved for less than on the system's, which has two types and
// their bounds.
use crate::local::change::{Change, changed};
use crate::local::content::{LimitedContent, read_from};
use crate::local::kept::{PartBeside, kept_beside};
use crate::local::open_part::OpenPart;
use crate::local::open_source::{OpenSource, open_source};
use crate::local::part::{
    begin_at, begin_part, discard_at, discard_part, finish_at, finish_part, note_part, own_name,
    write_at, write_over,
};
use crate::local::writing::Flush;
use ftp_facts::{Moment, Text};
use std::alloc::Global;
use std::fs::{File, Files};
use std::io;
use std::time::Clock;

/// Who has files.
pub trait LocalFiles {
    /// The moment of a file that is changed just now, in seconds from the beginning of 1970, by this machine's clock; 0 where it has none.
    fn present(&self) -> u64;

    /// The octets of a file from one of them on, where it has `limit` octets at most.
    fn read_from(&self, file: &str, from: u64, limit: u64) -> io::Result<LimitedContent>;

    /// Writes the octets of a file: beside its name, to where links lead, and moved over it; into what is no file, as it stands. It keeps the permissions
    /// of the file that it replaces; its last change was at the moment, where there is one.
    fn write_over(
        &self,
        file: &str,
        pieces: &[Text<Global>],
        moment: Option<Moment>,
        flush: Flush,
    ) -> io::Result<()>;

    /// Writes the octets of a file beside this very name, and moves it over what has the name, which may be a link: none is followed. It keeps the
    /// permissions of a file that it replaces; its last change was at the moment, where there is one.
    fn write_at(
        &self,
        name: &str,
        pieces: &[Text<Global>],
        moment: Option<Moment>,
        flush: Flush,
    ) -> io::Result<()>;

    /// A file, open at one of its octets; none where that is no file of a known size, as a pipe or what the system makes up.
    fn open_source(&self, file: &str, from: u64) -> io::Result<Option<OpenSource>>;

    /// Makes the part of a file beside its name, by the first name that is free, and of a number that is not `passed` over; `is_noted`: it may be kept, and
    /// the name of its note is free too. None where octets go into what is no file, as it stands.
    fn begin_part(
        &self,
        file: &str,
        is_noted: bool,
        passed: &[u32],
    ) -> io::Result<Option<OpenPart>>;

    /// Moves a part that has so many octets over its file, with the permissions of that; its last change was at the moment, where there is one; its note
    /// goes. Where that fails, as where the part has another length, or its name does not lead to it any more, it stands, and the file is as it was.
    fn finish_part(
        &self,
        file: &str,
        part: &OpenPart,
        count: u64,
        moment: Option<Moment>,
        flush: Flush,
    ) -> io::Result<()>;

    /// Removes a part, where its name leads to it, and its note, which goes first.
    fn discard_part(&self, file: &str, part: &OpenPart) -> io::Result<()>;

    /// Makes the part of a file beside this very name: no link is followed.
    fn begin_at(&self, name: &str) -> io::Result<OpenPart>;

    /// Moves a part that has so many octets over what has this very name, be it a link; its last change was at the moment, where there is one. Where that
    /// fails, as where the part has another length, or its own name does not lead to it any more, it stands, and what has the name stays.
    fn finish_at(
        &self,
        name: &str,
        part: &OpenPart,
        count: u64,
        moment: Option<Moment>,
        flush: Flush,
    ) -> io::Result<()>;

    /// Removes a part beside this very name, where its own name leads to it.
    fn discard_at(&self, name: &str, part: &OpenPart) -> io::Result<()>;

    /// Writes the note of a part, and flushes it, in the place of the one that it had. Fails where the part's name does not lead to it.
    fn note_part(&self, file: &str, part: &OpenPart, note: &[u8]) -> io::Result<()>;

    /// What a part of a file is called; fails where that name does not lead to it.
    fn name_of_part(&self, file: &str, part: &OpenPart) -> io::Result<String<Global>>;

    /// The first part beside a file that is what its note says, of the file at this place of a server, that has one name, and that no other
    /// process has open.
    fn kept_beside(&self, file: &str, place: &[u8]) -> io::Result<PartBeside>;

    /// Changes what stands at a place, beside the octets of files.
    fn change(&self, change: Change, place: &str) -> io::Result<()>;
}

impl<R: Files<File = File> + Clock + AllocGlobal> LocalFiles for R {
    fn present(&self) -> u64 {
        match self.since_1970() {
            Ok(since) => since.as_secs(),
            Err(_) => 0,
        }
    }

    fn read_from(&self, file: &str, from: u64, limit: u64) -> io::Result<LimitedContent> {
        read_from(self, file, from, limit)
    }

    fn write_over(
        &self,
        file: &str,
        pieces: &[Text<Global>],
        moment: Option<Moment>,
        flush: Flush,
    ) -> io::Result<()> {
        write_over(self, self.alloc(), file, pieces, moment, flush)
    }

    fn write_at(
        &self,
        name: &str,
        pieces: &[Text<Global>],
        moment: Option<Moment>,
        flush: Flush,
    ) -> io::Result<()> {
        write_at(self, self.alloc(), name, pieces, moment, flush)
    }

    fn open_source(&self, file: &str, from: u64) -> io::Result<Option<OpenSource>> {
        open_source(self, file, from)
    }

    fn begin_part(
        &self,
        file: &str,
        is_noted: bool,
        passed: &[u32],
    ) -> io::Result<Option<OpenPart>> {
        begin_part(self, self.alloc(), file, is_noted, passed)
    }

    fn finish_part(
        &self,
        file: &str,
        part: &OpenPart,
        count: u64,
        moment: Option<Moment>,
        flush: Flush,
    ) -> io::Result<()> {
        finish_part(self, self.alloc(), file, part, count, moment, flush)
    }

    fn discard_part(&self, file: &str, part: &OpenPart) -> io::Result<()> {
        discard_part(self, self.alloc(), file, part)
    }

    fn begin_at(&self, name: &str) -> io::Result<OpenPart> {
        begin_at(self, name)
    }

    fn finish_at(
        &self,
        name: &str,
        part: &OpenPart,
        count: u64,
        moment: Option<Moment>,
        flush: Flush,
    ) -> io::Result<()> {
        finish_at(self, self.alloc(), name, part, count, moment, flush)
    }

    fn discard_at(&self, name: &str, part: &OpenPart) -> io::Result<()> {
        discard_at(self, self.alloc(), name, part)
    }

    fn note_part(&self, file: &str, part: &OpenPart, note: &[u8]) -> io::Result<()> {
        note_part(self, self.alloc(), file, part, note)
    }

    fn name_of_part(&self, file: &str, part: &OpenPart) -> io::Result<String<Global>> {
        own_name(self, self.alloc(), file, part)
    }

    fn kept_beside(&self, file: &str, place: &[u8]) -> io::Result<PartBeside> {
        kept_beside(self, self.alloc(), file, place)
    }

    fn change(&self, change: Change, place: &str) -> io::Result<()> {
        changed(self, change, place)
    }
}
