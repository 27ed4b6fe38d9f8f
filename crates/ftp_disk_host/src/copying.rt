// The fronts of files that parts begin with, copied a piece at a time while octets come.
ghost use Rattle.std.specs.Prelude.{OnOk};
ghost use Rattle.ftp_disk_host.specs.Copied.{Copies};

use crate::front::{PIECE, copy_front};
use crate::host::Look;
use crate::part::SystemPart;
use crate::place::look_of;
use crate::reading::{check_same, open_same};
use std::alloc::Global;
use std::cell::{Cell, RefCell};
use std::fs::{Files, OpenFile, OpenOptions};
use std::io;
use std::io::{Error, ErrorKind, Read, Write};

/// A front of at most so many octets is copied in one call, once all octets came.
pub(crate) const COPIED_AT_ONCE: u64 = 4_194_304;

/// How far the copying of a front is.
#[derive(Clone, Copy, PartialEq, Eq)]
enum Copying {
    /// So many octets are still to be copied.
    Left(u64),
    /// All of them are copied.
    Whole,
    /// The system failed: no more are copied.
    Failed,
}

/// The first octets of the file that looked so, as they are copied to the front of a part.
#[derive(Drop)]
struct Front<F: Drop> {
    /// What the part is called by.
    number: u64,
    /// How the file looked when it was opened.
    look: Look,
    count: u64,
    from: F,
    to: F,
    copying: Copying,
}

impl<F: Read + Write + OpenFile + Drop> Front<F> {
    /// Copies some more octets, and flushes them, so that the last flush of the part is short.
    fn copy_on(&mut self, alloc: Global) -> Copying {
        if let Copying::Left(left) = self.copying {
            let count = left.min(COPIED_AT_ONCE);
            self.copying = match self.copy_some(alloc, count) {
                Ok(()) => left_after(left, count),
                Err(_) => Copying::Failed,
            };
        }
        self.copying
    }

    /// Copies the next octets, `count` of them, and flushes them.
    fn copy_some(&mut self, alloc: Global, count: u64) -> io::Result<()>
        ensures { OnOk result (Copies count (F.remaining self.old.from) (F.remaining self.new.from) (F.contents self.old.to) (F.contents self.new.to)) }
    {
        let mut room = vec![in alloc; 0u8; PIECE]?;
        copy_front(&mut self.from, count, &mut self.to, room.as_mut_slice())?;
        self.to.sync_data()?;
        Ok(())
    }
}

/// How far the copying is once so many octets more are copied.
fn left_after(left: u64, count: u64) -> Copying {
    if count < left {
        Copying::Left(left - count)
    } else {
        Copying::Whole
    }
}

/// Opens a part once more, to be written from its first octet on: that file, and no other that came to its name.
fn opened_again<R: Files>(files: &R, part: &SystemPart<R::File>) -> io::Result<R::File> {
    let mut how = OpenOptions::new();
    how.write(true);
    let file = how.open(files, part.beside()?)?;
    check_same(&file.metadata()?, part.look()?)?;
    Ok(file)
}

/// The fronts that are copied, each by the number of its part.
#[derive(Drop)]
pub(crate) struct Fronts<F: Drop> {
    alloc: Global,
    fronts: RefCell<Vec<Front<F>, Global>>,
    /// The one that was begun last, until that is asked for.
    begun: Cell<Option<u64>>,
}

impl<F: Read + Write + OpenFile + Drop> Fronts<F> {
    /// None is.
    pub(crate) fn new(alloc: Global) -> Fronts<F> {
        Fronts {
            alloc,
            fronts: RefCell::new(Vec::new(alloc)),
            begun: Cell::new(None),
        }
    }

    /// One is to be, from the file at a place that looked so to a part to which nothing came, and which is written after so many octets.
    pub(crate) fn begin<R: Files<File = F>>(
        &self,
        files: &R,
        part: &SystemPart<F>,
        place: &str,
        look: Look,
        count: u64,
    ) -> io::Result<()> {
        let number = part.number;
        let from = open_same(files, place, look)?;
        let look = look_of(&from.metadata()?);
        let to = opened_again(files, part)?;
        let Ok(mut fronts) = self.fronts.try_borrow_mut() else {
            return Err(Error::from(ErrorKind::ResourceBusy));
        };
        fronts.push(Front {
            number,
            look,
            count,
            from,
            to,
            copying: Copying::Left(count),
        })?;
        self.begun.set(Some(number));
        Ok(())
    }

    /// The one that was begun last, once.
    pub(crate) fn begun(&self) -> Option<u64> {
        self.begun.replace(None)
    }

    /// Copies some more of one, and says whether there is more to copy.
    pub(crate) fn copy_on(&self, number: u64) -> bool {
        let Ok(mut fronts) = self.fronts.try_borrow_mut() else {
            return false;
        };
        for front in fronts.iter_mut() {
            if front.number == number {
                return matches!(front.copy_on(self.alloc), Copying::Left(_));
            }
        }
        false
    }

    /// Whether all of one is copied, and has these first octets of the file that looks so, which nobody touched since it was opened.
    pub(crate) fn is_whole(&self, number: u64, look: Look, count: u64) -> bool {
        match self.fronts.try_borrow() {
            Ok(fronts) => fronts.iter().any(|front| {
                front.number == number
                    && front.copying == Copying::Whole
                    && front.count == count
                    && front.look == look
            }),
            Err(_) => false,
        }
    }

    /// It is copied no more.
    pub(crate) fn remove(&self, number: u64) {
        if let Ok(mut fronts) = self.fronts.try_borrow_mut() {
            fronts.retain(|front| front.number != number);
        }
    }
}
