// Files that are asked ahead of their turn: downloads, each with the part of its file here to which it goes as it comes, and uploads.
use crate::download::{begun, discard};
use crate::fault::MirrorFault;
use crate::machine::LocalMachine;
use crate::request::MirrorRequest;
use crate::upload::foresee_drawn;
use std::alloc::Global;
use tool_listing::ItemFacts;
use tool_resume::Downloading;
use tool_session::{ClientSession, Ticket};

/// A download that was asked ahead, perhaps over control connections that are gone.
struct PrefetchedDownload<'a, R> {
    below: String<Global>,
    downloading: Downloading<'a, R>,
}

/// By hand: a derived drop is proved again, part by part, wherever one is let go.
impl<'a, R> Drop for PrefetchedDownload<'a, R> {
    fn drop(self) {
        let Self {
            below: _,
            downloading: _,
        } = self;
    }
}

impl<'a, R> PrefetchedDownload<'a, R> {
    fn into_downloading(self) -> Downloading<'a, R> {
        let PrefetchedDownload {
            below: _,
            downloading,
        } = self;
        downloading
    }
}

/// An upload that was asked ahead, and by which ticket it is answered.
struct PrefetchedUpload {
    below: String<Global>,
    ticket: Ticket,
}

/// By hand, as above.
impl Drop for PrefetchedUpload {
    fn drop(self) {
        let Self {
            below: _,
            ticket: _,
        } = self;
    }
}

/// Those that are asked ahead, and did not have their turn yet.
pub(crate) struct Prefetched<'a, R> {
    downloads: Vec<PrefetchedDownload<'a, R>, Global>,
    uploads: Vec<PrefetchedUpload, Global>,
}

/// By hand, as above.
impl<'a, R> Drop for Prefetched<'a, R> {
    fn drop(self) {
        let Self {
            downloads: _,
            uploads: _,
        } = self;
    }
}

impl<'a, R: LocalMachine> Prefetched<'a, R> {
    /// None.
    pub(crate) fn new(alloc: Global) -> Prefetched<'a, R> {
        Prefetched {
            downloads: Vec::new(alloc),
            uploads: Vec::new(alloc),
        }
    }

    /// Asks a file ahead that is fetched, where a control connection is free for that.
    pub(crate) fn ask_download<S: ClientSession>(
        &mut self,
        (rt, alloc): (&'a R, Global),
        slot: &mut S,
        mirror: &MirrorRequest<'a>,
        (below, facts): (&str, ItemFacts),
    ) -> Result<(), MirrorFault> {
        if let Some(place) = self.place_of(below) {
            if let Some(prefetched) = self.downloads.get_mut(place) {
                prefetched.downloading.foresee(slot);
            }
            return Ok(());
        }
        let name = String::from_str(alloc, below)?;
        let mut downloading = begun(rt, alloc, mirror, below, facts, mirror.limit, Some(below))?;
        downloading.foresee(slot);
        let prefetched = PrefetchedDownload {
            below: name,
            downloading,
        };
        match self.downloads.push(prefetched) {
            Ok(()) => Ok(()),
            Err(_) => Err(MirrorFault::Memory),
        }
    }

    /// Asks a file ahead that is sent, where a control connection is free for that.
    pub(crate) fn ask_upload<S: ClientSession>(
        &mut self,
        (rt, alloc): (&'a R, Global),
        slot: &mut S,
        mirror: &MirrorRequest<'_>,
        below: &str,
    ) -> Result<(), MirrorFault> {
        let name = String::from_str(alloc, below)?;
        let Some(ticket) = foresee_drawn(rt, alloc, slot, mirror, below)? else {
            return Ok(());
        };
        let prefetched = PrefetchedUpload {
            below: name,
            ticket,
        };
        match self.uploads.push(prefetched) {
            Ok(()) => Ok(()),
            Err(_) => Err(MirrorFault::Memory),
        }
    }

    /// By which ticket the upload of a file is answered that has its turn now, where it was asked ahead.
    pub(crate) fn take_upload(&mut self, below: &str) -> Option<Ticket> {
        let place = self
            .uploads
            .iter()
            .position(|prefetched| prefetched.below.as_str() == below)?;
        if place >= self.uploads.len() {
            return None;
        }
        let prefetched = self.uploads.remove(place);
        Some(prefetched.ticket)
    }

    fn place_of(&self, below: &str) -> Option<usize> {
        self.downloads
            .iter()
            .position(|prefetched| prefetched.below.as_str() == below)
    }

    /// The download of a file that has its turn now, where it was asked ahead.
    pub(crate) fn take_download(&mut self, below: &str) -> Option<Downloading<'a, R>> {
        let place = self.place_of(below)?;
        if place >= self.downloads.len() {
            return None;
        }
        Some(self.downloads.remove(place).into_downloading())
    }

    /// Other control connections begin, over which nothing was asked ahead.
    pub(crate) fn forget(&mut self) {
        for prefetched in self.downloads.iter_mut() {
            prefetched.downloading.forget_ahead();
        }
        self.uploads.clear();
    }

    /// Removes the parts of those that had no turn.
    pub(crate) fn discard(&self, rt: &R, mirror: &MirrorRequest<'_>) {
        for prefetched in self.downloads.iter() {
            discard(
                rt,
                mirror,
                prefetched.below.as_str(),
                &prefetched.downloading,
            );
        }
    }
}
