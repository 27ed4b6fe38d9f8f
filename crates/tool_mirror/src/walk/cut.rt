// A download of a mirror, over as many control connections as it takes.
ghost use Rattle.std.specs.Prelude.{◌≡◌};
ghost use Rattle.tool_mirror.specs.Transfer.{limit_to};

use crate::download::{begun, discard, download};
use crate::fault::MirrorFault;
use crate::machine::LocalMachine;
use crate::walk::MirrorWalk;
use std::alloc::{AllocError, Global};
use std::io::Eprint;
use tool_files::LocalFiles;
use tool_listing::ItemFacts;
use tool_resume::{Downloading, limit_held};
use tool_session::ClientSession;

/// A download that the end of a control connection cut off.
pub(crate) struct Cut<'a, R> {
    /// The path of its file below both roots.
    below: String<Global>,
    downloading: Downloading<'a, R>,
    /// Where its file goes, if it goes to one.
    to: Option<String<Global>>,
}

/// By hand: a derived drop is proved again, part by part, wherever one is let go.
impl<'a, R> Drop for Cut<'a, R> {
    fn drop(self) {
        let Self {
            below: _,
            downloading: _,
            to: _,
        } = self;
    }
}

impl<'a, R: LocalFiles + Eprint> Cut<'a, R> {
    /// How many octets came.
    pub(crate) fn count(&self) -> u64 {
        self.downloading.came().count()
    }

    /// Whether it is of the file at this path.
    pub(crate) fn is_of(&self, below: &str) -> bool {
        self.below.as_str() == below
    }

    /// Other control connections begin, over which nothing was asked ahead.
    pub(crate) fn forget_ahead(&mut self) {
        self.downloading.forget_ahead();
    }

    fn into_downloading(self) -> Downloading<'a, R> {
        let Cut {
            below: _,
            downloading,
            to: _,
        } = self;
        downloading
    }
}

/// The most octets of a download that may have so many, and goes to a part or not: what goes to none is held in memory.
fn limit_to(limit: u64, has_part: bool) -> u64
    // Witness: an equation; `edits/what_goes_to_a_part_is_held`.
    ensures { result ≡ limit_to limit has_part }
{
    if has_part { limit } else { limit_held(limit) }
}

/// Copies of a name and of another one, where there is one.
fn copied_names(
    alloc: Global,
    below: &str,
    to: Option<&str>,
) -> Result<(String<Global>, Option<String<Global>>), AllocError> {
    let to = match to {
        Some(name) => Some(String::from_str(alloc, name)?),
        None => None,
    };
    Ok((String::from_str(alloc, below)?, to))
}

impl<'a, R: LocalMachine> MirrorWalk<'a, R> {
    /// Downloads a file, all of it, to its part here, or into memory: behind what came before, where a control connection ended in its middle.
    pub(crate) fn downloaded<S: ClientSession>(
        &mut self,
        slot: &mut S,
        below: &str,
        facts: ItemFacts,
        to: Option<&str>,
    ) -> Result<Downloading<'a, R>, MirrorFault> {
        let mut downloading = match self.cut.take() {
            Some(cut) => cut.into_downloading(),
            None => self.begun(below, facts, to)?,
        };
        let Err(fault) = download(&mut downloading, slot) else {
            return Ok(downloading);
        };
        match fault.of_download(downloading.is_spent()) {
            MirrorFault::Lost => Err(self.cut_off(downloading, below, to)),
            fault => {
                self.discard(&downloading, to);
                Err(fault)
            }
        }
    }

    /// A download that has its turn: the one that was asked ahead, where it goes to the file of its own name, or another one, of which nothing came yet.
    fn begun(
        &mut self,
        below: &str,
        facts: ItemFacts,
        to: Option<&str>,
    ) -> Result<Downloading<'a, R>, MirrorFault> {
        let prepared = match to {
            Some(to) if to == below => self.prefetched.take_download(below),
            _ => None,
        };
        if let Some(downloading) = prepared {
            return Ok(downloading);
        }
        let limit = limit_to(self.mirror.limit, to.is_some());
        begun(self.rt, self.alloc, self.mirror, below, facts, limit, to)
    }

    /// The control connection ended in the middle of a download, which goes on over another one.
    fn cut_off(
        &mut self,
        downloading: Downloading<'a, R>,
        below: &str,
        to: Option<&str>,
    ) -> MirrorFault {
        match copied_names(self.alloc, below, to) {
            Ok((below, to)) => {
                self.cut = Some(Cut {
                    below,
                    downloading,
                    to,
                });
                MirrorFault::Lost
            }
            Err(AllocError) => {
                self.discard(&downloading, to);
                MirrorFault::Memory
            }
        }
    }

    /// Removes the part of a download, where it has one.
    fn discard(&self, downloading: &Downloading<'a, R>, to: Option<&str>) {
        if let Some(to) = to {
            discard(self.rt, self.mirror, to, downloading);
        }
    }

    /// Removes the parts of what was cut off, or asked ahead, where nothing goes on any more.
    pub(crate) fn give_up(&mut self) {
        self.prefetched.discard(self.rt, self.mirror);
        if let Some(cut) = self.cut.take() {
            if let Some(to) = &cut.to {
                discard(self.rt, self.mirror, to.as_str(), &cut.downloading);
            }
        }
    }
}
