// Several files of a command line over several control connections at once: those that are asked of one server, one directly behind another.
use crate::programs::Programs;
use std::alloc::Global;
use std::io;
use tool_get_put::{Each, FilePair};
use tool_job::Target;
use tool_terminal::Status;

/// Files that are asked of one server by one user, and what is done with each.
pub(crate) struct Batch<'a> {
    each: Each<'a>,
    /// What is asked, but for the path of a file; none while there are no files.
    asked: Option<Target<'a>>,
    pairs: Vec<FilePair, Global>,
}

/// By hand: a derived drop is proved again, part by part, wherever one is let go.
impl<'a> Drop for Batch<'a> {
    fn drop(self) {
        let Self {
            each: _,
            asked: _,
            pairs: _,
        } = self;
    }
}

impl<'a> Batch<'a> {
    /// None yet.
    pub(crate) fn new(alloc: Global, each: Each<'a>) -> Batch<'a> {
        Batch {
            each,
            asked: None,
            pairs: Vec::new(alloc),
        }
    }

    /// A further file. Those before are done first where it is asked of another server, or by another user; gives the worst status of what was done.
    pub(crate) fn put<R: Programs>(
        &mut self,
        rt: &R,
        asked: Target<'a>,
        pair: FilePair,
    ) -> io::Result<Status> {
        let is_other = match &self.asked {
            Some(before) => !is_same(before, &asked),
            None => false,
        };
        let status = if is_other {
            self.done(rt)?
        } else {
            Status::Done
        };
        self.asked = Some(asked);
        self.pairs.push(pair)?;
        Ok(status)
    }

    /// Does what it has, over no more control connections than there are files, or two, and gives the worst status.
    pub(crate) fn done<R: Programs>(&mut self, rt: &R) -> io::Result<Status> {
        let Some(asked) = self.asked.take() else {
            return Ok(Status::Done);
        };
        let count = u32::try_from(self.pairs.len()).unwrap_or(u32::MAX);
        let asked = Target {
            at_once: asked.at_once.min(count.max(2)),
            ..asked
        };
        let status = rt.fetch_each(&asked, self.each, self.pairs.as_slice())?;
        self.pairs.clear();
        Ok(status)
    }
}

/// Whether the same server is asked by the same user.
fn is_same(one: &Target<'_>, other: &Target<'_>) -> bool {
    let is_named = is_text(one.user.name, other.user.name);
    let has_password = is_text(one.user.password, other.user.password);
    let is_there = one.place.port == other.place.port && one.place.host == other.place.host;
    is_there && is_named && has_password
}

/// Whether both are the same text, or none.
fn is_text(one: Option<&str>, other: Option<&str>) -> bool {
    match (one, other) {
        (Some(one), Some(other)) => one == other,
        (None, None) => true,
        _ => false,
    }
}
