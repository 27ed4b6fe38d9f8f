// How the folder is opened, and what is told of it and of the accounts before anybody is served.
use crate::log_line::ServerNotice;
use crate::serving::Serving;
use ftp_disk_host::Host;
use ftp_disk_tree::{DiskTree, LeftOut, LoadFault, Reason, Unknown, Unserved, open};
use ftp_path::{Path, TEXT_LIMIT};
use ftp_tree::{Limits, NodeKind, Tree, TreeFault};
use std::alloc::Global;
use std::fmt::{Display, Formatter};
use std::fs::Files;
use std::time::Clock;
use std::{fmt, fs};
use tool_log::{LogLines, Placed, QuotedName};

/// The tree of the folder that a host has. Where what can't be served is left out, that is told.
pub(crate) fn opened<'a, R, H>(
    rt: &R,
    host: &'a H,
    job: &Serving<'_>,
    roots: &[Path<Global>],
    lines: &LogLines,
) -> Result<DiskTree<'a, H, Unknown>, LoadFault>
where
    R: Files + Clock,
    H: Host,
{
    let unserved = if is_folder(rt, job.dir) {
        job.unserved
    } else {
        Unserved::Refuse
    };
    let (tree, left) = open(host, roots, job.limits, unserved, job.others)?;
    tell_left(rt, job, &left, lines);
    Ok(tree)
}

/// The text of a folder: an empty one is the current one.
pub(crate) fn dir_text(dir: &str) -> &str {
    if dir.is_empty() { "." } else { dir }
}

/// Whether a folder is there.
pub(crate) fn is_folder<R: Files>(rt: &R, dir: &str) -> bool {
    fs::metadata(rt, dir_text(dir)).is_ok_and(|found| found.is_dir())
}

/// Tells what of the folder is not served.
fn tell_left<R: Clock>(rt: &R, job: &Serving<'_>, left: &LeftOut, lines: &LogLines) {
    if let Some(first) = &left.first {
        let count = left.count;
        let first = RefusedFolder::of(job, first);
        lines.tell(rt, &NotServed { count, first });
    }
}

/// Tells where nobody can log in by a file of accounts, or not by one of them, since it has none, or the directory of its root is missing.
pub(crate) fn tell_roots<R: Clock + AllocGlobal, T: Tree<Global>>(
    rt: &R,
    tree: &T,
    file: Option<&str>,
    roots: &[Path<Global>],
    lines: &LogLines,
) {
    if file.is_none() {
        return;
    }
    if roots.is_empty() {
        lines.tell(
            rt,
            &ServerNotice("note: accounts: ", &"none is said, so nobody can log in"),
        );
    }
    let top = Path::root(rt.alloc());
    for root in roots.iter() {
        if tree.kind(&top, root) != Some(NodeKind::Dir) {
            lines.tell(rt, &NoRoot(root.text()));
        }
    }
}

/// Why something can't be served: its place, and the reason; a limit with its number.
#[derive(Clone, Copy)]
pub(crate) struct RefusedFolder<'a> {
    dir: &'a str,
    limits: Limits,
    fault: &'a LoadFault,
}

impl<'a> RefusedFolder<'a> {
    /// Why something of a folder that is to be served can't be.
    pub(crate) fn of(job: &Serving<'a>, fault: &'a LoadFault) -> RefusedFolder<'a> {
        RefusedFolder {
            dir: dir_text(job.dir),
            limits: job.limits,
            fault,
        }
    }
}

impl<'a> Display for RefusedFolder<'a> {
    fn fmt<W: fmt::Write>(&self, formatter: &mut Formatter<W>) -> fmt::Result {
        let LoadFault::Refused { place, why } = self.fault else {
            return write!(formatter, "{}", self.fault);
        };
        let place = Placed {
            dir: self.dir,
            below: place.as_slice(),
        };
        write!(formatter, "{place}: ")?;
        let Limits { file, total, nodes } = self.limits;
        match why {
            Reason::Tree(TreeFault::TooBig) => write!(
                formatter,
                "past a limit: a file has {} octets, a name at most 255, and a path {}",
                Most(file),
                TEXT_LIMIT
            ),
            Reason::Tree(TreeFault::Full) => write!(
                formatter,
                "past a limit: below one root {} files and directories are served, and files of {} octets together",
                Most(nodes),
                Most(total)
            ),
            other => write!(formatter, "{other}"),
        }
    }
}

/// A limit, in front of what it counts.
#[derive(Clone, Copy)]
struct Most(u64);

impl Display for Most {
    fn fmt<W: fmt::Write>(&self, formatter: &mut Formatter<W>) -> fmt::Result {
        match self.0 {
            u64::MAX => write!(formatter, "any number of"),
            most => write!(formatter, "at most {most}"),
        }
    }
}

/// What of the folder is not served: how many entries, and why the first.
#[derive(Clone, Copy)]
struct NotServed<'a> {
    count: u64,
    first: RefusedFolder<'a>,
}

impl<'a> Display for NotServed<'a> {
    fn fmt<W: fmt::Write>(&self, formatter: &mut Formatter<W>) -> fmt::Result {
        let NotServed { count, first } = self;
        write!(
            formatter,
            "note: {count} of the folder's entries are not served; the first is {first}"
        )
    }
}

/// A root of accounts at which no directory stands.
#[derive(Clone, Copy)]
struct NoRoot<'a>(&'a [u8]);

impl<'a> Display for NoRoot<'a> {
    fn fmt<W: fmt::Write>(&self, formatter: &mut Formatter<W>) -> fmt::Result {
        write!(
            formatter,
            "note: accounts: no directory is at {}: who has this root can't log in",
            QuotedName(self.0)
        )
    }
}
