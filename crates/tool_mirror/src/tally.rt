// What was done so far.
ghost use Rattle.std.specs.Prelude.{◌≡◌};
ghost use Rattle.tool_mirror.specs.Tally.{with_change, with_failed, with_file, no_totals};

use itoa::Buffer;
use std::fmt;
use std::fmt::{Display, Formatter};
use tool_files::Change;

/// What was done so far; no count goes past the greatest `u64`.
#[derive(Clone, Copy)]
pub(crate) struct MirrorTotals {
    pub(crate) files: u64,
    pub(crate) dirs: u64,
    pub(crate) removed: u64,
    pub(crate) failed: u64,
    pub(crate) octets: u64,
}

impl MirrorTotals {
    /// Nothing yet.
    pub(crate) fn new() -> MirrorTotals
        // Witness: an equation.
        ensures { result ≡ no_totals }
    {
        MirrorTotals {
            files: 0,
            dirs: 0,
            removed: 0,
            failed: 0,
            octets: 0,
        }
    }

    /// A file of so many octets was copied.
    pub(crate) fn add_file(&mut self, octets: u64)
        // Witness: an equation; `edits/a_copy_counts_as_many_files_as_octets`.
        ensures { self.new ≡ with_file self.old octets }
    {
        self.files = self.files.saturating_add(1);
        self.octets = self.octets.saturating_add(octets);
    }

    /// The target was changed so.
    pub(crate) fn add_change(&mut self, change: Change)
        // Witness: an equation; `edits/a_removal_counts_as_a_directory_made`.
        ensures { self.new ≡ with_change self.old change }
    {
        match change {
            Change::MakeDir => self.dirs = self.dirs.saturating_add(1),
            Change::RemoveFile | Change::RemoveDir => self.removed = self.removed.saturating_add(1),
        }
    }

    /// Something was not done.
    pub(crate) fn add_failed(&mut self)
        // Witness: an equation; `edits/a_failure_is_not_counted`.
        ensures { self.new ≡ with_failed self.old }
    {
        self.failed = self.failed.saturating_add(1);
    }
}

/// `12 files copied, 3 directories made, 1 removed, 0 failed; 48,211 octets`.
impl Display for MirrorTotals {
    fn fmt<W: fmt::Write>(&self, formatter: &mut Formatter<W>) -> fmt::Result {
        write!(
            formatter,
            "{} files copied, {} directories made, ",
            self.files, self.dirs
        )?;
        write!(
            formatter,
            "{} removed, {} failed; ",
            self.removed, self.failed
        )?;
        write_grouped(self.octets, formatter)
    }
}

/// How far a mirror is, where so many things wait.
#[derive(Clone, Copy)]
pub(crate) struct Progress {
    pub(crate) tally: MirrorTotals,
    pub(crate) left: usize,
}

impl Display for Progress {
    fn fmt<W: fmt::Write>(&self, formatter: &mut Formatter<W>) -> fmt::Result {
        write!(
            formatter,
            "{}; {} more to do in sight",
            self.tally, self.left
        )
    }
}

/// Writes how many octets there are, with a comma before each three digits.
fn write_grouped<W: fmt::Write>(number: u64, formatter: &mut Formatter<W>) -> fmt::Result {
    let mut buffer = Buffer::new();
    let digits = buffer.format(number);
    for (place, digit) in digits.chars().enumerate() {
        let behind = digits.len().saturating_sub(place);
        if place > 0 && behind % 3 == 0 {
            formatter.write_char(',')?;
        }
        formatter.write_char(digit)?;
    }
    formatter.write_str(" octets")
}
