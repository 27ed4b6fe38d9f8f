// What is asked of a host at a path, and which directories are listed anew after it.
ghost use Rattle.std.specs.Prelude.{◌≡◌, OnErr, OnOk};
ghost use Rattle.ftp_disk_tree.specs.Asked.{asked, asked_move, place_of};
ghost use Rattle.ftp_disk_tree.specs.declared.answer.Answer.{Answer};

use crate::names::{delete_noted, make_noted, remove_noted, rename_noted, rename_onto_noted};
use crate::putting::Old;
use crate::record::Record;
use ftp_disk_host::{Host, Look};
use ftp_disk_scan::{Dirs, below_of, parent_of};
use ftp_path::Path;
use std::alloc::Allocator;
use std::io;

/// Opens the file at a path that looked so.
pub(crate) fn open_at<H: Host, B: Allocator + Copy, C: Allocator + Copy>(
    host: &H,
    root: &Path<B>,
    path: &Path<C>,
    look: Look,
) -> io::Result<H::File> {
    let below = below_of(host.memory(), root, path)?;
    host.open(below.as_str(), look)
}

/// Begins a file that is written beside a path, after the front that is kept of the file there, if one is.
pub(crate) fn begin_at<H: Host, B: Allocator + Copy, C: Allocator + Copy>(
    host: &H,
    root: &Path<B>,
    path: &Path<C>,
    old: Option<Old>,
) -> io::Result<H::Part> {
    let below = below_of(host.memory(), root, path)?;
    match old {
        Some(old) => host.begin_after(below.as_str(), old.look, old.front.count),
        None => host.begin(below.as_str()),
    }
}

/// Makes a directory.
pub(crate) fn make_at<H: Host, B: Allocator + Copy, C: Allocator + Copy>(
    host: &H,
    dirs: &mut Dirs,
    names: &mut Record,
    root: &Path<B>,
    path: &Path<C>,
) -> io::Result<()>
    ensures asked { OnOk result (names.new.events ≡ asked Answer.Made (place_of root.now path.now) names.old.events) }
    ensures unasked { OnErr result (names.new.events ≡ names.old.events) }
{
    let below = below_of(host.memory(), root, path)?;
    make_noted(host, names, below.as_str())?;
    dirs.changed(parent_of(below.as_str()).as_bytes());
    Ok(())
}

/// Removes an empty directory.
pub(crate) fn remove_at<H: Host, B: Allocator + Copy, C: Allocator + Copy>(
    host: &H,
    dirs: &mut Dirs,
    names: &mut Record,
    root: &Path<B>,
    path: &Path<C>,
) -> io::Result<()>
    ensures asked { OnOk result (names.new.events ≡ asked Answer.Emptied (place_of root.now path.now) names.old.events) }
    ensures unasked { OnErr result (names.new.events ≡ names.old.events) }
{
    let below = below_of(host.memory(), root, path)?;
    remove_noted(host, names, below.as_str())?;
    dirs.forget_one(below.as_bytes());
    dirs.changed(parent_of(below.as_str()).as_bytes());
    Ok(())
}

/// Removes a file.
pub(crate) fn delete_at<H: Host, B: Allocator + Copy, C: Allocator + Copy>(
    host: &H,
    dirs: &mut Dirs,
    names: &mut Record,
    root: &Path<B>,
    path: &Path<C>,
) -> io::Result<()>
    ensures asked { OnOk result (names.new.events ≡ asked Answer.Removed (place_of root.now path.now) names.old.events) }
    ensures unasked { OnErr result (names.new.events ≡ names.old.events) }
{
    let below = below_of(host.memory(), root, path)?;
    delete_noted(host, names, below.as_str())?;
    dirs.changed(parent_of(below.as_str()).as_bytes());
    Ok(())
}

/// Moves what stands at a path to one where nothing stands.
pub(crate) fn rename_at<H: Host, B: Allocator + Copy, C: Allocator + Copy, D: Allocator + Copy>(
    host: &H,
    dirs: &mut Dirs,
    names: &mut Record,
    root: &Path<B>,
    from: &Path<C>,
    to: &Path<D>,
) -> io::Result<()>
    ensures asked { OnOk result (names.new.events ≡ asked_move Answer.Came (place_of root.now from.now) (place_of root.now to.now) names.old.events) }
    ensures unasked { OnErr result (names.new.events ≡ names.old.events) }
{
    let old = below_of(host.memory(), root, from)?;
    let new = below_of(host.memory(), root, to)?;
    rename_noted(host, names, old.as_str(), new.as_str())?;
    dirs.forget(old.as_bytes());
    both_changed(dirs, old.as_str(), new.as_str());
    Ok(())
}

/// Moves a file into the place of another.
pub(crate) fn rename_onto_at<
    H: Host,
    B: Allocator + Copy,
    C: Allocator + Copy,
    D: Allocator + Copy,
>(
    host: &H,
    dirs: &mut Dirs,
    names: &mut Record,
    root: &Path<B>,
    from: &Path<C>,
    to: &Path<D>,
) -> io::Result<()>
    ensures asked { OnOk result (names.new.events ≡ asked_move Answer.CameOver (place_of root.now from.now) (place_of root.now to.now) names.old.events) }
    ensures unasked { OnErr result (names.new.events ≡ names.old.events) }
{
    let old = below_of(host.memory(), root, from)?;
    let new = below_of(host.memory(), root, to)?;
    rename_onto_noted(host, names, old.as_str(), new.as_str())?;
    both_changed(dirs, old.as_str(), new.as_str());
    Ok(())
}

/// A name was changed in each of the directories that two places are in.
fn both_changed(dirs: &mut Dirs, old: &str, new: &str) {
    dirs.changed(parent_of(old).as_bytes());
    dirs.changed(parent_of(new).as_bytes());
}
