// How a file is called while it is written, and what becomes of it where that was interrupted. No client can say such a name.
ghost use Rattle.std.specs.Prelude.{◌≡◌, ◌++◌, IfOk, codes, string_bytes, true};
ghost use Rattle.ftp_disk_host.specs.Left.{is_left_name, numbered};

use crate::place::{above, check_free};
use itoa::Buffer;
use std::alloc::{AllocError, Global};
use std::fs::Files;
use std::io::{Error, ErrorKind};
use std::os::unix::fs::MetadataExt;
use std::{fs, io};

/// What the name of a part begins with.
const WRITING: &str = ".ftp-writing";

/// What the name of a part begins with that an interrupted write left, once it is kept.
const LEFT: &str = "ftp-left-";

/// The octet that ends both: it is of no name of a tree.
const DELETE: &str = "\x7f";

/// The most parts that interrupted writes left in one directory and that are kept.
const LEFT_LIMIT: u64 = 10_000;

/// Whether a name is that of a part, or of one that was kept.
pub(crate) fn is_left(name: &[u8]) -> bool
    ensures { result ≡ is_left_name name.now }
{
    name.ends_with(DELETE.as_bytes())
        && (name.starts_with(WRITING.as_bytes()) || name.starts_with(LEFT.as_bytes()))
}

/// The place of the part of this number in a directory.
pub(crate) fn part_in(alloc: Global, dir: &str, number: u64) -> Result<String<Global>, AllocError>
    ensures name { IfOk result (λ place. string_bytes place ≡ dir.now ++ codes "/" ++ numbered (codes ".ftp-writing-") number) }
    ensures left { is_left_name (numbered (codes ".ftp-writing-") number) ≡ true }
{
    numbered_in(alloc, dir, ".ftp-writing-", number)
}

/// The place in a directory of a name that ends in a number and the octet.
fn numbered_in(
    alloc: Global,
    dir: &str,
    name: &str,
    number: u64,
) -> Result<String<Global>, AllocError>
    ensures { IfOk result (λ place. string_bytes place ≡ dir.now ++ codes "/" ++ numbered name.now number) }
{
    let mut place: String<Global> = String::from_str(alloc, dir)?;
    place.push_str("/")?;
    place.push_str(name)?;
    place.push_str(Buffer::new().format(number))?;
    place.push_str(DELETE)?;
    Ok(place)
}

/// Keeps the part at a place that an interrupted write left, under the first name that is free; one that has no octet is removed, and so is one whose
/// file has its own name already.
pub(crate) fn leave_at<R: Files>(
    files: &R,
    alloc: Global,
    place: &str,
    len: u64,
) -> io::Result<()> {
    if len == 0 {
        return fs::remove_file(files, place);
    }
    if !is_part(place) {
        return Ok(());
    }
    if fs::symlink_metadata(files, place)?.nlink() > 1 {
        return fs::remove_file(files, place);
    }
    for number in 1..LEFT_LIMIT {
        let free = numbered_in(alloc, above(place), LEFT, number)?;
        if check_free(files, free.as_str()).is_ok() {
            return fs::rename(files, place, free.as_str());
        }
    }
    Err(Error::from(ErrorKind::AlreadyExists))
}

/// Whether a place has the name of a part.
fn is_part(place: &str) -> bool {
    match place.rsplit_once('/') {
        Some((_, name)) => name.starts_with(WRITING),
        None => false,
    }
}
