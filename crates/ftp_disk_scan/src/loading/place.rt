// Where a path of a tree lies below the folder of a disk.
ghost use Rattle.std.specs.Prelude.{◌≡◌, ◌++◌, IfOk, OnOk, string_bytes};
ghost use Rattle.ftp_path.specs.Path.{joined};
ghost use Rattle.ftp_disk_scan.specs.loading.Place.{IsBelow};

use ftp_path::Path;
use std::alloc::{Allocator, Global};
use std::io;
use std::io::{Error, ErrorKind};

/// Where the path below a root lies: a `/` before each name. No name of a path is `..`, so it is below the folder.
pub fn below_of<B: Allocator + Copy, C: Allocator + Copy>(
    alloc: Global,
    root: &Path<B>,
    path: &Path<C>,
) -> io::Result<String<Global>>
    ensures text { IfOk result (λ below. string_bytes below ≡ joined root.now ++ joined path.now) }
    // Witness of below: equations.
    ensures below { IfOk result (λ below. IsBelow (string_bytes below)) }
{
    let mut below = String::new(alloc);
    push_names(&mut below, root.key())?;
    push_names(&mut below, path.key())?;
    Ok(below)
}

/// Puts names joined at the end of a text. They are UTF-8, as each name is; else it fails.
fn push_names(below: &mut String<Global>, names: &[u8]) -> io::Result<()>
    ensures { OnOk result (string_bytes below.new ≡ string_bytes below.old ++ names.now) }
{
    match std::str::from_utf8(names) {
        Ok(names) => Ok(below.push_str(names)?),
        Err(_) => Err(Error::from(ErrorKind::InvalidFilename)),
    }
}

/// The place of the directory that a place is in: what stands before its last `/`, and nothing where it has none.
pub fn parent_of(below: &str) -> &str {
    match below.rsplit_once('/') {
        Some((above, _)) => above,
        None => "",
    }
}
