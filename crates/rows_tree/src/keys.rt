// Paths beside each other: their keys, their order, what is below which, and where a path is moved.
use ftp_path::Path;
use ftp_path::key::{is_within, name_in, order};
use ftp_tree::TreeFault;
use rows_base::Paper;
use std::alloc::Allocator;
use std::cmp::Ordering;

/// The key of a path and that of its parent.
pub fn show_keys<A: Allocator + Copy>(path: &Path<A>, paper: &mut Paper) {
    paper.quote(path.key());
    paper.put(b" ");
    paper.quote(path.parent_key());
}

/// How a path compares with another.
pub fn show_order<A: Allocator + Copy>(path: &Path<A>, other: &Path<A>, paper: &mut Paper) {
    paper.put(match order(path.key(), other.key()) {
        Ordering::Less => b"before".as_slice(),
        Ordering::Equal => b"equal",
        Ordering::Greater => b"behind",
    });
}

/// Whether the second path is the first or below it, and what the first calls it.
pub fn show_below<A: Allocator + Copy>(above: &Path<A>, path: &Path<A>, paper: &mut Paper) {
    let is_below = is_within(above.key(), path.key());
    paper.put(if is_below { b"yes ".as_slice() } else { b"no " });
    put_called(above, path, paper);
}

fn put_called<A: Allocator + Copy>(above: &Path<A>, path: &Path<A>, paper: &mut Paper) {
    match name_in(above.key(), path.key()) {
        Some(name) => paper.quote(name.octets()),
        None => paper.put(b"no name"),
    }
}

/// Where a path leads once what stands at `from` is called `to`.
pub fn show_moved<A: Allocator + Copy>(
    alloc: A,
    path: &Path<A>,
    from: &Path<A>,
    to: &Path<A>,
    paper: &mut Paper,
) -> Result<(), TreeFault> {
    if !is_within(from.key(), path.key()) {
        paper.put(b"stays");
        return Ok(());
    }
    if !path.fits_moved(from, to) {
        return Err(TreeFault::TooBig);
    }
    let Ok(led) = path.moved(alloc, from, to) else {
        return Err(TreeFault::Memory);
    };
    paper.quote(led.text());
    Ok(())
}
