// Lines of texts and of paths.
use crate::keys::{show_below, show_keys, show_moved, show_order};
use crate::step::{TreeLine, TreeStep};
use ftp_operation::is_number;
use ftp_path::{Name, Path, is_listed_text, is_path_text};
use ftp_tree::TreeFault;
use rows_base::{Paper, number};
use std::alloc::Allocator;

/// A path from another by a text.
pub fn from<A: Allocator + Copy>(
    here: &Path<A>,
    alloc: A,
    text: &[u8],
) -> Result<Path<A>, TreeFault> {
    Ok(here.resolve(alloc, text)?)
}

/// A path from the root.
pub fn place<A: Allocator + Copy>(alloc: A, text: &[u8]) -> Result<Path<A>, TreeFault> {
    from(&Path::root(alloc), alloc, text)
}

/// Whether octets are what a line asks for.
pub fn show_text(line: &TreeLine<'_>, paper: &mut Paper) {
    let is_so = match line.step {
        TreeStep::Text => is_path_text(line.first),
        TreeStep::Listed => is_listed_text(line.first),
        TreeStep::Name => Name::new(line.first).is_some(),
        _ => is_number(number(line.first)),
    };
    paper.put(if is_so { b"yes".as_slice() } else { b"no" });
}

/// A line of one path and another text.
pub fn show_path<A: Allocator + Copy>(
    alloc: A,
    line: &TreeLine<'_>,
    paper: &mut Paper,
) -> Result<(), TreeFault> {
    match &place(alloc, line.first) {
        Ok(path) => show_of(alloc, path, line, paper),
        Err(fault) => Err(*fault),
    }
}

fn show_of<A: Allocator + Copy>(
    alloc: A,
    path: &Path<A>,
    line: &TreeLine<'_>,
    paper: &mut Paper,
) -> Result<(), TreeFault> {
    match line.step {
        TreeStep::Leads => return show_led(alloc, path, line.second, paper),
        TreeStep::Copy => return show_copy(alloc, path, paper),
        TreeStep::Keys => show_keys(path, paper),
        _ => return show_beside(alloc, path, line, paper),
    }
    Ok(())
}

fn show_led<A: Allocator + Copy>(
    alloc: A,
    here: &Path<A>,
    text: &[u8],
    paper: &mut Paper,
) -> Result<(), TreeFault> {
    let path = from(here, alloc, text)?;
    paper.quote(path.text());
    Ok(())
}

fn show_copy<A: Allocator + Copy>(
    alloc: A,
    path: &Path<A>,
    paper: &mut Paper,
) -> Result<(), TreeFault> {
    let Ok(copy) = path.copy(alloc) else {
        return Err(TreeFault::Memory);
    };
    paper.quote(copy.text());
    Ok(())
}

/// A path beside another.
fn show_beside<A: Allocator + Copy>(
    alloc: A,
    path: &Path<A>,
    line: &TreeLine<'_>,
    paper: &mut Paper,
) -> Result<(), TreeFault> {
    let other = place(alloc, line.second)?;
    match line.step {
        TreeStep::Order => show_order(path, &other, paper),
        TreeStep::Below => show_below(path, &other, paper),
        _ => return show_move(alloc, path, &other, line.third, paper),
    }
    Ok(())
}

fn show_move<A: Allocator + Copy>(
    alloc: A,
    path: &Path<A>,
    from: &Path<A>,
    to: &[u8],
    paper: &mut Paper,
) -> Result<(), TreeFault> {
    let to = place(alloc, to)?;
    show_moved(alloc, path, from, &to, paper)
}
