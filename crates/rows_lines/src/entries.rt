//! Lines of a listing, and what is written of the entries that they say.
use crate::growing::put_behind;
use ftp_facts::laws::entry_comes_back;
use ftp_facts::{Entry, FactFault, read_entry, write_entry};
use rows_base::{Paper, Refusing};
use std::alloc::{Allocator, Global};

/// Puts the line of an entry, behind two octets.
fn put_entry<A: Allocator + Copy, B: Allocator + Copy>(
    heap: B,
    entry: &Entry<A>,
    paper: &mut Paper,
) {
    let mut out = Vec::new(heap);
    let goes = out.extend_from_slice(b"ab").is_ok() && write_entry(entry, &mut out).is_ok();
    put_behind(b"ab", out.as_slice(), goes, paper);
}

fn put_answer<A: Allocator + Copy, B: Allocator + Copy>(
    heap: B,
    read: &Result<Entry<A>, FactFault>,
    paper: &mut Paper,
) {
    match read {
        Ok(entry) => put_entry(heap, entry, paper),
        Err(fault) => paper.put(fault.text().as_bytes()),
    }
}

/// Puts the line of the entry that a line says, or its fault. An entry is let go here, since that is dear to prove.
pub(crate) fn put<A: Allocator + Copy>(heap: A, line: &[u8], paper: &mut Paper) {
    let read = read_entry(heap, line);
    put_answer(heap, &read, paper);
    drop(read);
}

/// Writes the line of what comes back of the entry that a line says.
pub(crate) fn show_back(alloc: Global, line: &[u8], paper: &mut Paper) {
    let read = read_entry(alloc, line);
    let back = match &read {
        Ok(entry) => entry_comes_back(alloc, entry),
        Err(fault) => Err(*fault),
    };
    put_answer(alloc, &back, paper);
    drop(back);
    drop(read);
}

/// Writes how many growths the reading of a line asks for.
pub(crate) fn show_growths(alloc: Global, line: &[u8], paper: &mut Paper) {
    let heap = Refusing::new(alloc, 0);
    drop(read_entry(&heap, line));
    paper.number(0u64.wrapping_sub(heap.left()));
}
