//! Files to items, and items to files.
use crate::report::put_quoted;
use crate::row::{LineRow, kind_of, octets_in, structure_of};
use ftp_repr::{Item, Receiver, Sender};
use rows_base::{Paper, quoted, split};
use std::alloc::Global;

/// Writes the items of the row's file in their least parts: each octet behind an `o`, an end of record as `R`, and that of the file as `F`.
pub(crate) fn show_sent(alloc: Global, row: &LineRow<'_>, paper: &mut Paper) {
    let mut parts = Paper::new(alloc);
    send(row, &mut parts);
    put_quoted(parts.text(), paper);
}

fn send(row: &LineRow<'_>, parts: &mut Paper) {
    let mut sender = Sender::new(kind_of(row.head), structure_of(row.head));
    let mut rest = row.octets;
    for _ in 0..100 {
        let (taken, Some(item)) = sender.next(rest, true) else {
            break;
        };
        put_item(item, parts);
        rest = rest.split_at(taken).1;
    }
}

fn put_item(item: Item<'_>, parts: &mut Paper) {
    match item {
        Item::Octets(octets) => for octet in octets {
            parts.put(&[b'o', *octet]);
        },
        Item::EndRecord => parts.put(b"R"),
        Item::EndFile => parts.put(b"F"),
    }
}

/// Writes the file that the row's items give at a clean end, and at a break.
pub(crate) fn show_received(alloc: Global, row: &LineRow<'_>, paper: &mut Paper) {
    put_received(alloc, row.text, false, paper);
    paper.put(b" broken ");
    put_received(alloc, row.text, true, paper);
}

/// Puts the file, and whether an item or the end is refused.
fn put_received(alloc: Global, text: &[u8], breaks: bool, paper: &mut Paper) {
    let (letters, items) = split(text);
    let mut file = Vec::new(alloc);
    let mut receiver = Receiver::new(kind_of(letters), structure_of(letters));
    let all = takes_all(alloc, &mut receiver, items, &mut file);
    if breaks {
        receiver.broken();
    }
    let ends = receiver.end(&mut file).is_ok();
    put_quoted(file.as_slice(), paper);
    if !all || !ends {
        paper.put(b" refused");
    }
}

/// Hands items to a receiver: octets between double quotes, R for an end of record, F for one of the file.
fn takes_all(alloc: Global, receiver: &mut Receiver, items: &[u8], file: &mut Vec<u8>) -> bool {
    let mut all = true;
    let mut rest = items;
    for _ in 0..items.len() {
        if rest.is_empty() {
            break;
        }
        let (word, behind) = quoted(rest);
        let octets = octets_in(alloc, word);
        all &= receiver.take(item_of(rest, octets.text()), file).is_ok();
        rest = behind;
    }
    all
}

/// The item that a text says, which stands for these octets.
fn item_of<'a>(text: &[u8], octets: &'a [u8]) -> Item<'a> {
    match text {
        [b'R', ..] => Item::EndRecord,
        [b'F', ..] => Item::EndFile,
        _ => Item::Octets(octets),
    }
}
