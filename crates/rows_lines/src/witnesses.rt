// Calls of codecs at which a clause of theirs decides the answer.
ghost use Rattle.std.specs.Prelude.{◌≡◌, ◌≤◌, true, vec_capacity};

use ftp_repr::{Item, Kind, Receiver, Sender, Structure};
use std::alloc::{Allocator, Global};

/// A sender gives no item behind the end of file (`Sender::next`: `ends`, `full`).
pub fn nothing_follows_the_end(kind: Kind, structure: Structure, piece: &[u8]) -> bool
    ensures { result ≡ true }
{
    let mut sender = Sender::new(kind, structure);
    let (_, _) = sender.next(&[], true);
    let (_, item) = sender.next(piece, true);
    item.is_none()
}

/// Memory is not wanted where an item settles nothing (`Receiver::take` and `end`: `full`).
pub fn nothing_settled_needs_no_room(alloc: Global) -> bool
    ensures { result ≡ true }
{
    let mut file = Vec::new(alloc);
    let mut receiver = Receiver::new(Kind::Image, Structure::File);
    let taken = receiver.take(Item::EndRecord, &mut file).is_ok();
    let ended = receiver.end(&mut file).is_ok();
    taken && ended
}

/// A file keeps the room that it has (`Receiver::take` and `end`: `capacity`).
pub fn an_item_keeps_the_room<A: Allocator + Copy>(
    receiver: &mut Receiver,
    item: Item<'_>,
    file: &mut Vec<u8, A>,
) -> bool
    // Witness: it passes on the clause `capacity` of `Receiver::take` and `end`; nothing stands on it.
    ensures { vec_capacity file.old ≤ vec_capacity file.new }
{
    let taken = receiver.take(item, file).is_ok();
    let ended = receiver.end(file).is_ok();
    taken && ended
}
