// Callers of an ear and of `put_line`, whose clauses need theirs.
ghost use Rattle.std.specs.Prelude.{◌≡◌, ◌+◌, ◌≤◌, List, length, true, false, vec_len, vec_capacity};
ghost use Rattle.ftp_nvt.specs.Ear.{Hears};
ghost use Rattle.ftp_nvt.specs.Lines.{NvtEvent};

use ftp_nvt::{Ear, Event, put_line};
use std::alloc::Allocator;

/// How many events a piece gives: a caller's loop, which feeds an ear until the piece is used up.
pub fn events_in<A: Allocator + Copy>(ear: &mut Ear<A>, piece: &[u8]) -> usize
    // Witness: they are witnesses, of `Ear::feed` and `put_line` of `ftp_nvt`.
    ensures { (added : List NvtEvent) × (length added ≡ result) × Hears ear.old piece.now added ear.new }
{
    let mut taken = 0;
    let mut count = 0;
    while taken < piece.len() {
        let (_, rest) = piece.split_at(taken);
        let heard = ear.feed(rest);
        taken += heard.taken;
        match heard.event {
            Event::More => {}
            _ => count += 1,
        }
    }
    count
}

/// Whether an ear that settles nothing leaves octets of the piece: it never does.
pub fn leaves_octets<A: Allocator + Copy>(ear: &mut Ear<A>, piece: &[u8]) -> bool
    // Witness: as of `events_in`.
    ensures { result ≡ false }
{
    let heard = ear.feed(piece);
    match heard.event {
        Event::More => heard.taken < piece.len(),
        _ => false,
    }
}

/// Whether NOOP is written where there is room for its line: it always is.
pub fn writes_in_room<A: Allocator + Copy>(out: &mut Vec<u8, A>) -> bool
    requires { vec_len out.old + 6 ≤ vec_capacity out.old }
    // Witness: as of `events_in`.
    ensures { result ≡ true }
{
    put_line(b"NOOP", out).is_ok()
}
